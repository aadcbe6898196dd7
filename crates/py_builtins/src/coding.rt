//! How the characters of a text are coded.
ghost use Rattle.std.specs.Prelude.{◌≡◌, ◌≤◌, ◌%◌, length, map, IfOk, string_bytes, encode_utf8_all};
ghost use Rattle.std.specs.Int.{w16, from_le_bytes};
ghost use Rattle.process_memory.specs.Memory.{found_or};
ghost use Rattle.process_memory.specs.Memory.Fault.{NoText};
ghost use Rattle.process_memory.specs.Seen.{Answers};
ghost use Rattle.py_builtins.specs.ObjectError.{object_fault};
ghost use Rattle.py_builtins.specs.TextKind.{width, decoded};

use crate::ObjectError;
use elf64_core::Text;
use std::alloc::{AllocError, Global};

/// How the characters of a text are coded. The lowest byte of a unit is the first.
#[derive(Clone, Copy, Debug, PartialEq, Eq)]
pub enum TextKind {
    /// UTF-8; ASCII is a part of it.
    Utf8,
    /// A byte for each of the first 256 characters.
    Latin1,
    /// UTF-16: units of 2 bytes, of which two are a pair of surrogates.
    Utf16,
    /// UTF-32: 4 bytes for each character.
    Utf32,
}

impl TextKind {
    /// How many bytes a unit has, of which a text's length says the number.
    pub(crate) fn width(self) -> u64
        ensures value { result ≡ width self }
        ensures few { result ≤ 4 }
    {
        match self {
            TextKind::Utf8 | TextKind::Latin1 => 1,
            TextKind::Utf16 => 2,
            TextKind::Utf32 => 4,
        }
    }
}

/// The characters that bytes code; `NoText` where they code none.
pub(crate) fn decode(alloc: Global, kind: TextKind, bytes: Vec<u8>) -> Result<Text, ObjectError>
    requires { length bytes.items % width kind ≡ 0 }
    ensures { Answers object_fault (found_or (decoded kind bytes.items) NoText) result }
{
    match kind {
        TextKind::Utf8 => utf8_text(bytes),
        TextKind::Latin1 => latin1_text(alloc, &bytes),
        TextKind::Utf16 => utf16_text(alloc, &bytes),
        TextKind::Utf32 => utf32_text(alloc, &bytes),
    }
}

fn utf8_text(bytes: Vec<u8>) -> Result<Text, ObjectError>
    ensures { Answers object_fault (found_or (decoded TextKind.Utf8 bytes.items) NoText) result }
{
    match String::from_utf8(bytes) {
        Ok(text) => {
            let shared = Text::from_string(text)?;
            Ok(shared)
        }
        Err(_) => Err(ObjectError::NoText),
    }
}

fn latin1_text(alloc: Global, bytes: &[u8]) -> Result<Text, ObjectError>
    ensures { Answers object_fault (found_or (decoded TextKind.Latin1 bytes.now) NoText) result }
{
    let text = latin1_string(alloc, bytes)?;
    let shared = Text::from_string(text)?;
    Ok(shared)
}

fn latin1_string(alloc: Global, bytes: &[u8]) -> Result<String, AllocError>
    ensures { IfOk result (λ text. string_bytes text ≡ encode_utf8_all bytes.now) }
{
    bytes.iter().map(|byte| char::from(*byte)).collect(alloc)
}

fn utf16_text(alloc: Global, bytes: &[u8]) -> Result<Text, ObjectError>
    requires { length bytes.now % 2 ≡ 0 }
    ensures { Answers object_fault (found_or (decoded TextKind.Utf16 bytes.now) NoText) result }
{
    let (pairs, _) = bytes.as_chunks::<2>();
    let units = utf16_units(alloc, pairs)?;
    match String::from_utf16(alloc, &units)? {
        Ok(text) => {
            let shared = Text::from_string(text)?;
            Ok(shared)
        }
        Err(_) => Err(ObjectError::NoText),
    }
}

/// The units of UTF-16, the lowest byte first.
fn utf16_units(alloc: Global, pairs: &[[u8; 2]]) -> Result<Vec<u16>, AllocError>
    ensures { IfOk result (λ units. units.items ≡ map (from_le_bytes w16) pairs.now) }
{
    pairs
        .iter()
        .map(|pair| u16::from_le_bytes(*pair))
        .collect(alloc)
}

fn utf32_text(alloc: Global, bytes: &[u8]) -> Result<Text, ObjectError>
    requires { length bytes.now % 4 ≡ 0 }
    ensures { Answers object_fault (found_or (decoded TextKind.Utf32 bytes.now) NoText) result }
{
    let (codes, _) = bytes.as_chunks::<4>();
    let mut text = String::new(alloc);
    for code in codes {
        match char::from_u32(u32::from_le_bytes(*code)) {
            Some(character) => text.push(character)?,
            None => return Err(ObjectError::NoText),
        }
    }
    let shared = Text::from_string(text)?;
    Ok(shared)
}
