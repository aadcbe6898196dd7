//! The texts of values.
ghost use Rattle.std.specs.Prelude.{◌≡◌, ◌++◌, ◌≤◌, ◌^◌, codes, ◌-◌, IfOk, OnOk, string_bytes, length, false, []};
ghost use Rattle.std.specs.Fmt.{digits, padded_integral, format_spec};
ghost use Rattle.std.specs.List.{flat_map};
ghost use Rattle.std.specs.Str.{chars};
ghost use Rattle.std.specs.Char.{encode_utf8};
ghost use Rattle.process_memory.specs.Memory.Fault.{BadType};
ghost use Rattle.process_memory.specs.Seen.{Answers};
ghost use Rattle.py_builtins.specs.ObjectError.{object_fault};
ghost use Rattle.py_objects.specs.Kinds.{scalar_width};
ghost use Rattle.py_objects.specs.ShownTexts.{before_nul, byte_truth, dots, escape, escaped, float_text, long_text};
ghost use Rattle.py_objects.specs.ShownTexts.{number_text, other_text, quoted, scalar_text, text_or};
ghost use Rattle.py_objects.specs.Shows.{text_of};

use crate::kinds::Scalar;
use elf64_core::{u16_in, u32_in, u64_in};
use py_builtins::ObjectError;
use std::alloc::{AllocError, Global};

/// A number of the type of this name.
#[tactic(auto, unfolding(crate::specs::ShownTexts::number_text))]
pub fn number(alloc: Global, name: &str, value: i64) -> Result<String, AllocError>
    ensures { IfOk result (λ t. string_bytes t ≡ number_text name.now value) }
{
    if name == "bool" {
        return String::from_str(alloc, if value > 0 { "True" } else { "False" });
    }
    value.to_string(alloc)
}

/// The same, unless it is too big to be shown.
pub fn long_number(
    alloc: Global,
    name: &str,
    value: i64,
    is_big: bool,
) -> Result<String, AllocError>
    ensures { IfOk result (λ t. string_bytes t ≡ long_text name.now (value, is_big)) }
{
    if is_big {
        return String::from_str(alloc, if value < 0 { "-bigint" } else { "+bigint" });
    }
    number(alloc, name, value)
}

/// A float of 8 bytes by its bits.
pub fn double(alloc: Global, bits: u64) -> Result<String, AllocError>
    ensures { IfOk result (λ t. string_bytes t ≡ float_text 16 bits) }
{
    padded_double(alloc, bits)
}

fn padded_double(alloc: Global, bits: u64) -> Result<String, AllocError>
    ensures { IfOk result (λ t. string_bytes t ≡ codes "float 0x"
        ++ padded_integral (format_spec 32 0 4 16 (2 ^ 64 - 1)) false [] (digits 16 false bits)) }
{
    format!(in alloc; "float 0x{bits:016x}")
}

/// A float of 4 bytes by its bits.
fn single(alloc: Global, bits: u32) -> Result<String, AllocError>
    ensures { IfOk result (λ t. string_bytes t ≡ float_text 8 bits) }
{
    padded_single(alloc, bits)
}

fn padded_single(alloc: Global, bits: u32) -> Result<String, AllocError>
    ensures { IfOk result (λ t. string_bytes t ≡ codes "float 0x"
        ++ padded_integral (format_spec 32 0 4 8 (2 ^ 64 - 1)) false [] (digits 16 false bits)) }
{
    format!(in alloc; "float 0x{bits:08x}")
}

/// One of numpy's numbers by its bytes.
pub fn scalar(alloc: Global, scalar: Scalar, bytes: &[u8]) -> Result<String, ObjectError>
    requires { scalar_width scalar ≤ length bytes.now }
    ensures { Answers object_fault (scalar_text scalar bytes.now) (text_of result) }
{
    let text = match scalar {
        Scalar::Truth => return truth(alloc, bytes[0]),
        Scalar::U8 => bytes[0].to_string(alloc)?,
        Scalar::U16 => u16_in(bytes, 0).to_string(alloc)?,
        Scalar::U32 => u32_in(bytes, 0).to_string(alloc)?,
        Scalar::U64 => u64_in(bytes, 0).to_string(alloc)?,
        Scalar::I8 => bytes[0].cast_signed().to_string(alloc)?,
        Scalar::I16 => u16_in(bytes, 0).cast_signed().to_string(alloc)?,
        Scalar::I32 => u32_in(bytes, 0).cast_signed().to_string(alloc)?,
        Scalar::I64 => u64_in(bytes, 0).cast_signed().to_string(alloc)?,
        Scalar::F32 => single(alloc, u32_in(bytes, 0))?,
        Scalar::F64 => double(alloc, u64_in(bytes, 0))?,
    };
    Ok(text)
}

/// A truth value of one byte.
#[tactic(auto, unfolding(crate::specs::ShownTexts::byte_truth))]
fn truth(alloc: Global, byte: u8) -> Result<String, ObjectError>
    ensures { Answers object_fault (byte_truth byte) (text_of result) }
{
    match byte {
        0 => Ok(String::from_str(alloc, "false")?),
        1 => Ok(String::from_str(alloc, "true")?),
        _ => Err(ObjectError::BadBool { byte }),
    }
}

/// A value by the name of its type and its address.
#[tactic(auto, unfolding(crate::specs::ShownTexts::other_text))]
pub fn other(alloc: Global, name: &str, addr: u64) -> Result<String, AllocError>
    ensures { IfOk result (λ t. string_bytes t ≡ other_text name.now addr) }
{
    format!(in alloc; "<{name} at 0x{addr:x}>")
}

/// The name of a type, by the bytes that begin with it.
pub fn type_name(alloc: Global, chars: &[u8]) -> Result<String, ObjectError>
    ensures { Answers object_fault (text_or (before_nul chars.now) BadType) (text_of result) }
{
    let name = before_nul(chars);
    match str::from_utf8(name) {
        Ok(name) => Ok(String::from_str(alloc, name)?),
        Err(_) => Err(ObjectError::BadType),
    }
}

/// The bytes before the first nul.
fn before_nul(bytes: &[u8]) -> &[u8]
    ensures { result.now ≡ before_nul bytes.now }
{
    let mut end = 0;
    while end < bytes.len() && bytes[end] != 0 {
        end += 1;
    }
    &bytes[..end]
}

/// The text in place of what has no room.
pub fn dots(alloc: Global) -> Result<String, AllocError>
    ensures { IfOk result (λ t. string_bytes t ≡ dots) }
{
    String::from_str(alloc, "...")
}

/// A text in quotes, cut to a number of characters.
#[tactic(auto, unfolding(crate::specs::ShownTexts::quoted))]
pub fn quoted(alloc: Global, text: &str, most: u64) -> Result<String, AllocError>
    ensures { IfOk result (λ t. string_bytes t ≡ quoted most text.now) }
{
    let chars = escape(alloc, text)?;
    let is_cut = most < chars.len() as u64;
    let shown = if is_cut { most as usize } else { chars.len() };
    let mut out = String::from_str(alloc, "\"")?;
    add_chars(&mut out, &chars[..shown])?;
    if is_cut {
        out.push_str("...")?;
    }
    out.push_str("\"")?;
    Ok(out)
}

/// The characters that a text shows.
#[tactic(auto, unfolding(crate::specs::ShownTexts::escaped))]
fn escape(alloc: Global, text: &str) -> Result<Vec<char>, AllocError>
    ensures { IfOk result (λ v. v.items ≡ escaped text.now) }
{
    let chars = characters(alloc, text)?;
    let mut shown = Vec::new(alloc);
    for c in &chars {
        add_escaped(&mut shown, *c)?;
    }
    Ok(shown)
}

fn characters(alloc: Global, text: &str) -> Result<Vec<char>, AllocError>
    ensures { IfOk result (λ v. v.items ≡ chars text.now) }
{
    text.chars().collect(alloc)
}

/// Adds a character, or what stands for a quote or a newline.
#[tactic(auto, unfolding(crate::specs::ShownTexts::escape))]
fn add_escaped(chars: &mut Vec<char>, c: char) -> Result<(), AllocError>
    ensures { OnOk result (chars.new.items ≡ chars.old.items ++ escape c) }
{
    match c {
        '\'' => {
            chars.push('\\')?;
            chars.push('"')?;
        }
        '\n' => {
            chars.push('\\')?;
            chars.push('n')?;
        }
        _ => chars.push(c)?,
    }
    Ok(())
}

/// Adds characters to a text.
fn add_chars(out: &mut String, chars: &[char]) -> Result<(), AllocError>
    ensures { OnOk result (string_bytes out.new ≡ string_bytes out.old ++ flat_map encode_utf8 chars.now) }
{
    for c in chars {
        out.push(*c)?;
    }
    Ok(())
}
