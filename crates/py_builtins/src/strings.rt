//! Text objects.
ghost use Rattle.std.specs.Prelude.{◌≡◌, ℕ, ◌+◌, ◌*◌, ◌<◌, ◌≤◌, ◌^◌, List, length, IfOk, MatchResult};
ghost use Rattle.py_fields.specs.Sound.{IsSound};
ghost use Rattle.process_memory.specs.Seen.{ReadsRange};
ghost use Rattle.py_builtins.specs.Consulted.{Consulting, Consults};
ghost use Rattle.py_builtins.specs.ObjectError.{object_fault};
ghost use Rattle.py_builtins.specs.Refusals.{RefusesEarly};
ghost use Rattle.py_builtins.specs.TextKind.{width};
ghost use Rattle.py_builtins.specs.Texts.{text_at, characters_at, IsText, characters_of, characters_by, state_at};
ghost use Rattle.py_builtins.specs.Texts.{kind_in, place_in, bit_is_set};

use crate::ObjectError;
use crate::coding::{TextKind, decode};
use elf64_core::{Text, u32_in, u64_in};
use process_memory::{ProcessMemory, record, record_wide};
use py_fields::{Layout, StringAt, Strings};
use std::alloc::Global;

/// The length from which on a text is not read, in units of its coding.
const LENGTH_LIMIT: u64 = 4096;

/// Where a text's state says how it is stored: offsets in its record in bytes, and places of bits in the state.
#[derive(Clone, Copy)]
pub struct StateAt {
    /// The offset of the state's 4 bytes.
    pub state: u32,
    /// The offset of the address of characters that do not stand behind the record.
    pub pointer: u32,
    /// How far behind the record's address the characters of a compact text stand that is not ASCII.
    pub long_at: u32,
    /// The lowest of the three bits that say how many bytes a unit has.
    pub kind_shift: u32,
    /// The bit that marks a text whose characters stand behind its record.
    pub compact_bit: u32,
    /// The bit that marks a text of ASCII characters.
    pub ascii_bit: u32,
}

/// How the characters of a text are coded, and their address.
#[derive(Clone, Copy)]
pub struct Characters {
    /// How they are coded.
    pub kind: TextKind,
    /// The address of the first, which may be past every address that a process has.
    pub at: u128,
}

/// The text that an object is, by the rule of CPython's `str` objects.
///
/// Its record says how many units it has: none is the empty text, and a negative length or one of 4096 and
/// more is `TooLong`, with the length that is stated. With the strings `State` three bits of the record's
/// state say whether a unit has 1, 2 or 4 bytes; units of 1 byte are UTF-8 where the text is marked as
/// ASCII and else Latin-1, those of 2 are UTF-16 and those of 4 are UTF-32. The characters stand behind the
/// record where the text is marked as compact, and else at the address that the record holds. With `Bytes`
/// they are UTF-8 and stand behind the record. Another width is `NoText`, and so are units that code no
/// characters, as a surrogate without its partner. A range that is not in memory is `Unreadable`.
///
/// The record is looked at first, then the length, the width and the characters. At most 2 reads.
pub fn copy_string<P: ProcessMemory>(
    alloc: Global,
    process: &mut P,
    layout: &Layout,
    addr: u64,
) -> Result<Text, ObjectError>
    requires sound { IsSound layout.now }
    ensures answer { Consults layout.now object_fault 2 (P.seen process.old) (P.seen process.new)
        (λ m. text_at layout.now m addr) result }
    ensures early { RefusesEarly (P.seen process.old) (P.seen process.new) (λ m. text_at layout.now m addr) result }
    ensures text { Consulting layout.now 2 (P.seen process.old) (P.seen process.new)
        (λ m. IfOk result (IsText layout.now m addr)) }
    ensures found { Consulting layout.now 2 (P.seen process.old) (P.seen process.new) (λ m. (cs : List ℕ)
        → IsText layout.now m addr cs
        → MatchResult result (λ text. text ≡ cs) (λ error. error ≡ ObjectError.OutOfMemory)) }
{
    read_text(alloc, process, layout, addr)
}

fn read_text<P: ProcessMemory>(
    alloc: Global,
    process: &mut P,
    layout: &Layout,
    addr: u64,
) -> Result<Text, ObjectError>
    requires sound { IsSound layout.now }
    ensures answer { Consults layout.now object_fault 2 (P.seen process.old) (P.seen process.new)
        (λ m. text_at layout.now m addr) result }
    ensures early { RefusesEarly (P.seen process.old) (P.seen process.new) (λ m. text_at layout.now m addr) result }
{
    let object = record(alloc, process, addr, layout.string.size as u64)?;
    let length = u64_in(&object, layout.string.length as usize);
    if length == 0 {
        let empty = Text::from_string(String::new(alloc))?;
        return Ok(empty);
    }
    if length >= LENGTH_LIMIT {
        return Err(ObjectError::TooLong {
            len: length.cast_signed(),
        });
    }
    match characters_of(layout, addr, &object) {
        Some(characters) => read_characters(alloc, process, length, &characters),
        None => Err(ObjectError::NoText),
    }
}

/// The characters that so many units code.
fn read_characters<P: ProcessMemory>(
    alloc: Global,
    process: &mut P,
    length: u64,
    characters: &Characters,
) -> Result<Text, ObjectError>
    requires { length < 4096 }
    ensures { ReadsRange object_fault characters.now.at (length * width characters.now.kind)
        (P.seen process.old) (P.seen process.new) (λ m. characters_at m length (Some characters.now)) result }
{
    let len = length * characters.kind.width();
    let bytes = record_wide(alloc, process, characters.at, len)?;
    decode(alloc, characters.kind, bytes)
}

/// How the characters of a text are coded and where they stand, by its record.
#[tactic(auto, unfolding(crate::specs::Texts::characters_of))]
fn characters_of(layout: &Layout, addr: u64, object: &[u8]) -> Option<Characters>
    requires sound { IsSound layout.now }
    requires whole { length object.now ≡ layout.now.string.size }
    ensures { result ≡ characters_of layout.now addr object.now }
{
    match layout.strings {
        Strings::State => state_characters(layout, addr, object),
        Strings::Bytes => Some(Characters {
            kind: TextKind::Utf8,
            at: addr as u128 + layout.string.short_at as u128,
        }),
    }
}

fn state_characters(layout: &Layout, addr: u64, object: &[u8]) -> Option<Characters>
    requires sound { IsSound layout.now }
    requires whole { length object.now ≡ layout.now.string.size }
    ensures { result ≡ characters_by layout.now.string addr object.now (state_at layout.now.string) }
{
    let at = state_at(&layout.string)?;
    let state = u32_in(object, at.state as usize);
    let kind = kind_in(&at, state)?;
    let at = place_in(&layout.string, &at, addr, object, state);
    Some(Characters { kind, at })
}

/// Where the state is, if the layout has all of it.
fn state_at(string: &StringAt) -> Option<StateAt>
    ensures { result ≡ state_at string.now }
{
    Some(StateAt {
        state: string.state?,
        pointer: string.pointer?,
        long_at: string.long_at?,
        kind_shift: string.kind_shift?,
        compact_bit: string.compact_bit?,
        ascii_bit: string.ascii_bit?,
    })
}

fn bit_is_set(number: u32, bit: u32) -> bool
    requires { bit < 32 }
    ensures { result ≡ bit_is_set number bit }
{
    number >> bit & 1 == 1
}

#[tactic(auto, unfolding(crate::specs::Texts::kind_in))]
fn kind_in(at: &StateAt, state: u32) -> Option<TextKind>
    requires { (at.now.kind_shift < 32) × (at.now.ascii_bit < 32) }
    ensures { result ≡ kind_in at.now state }
{
    match (state >> at.kind_shift) % 8 {
        1 if bit_is_set(state, at.ascii_bit) => Some(TextKind::Utf8),
        1 => Some(TextKind::Latin1),
        2 => Some(TextKind::Utf16),
        4 => Some(TextKind::Utf32),
        _ => None,
    }
}

#[tactic(auto, unfolding(crate::specs::Texts::place_in))]
fn place_in(string: &StringAt, at: &StateAt, addr: u64, object: &[u8], state: u32) -> u128
    requires bits { (at.now.compact_bit < 32) × (at.now.ascii_bit < 32) }
    requires pointer { at.now.pointer + 8 ≤ length object.now }
    ensures { result ≡ place_in string.now at.now addr object.now state }
{
    if !bit_is_set(state, at.compact_bit) {
        u64_in(object, at.pointer as usize) as u128
    } else if bit_is_set(state, at.ascii_bit) {
        addr as u128 + string.short_at as u128
    } else {
        addr as u128 + at.long_at as u128
    }
}
