//! What a text or a bytes object has at a place.
ghost use Rattle.std.specs.Prelude.{◌≡◌, ◌+◌, ◌<◌, ◌≤◌, ◌^◌, length, IfOk, IfSome};
ghost use Rattle.process_memory.specs.Seen.{Reads, Reading};
ghost use Rattle.py_fields.specs.Sound.{IsSound};
ghost use Rattle.py_builtins.specs.TextKind.{width};
ghost use Rattle.py_builtins.specs.Texts.{bit_is_set, characters_by, characters_of, kind_in, place_in, state_at};
ghost use Rattle.py_names.specs.NamesError.{names_fault};
ghost use Rattle.py_exceptions.specs.Units.{byte_of, character_at, coded_at, is_of, number_in, own_byte_at, unit_at};
ghost use Rattle.py_exceptions.specs.Units.{unit_found_at, unit_in};

use crate::fault::or_none;
use elf64_core::{u16_in, u32_in, u64_in};
use process_memory::{ProcessMemory, record, record_wide};
use py_builtins::{Characters, StateAt, TextKind, read_type};
use py_fields::{Layout, StringAt, Strings};
use py_names::NamesError;
use std::alloc::Global;
use thread_exceptions::ExceptionsError;

/// The flags of types that are `bytes` or `str`, or derive from it: CPython's `Py_TPFLAGS_BYTES_SUBCLASS` and
/// `Py_TPFLAGS_UNICODE_SUBCLASS`.
const PY_TPFLAGS_BYTES_SUBCLASS: u64 = 134_217_728;

const PY_TPFLAGS_UNICODE_SUBCLASS: u64 = 268_435_456;

/// The lowest number that is below 0 as a signed one of 8 bytes.
const NEGATIVE: u64 = 9_223_372_036_854_775_808;

/// What a text or a bytes object has at a place.
#[derive(Clone, Copy, Debug, PartialEq, Eq)]
pub enum Unit {
    /// Nothing: it ends before.
    Outside,
    /// This character or byte, by its number. A surrogate is a character too.
    Is(u32),
}

/// What an object consists of.
#[derive(Clone, Copy)]
pub(crate) enum Units {
    Characters,
    Bytes,
}

// ---- texts

/// How many bytes a character has.
fn width_of(kind: TextKind) -> u64
    ensures value { result ≡ width kind }
    ensures few { result ≤ 4 }
{
    match kind {
        TextKind::Utf8 => 1,
        TextKind::Latin1 => 1,
        TextKind::Utf16 => 2,
        TextKind::Utf32 => 4,
    }
}

/// The number that the bytes of a character are.
#[tactic(auto, unfolding(elf64_core::specs::Fields::u8_in))]
fn number_in(kind: TextKind, bytes: &[u8]) -> u32
    requires { length bytes.now ≡ width kind }
    ensures { result ≡ number_in kind bytes.now }
{
    match kind {
        TextKind::Utf8 => u32::from(bytes[0]),
        TextKind::Latin1 => u32::from(bytes[0]),
        TextKind::Utf16 => u32::from(u16_in(bytes, 0)),
        TextKind::Utf32 => u32_in(bytes, 0),
    }
}

fn bit_is_set(number: u32, bit: u32) -> bool
    requires { bit < 32 }
    ensures { result ≡ bit_is_set number bit }
{
    number >> bit & 1 == 1
}

/// Where the state of a text is, if the layout has all of it.
fn state_at(string: &StringAt) -> Option<StateAt>
    ensures { result ≡ state_at string.now }
{
    Some(StateAt {
        state: string.state?,
        pointer: string.pointer?,
        long_at: string.long_at?,
        kind_shift: string.kind_shift?,
        compact_bit: string.compact_bit?,
        ascii_bit: string.ascii_bit?,
    })
}

#[tactic(auto, unfolding(py_builtins::specs::Texts::kind_in))]
fn kind_in(at: &StateAt, state: u32) -> Option<TextKind>
    requires { (at.now.kind_shift < 32) × (at.now.ascii_bit < 32) }
    ensures { result ≡ kind_in at.now state }
{
    match (state >> at.kind_shift) % 8 {
        1 if bit_is_set(state, at.ascii_bit) => Some(TextKind::Utf8),
        1 => Some(TextKind::Latin1),
        2 => Some(TextKind::Utf16),
        4 => Some(TextKind::Utf32),
        _ => None,
    }
}

#[tactic(auto, unfolding(py_builtins::specs::Texts::place_in))]
fn place_in(string: &StringAt, at: &StateAt, addr: u64, object: &[u8], state: u32) -> u128
    requires bits { (at.now.compact_bit < 32) × (at.now.ascii_bit < 32) }
    requires pointer { at.now.pointer + 8 ≤ length object.now }
    ensures is { result ≡ place_in string.now at.now addr object.now state }
    ensures near { result < 2 ^ 65 }
{
    if !bit_is_set(state, at.compact_bit) {
        u64_in(object, at.pointer as usize) as u128
    } else if bit_is_set(state, at.ascii_bit) {
        addr as u128 + string.short_at as u128
    } else {
        addr as u128 + at.long_at as u128
    }
}

fn state_characters(layout: &Layout, addr: u64, object: &[u8]) -> Option<Characters>
    requires sound { IsSound layout.now }
    requires whole { length object.now ≡ layout.now.string.size }
    ensures is { result ≡ characters_by layout.now.string addr object.now (state_at layout.now.string) }
    ensures near { IfSome result (λ p. p.at < 2 ^ 65) }
{
    let at = state_at(&layout.string)?;
    let state = u32_in(object, at.state as usize);
    let kind = kind_in(&at, state)?;
    let at = place_in(&layout.string, &at, addr, object, state);
    Some(Characters { kind, at })
}

/// How the characters of a text are coded and where they stand, by its record.
#[tactic(auto, unfolding(py_builtins::specs::Texts::characters_of))]
fn characters_of(layout: &Layout, addr: u64, object: &[u8]) -> Option<Characters>
    requires sound { IsSound layout.now }
    requires whole { length object.now ≡ layout.now.string.size }
    ensures is { result ≡ characters_of layout.now addr object.now }
    ensures near { IfSome result (λ p. p.at < 2 ^ 65) }
{
    match layout.strings {
        Strings::State => state_characters(layout, addr, object),
        Strings::Bytes => Some(Characters {
            kind: TextKind::Utf8,
            at: addr as u128 + layout.string.short_at as u128,
        }),
    }
}

/// The character of a number, where and as is said. One read.
fn read_coded<P: ProcessMemory>(
    alloc: Global,
    process: &mut P,
    number: u64,
    at: &Characters,
) -> Result<Option<Unit>, NamesError>
    requires { at.now.at < 2 ^ 65 }
    ensures { Reads names_fault 1 (P.seen process.old) (P.seen process.new)
        (λ m. coded_at m number at.now) result }
{
    let width = width_of(at.kind);
    let place = at.at + number as u128 * width as u128;
    let bytes = record_wide(alloc, process, place, width)?;
    Ok(Some(Unit::Is(number_in(at.kind, &bytes))))
}

/// The character of a number that a text has. At most 2 reads.
fn read_character<P: ProcessMemory>(
    alloc: Global,
    process: &mut P,
    layout: &Layout,
    addr: u64,
    number: u64,
) -> Result<Option<Unit>, NamesError>
    requires sound { IsSound layout.now }
    ensures { Reads names_fault 2 (P.seen process.old) (P.seen process.new)
        (λ m. character_at layout.now m addr number) result }
{
    let object = record(alloc, process, addr, layout.string.size as u64)?;
    let count = u64_in(&object, layout.string.length as usize);
    if number >= count {
        return Ok(Some(Unit::Outside));
    }
    match characters_of(layout, addr, &object) {
        None => Ok(None),
        Some(characters) => read_coded(alloc, process, number, &characters),
    }
}

// ---- bytes

/// The byte of a number behind the record of a bytes object. One read.
fn read_own_byte<P: ProcessMemory>(
    alloc: Global,
    process: &mut P,
    layout: &Layout,
    addr: u64,
    number: u64,
) -> Result<Option<Unit>, NamesError>
    ensures { Reads names_fault 1 (P.seen process.old) (P.seen process.new)
        (λ m. own_byte_at layout.now m addr number) result }
{
    let place = addr as u128 + layout.bytes.at as u128 + number as u128;
    let bytes = record_wide(alloc, process, place, 1)?;
    Ok(Some(Unit::Is(number_in(TextKind::Latin1, &bytes))))
}

/// The byte of a number that a bytes object has. At most 2 reads.
fn read_byte<P: ProcessMemory>(
    alloc: Global,
    process: &mut P,
    layout: &Layout,
    addr: u64,
    number: u64,
) -> Result<Option<Unit>, NamesError>
    requires sound { IsSound layout.now }
    ensures { Reads names_fault 2 (P.seen process.old) (P.seen process.new)
        (λ m. byte_of layout.now m addr number) result }
{
    let object = record(alloc, process, addr, layout.bytes.size as u64)?;
    let count = u64_in(&object, layout.bytes.length as usize);
    if number >= count {
        return Ok(Some(Unit::Outside));
    }
    read_own_byte(alloc, process, layout, addr, number)
}

// ---- either

/// Whether flags are those of a type of such objects.
fn is_of(units: Units, flags: u64) -> bool
    ensures { result ≡ is_of units flags }
{
    match units {
        Units::Characters => flags / PY_TPFLAGS_UNICODE_SUBCLASS % 2 == 1,
        Units::Bytes => flags / PY_TPFLAGS_BYTES_SUBCLASS % 2 == 1,
    }
}

/// What such an object has at a place. At most 2 reads.
fn read_unit_in<P: ProcessMemory>(
    alloc: Global,
    process: &mut P,
    layout: &Layout,
    units: Units,
    addr: u64,
    number: u64,
) -> Result<Option<Unit>, NamesError>
    requires sound { IsSound layout.now }
    ensures { Reads names_fault 2 (P.seen process.old) (P.seen process.new)
        (λ m. unit_in layout.now m units addr number) result }
{
    match units {
        Units::Characters => read_character(alloc, process, layout, addr, number),
        Units::Bytes => read_byte(alloc, process, layout, addr, number),
    }
}

/// The same of an object that is one of these, none of another one. At most 4 reads.
fn read_found<P: ProcessMemory>(
    alloc: Global,
    process: &mut P,
    layout: &Layout,
    units: Units,
    addr: u64,
    number: u64,
) -> Result<Option<Unit>, NamesError>
    requires sound { IsSound layout.now }
    ensures { Reads names_fault 4 (P.seen process.old) (P.seen process.new)
        (λ m. unit_found_at layout.now m units addr number) result }
{
    let class = read_type(alloc, process, layout, addr)?;
    if is_of(units, class.flags) {
        return read_unit_in(alloc, process, layout, units, addr, number);
    }
    Ok(None)
}

/// The same; none where it can't be read, and where the place is below 0, as numbers from 2^63 on are. At most 4 reads.
pub(crate) fn read_unit<P: ProcessMemory>(
    alloc: Global,
    process: &mut P,
    layout: &Layout,
    units: Units,
    addr: u64,
    number: u64,
) -> Result<Option<Unit>, ExceptionsError>
    requires sound { IsSound layout.now }
    ensures { Reading 4 (P.seen process.old) (P.seen process.new)
        (λ m. IfOk result (λ unit. unit ≡ unit_at layout.now m units addr number)) }
{
    if number < NEGATIVE {
        return or_none(read_found(alloc, process, layout, units, addr, number));
    }
    Ok(None)
}
