//! Texts and bytes.
ghost use Rattle.std.specs.Prelude.{◌≡◌, ◌<◌, ◌≤◌, ◌^◌, ◌+◌, ◌/◌, IfOk, length, map, min};
ghost use Rattle.std.specs.Int.{w16, from_le_bytes};
ghost use Rattle.process_memory.specs.Seen.{Answers, Reads};
ghost use Rattle.py_fields.specs.Sound.{IsSound};
ghost use Rattle.py_builtins.specs.Items.{item_count};
ghost use Rattle.py_builtins.specs.ObjectError.{object_fault};
ghost use Rattle.py_builtins.specs.TextKind.{numbers_of, width};
ghost use Rattle.py_builtins.specs.Texts.{bit_is_set, characters_by, characters_of, kind_in, place_in, state_at};
ghost use Rattle.py_reprs.specs.Found.{trees_found};
ghost use Rattle.py_reprs.specs.Texts.{bytearray_at, bytes_form_of, bytes_front_at, bytes_tree_at, head_of, points_of};
ghost use Rattle.py_reprs.specs.Texts.{text_front_at, text_tree_at, text_with};

use crate::fronts::read_front;
use crate::kinds::is_python_2;
use crate::limits::Limits;
use crate::numbers::numbers_of_4;
use crate::repr::{BytesForm, Repr, TextForm};
use elf64_core::{u32_in, u64_in};
use process_memory::{ProcessMemory, record, record_wide};
use py_builtins::{Characters, ObjectError, StateAt, TextKind};
use py_fields::{Layout, StringAt, Strings};
use std::alloc::{AllocError, Global};

/// From how many on a stated length is one below 0.
const LENGTH_LIMIT: u64 = 1 << 63;

/// A length that a record states, unless it is negative.
#[tactic(auto, unfolding(py_builtins::specs::Items::item_count))]
pub(crate) fn length_of(stated: u64) -> Result<u64, ObjectError>
    ensures { Answers object_fault (item_count stated) result }
{
    if stated < LENGTH_LIMIT {
        return Ok(stated);
    }
    Err(ObjectError::BadCount {
        count: stated.cast_signed(),
    })
}

/// How many bytes a unit of a text has.
fn width_of(kind: TextKind) -> u64
    ensures value { result ≡ width kind }
    ensures few { result ≤ 4 }
{
    match kind {
        TextKind::Utf8 | TextKind::Latin1 => 1,
        TextKind::Utf16 => 2,
        TextKind::Utf32 => 4,
    }
}

fn points_of_bytes(alloc: Global, bytes: &[u8]) -> Result<Vec<u32>, AllocError>
    ensures { IfOk result (λ points. points.items ≡ map (λ byte. byte) bytes.now) }
{
    bytes.iter().map(|byte| u32::from(*byte)).collect(alloc)
}

fn points_of_pairs(alloc: Global, bytes: &[u8]) -> Result<Vec<u32>, AllocError>
    ensures { IfOk result (λ points. points.items ≡ numbers_of w16 2 bytes.now) }
{
    let (pairs, _) = bytes.as_chunks::<2>();
    pairs
        .iter()
        .map(|pair| u32::from(u16::from_le_bytes(*pair)))
        .collect(alloc)
}

/// The code points that bytes are, one for each unit.
fn points_of(alloc: Global, kind: TextKind, bytes: &[u8]) -> Result<Vec<u32>, AllocError>
    ensures { IfOk result (λ points. points.items ≡ points_of kind bytes.now) }
{
    match kind {
        TextKind::Utf8 => points_of_bytes(alloc, bytes),
        TextKind::Latin1 => points_of_bytes(alloc, bytes),
        TextKind::Utf16 => points_of_pairs(alloc, bytes),
        TextKind::Utf32 => numbers_of_4(alloc, bytes),
    }
}

/// A number, and at most so many as are shown.
fn shown_length(length: u64, limits: &Limits) -> u64
    ensures value { result ≡ min length limits.now.characters }
    ensures few { result ≤ limits.now.characters }
    ensures counted { limits.now.characters < 2 ^ 32 }
{
    length.min(limits.characters as u64)
}

/// A text of so many units, which stand where and as is said. At most one read for each 1,024 characters that are shown,
/// and one more.
fn read_text_front<P: ProcessMemory>(
    alloc: Global,
    process: &mut P,
    limits: &Limits,
    length: u64,
    characters: &Characters,
) -> Result<Repr, ObjectError>
    ensures { Reads object_fault (limits.now.characters / 1024 + 1) (P.seen process.old) (P.seen process.new)
        (λ m. text_front_at limits.now m length characters.now) (trees_found result) }
{
    let count = shown_length(length, limits);
    let width = width_of(characters.kind);
    let bytes = read_front(alloc, process, characters.at, count * width)?;
    let front = points_of(alloc, characters.kind, &bytes)?;
    Ok(Repr::Text {
        form: TextForm::Str,
        front,
        length,
    })
}

/// The same of what characters there may be.
fn read_text_with<P: ProcessMemory>(
    alloc: Global,
    process: &mut P,
    limits: &Limits,
    length: u64,
    characters: Option<Characters>,
) -> Result<Repr, ObjectError>
    ensures { Reads object_fault (limits.now.characters / 1024 + 1) (P.seen process.old) (P.seen process.new)
        (λ m. text_with limits.now m length characters) (trees_found result) }
{
    match characters {
        Some(characters) => read_text_front(alloc, process, limits, length, &characters),
        None => Err(ObjectError::NoText),
    }
}

/// The text at an address. At most one read for each 1,024 characters that are shown, and two more.
pub(crate) fn read_text<P: ProcessMemory>(
    alloc: Global,
    process: &mut P,
    layout: &Layout,
    limits: &Limits,
    addr: u64,
) -> Result<Repr, ObjectError>
    requires sound { IsSound layout.now }
    ensures { Reads object_fault (limits.now.characters / 1024 + 2) (P.seen process.old) (P.seen process.new)
        (λ m. text_tree_at layout.now limits.now m addr) (trees_found result) }
{
    let object = record(alloc, process, addr, layout.string.size as u64)?;
    let length = length_of(u64_in(&object, layout.string.length as usize))?;
    let characters = characters_of(layout, addr, &object);
    read_text_with(alloc, process, limits, length, characters)
}

/// So many bytes, which stand at an address. At most one read for each 1,024 that are shown, and one more.
fn read_bytes_front<P: ProcessMemory>(
    alloc: Global,
    process: &mut P,
    limits: &Limits,
    form: BytesForm,
    length: u64,
    at: u128,
) -> Result<Repr, ObjectError>
    ensures { Reads object_fault (limits.now.characters / 1024 + 1) (P.seen process.old) (P.seen process.new)
        (λ m. bytes_front_at limits.now form m length at) (trees_found result) }
{
    let count = shown_length(length, limits);
    let front = read_front(alloc, process, at, count)?;
    Ok(Repr::Bytes {
        form,
        front,
        length,
    })
}

fn bytes_form_of(layout: &Layout) -> BytesForm
    ensures { result ≡ bytes_form_of layout.now }
{
    if is_python_2(layout) {
        BytesForm::Str
    } else {
        BytesForm::Bytes
    }
}

/// The bytes object at an address. At most one read for each 1,024 that are shown, and two more.
pub(crate) fn read_bytes<P: ProcessMemory>(
    alloc: Global,
    process: &mut P,
    layout: &Layout,
    limits: &Limits,
    addr: u64,
) -> Result<Repr, ObjectError>
    requires sound { IsSound layout.now }
    ensures { Reads object_fault (limits.now.characters / 1024 + 2) (P.seen process.old) (P.seen process.new)
        (λ m. bytes_tree_at layout.now limits.now m addr) (trees_found result) }
{
    let object = record(alloc, process, addr, layout.bytes.size as u64)?;
    let length = length_of(u64_in(&object, layout.bytes.length as usize))?;
    let form = bytes_form_of(layout);
    let at = addr as u128 + layout.bytes.at as u128;
    read_bytes_front(alloc, process, limits, form, length, at)
}

/// The bytearray at an address. At most one read for each 1,024 bytes that are shown, and two more.
pub(crate) fn read_bytearray<P: ProcessMemory>(
    alloc: Global,
    process: &mut P,
    layout: &Layout,
    limits: &Limits,
    addr: u64,
) -> Result<Repr, ObjectError>
    ensures { Reads object_fault (limits.now.characters / 1024 + 2) (P.seen process.old) (P.seen process.new)
        (λ m. bytearray_at layout.now limits.now m addr) (trees_found result) }
{
    let place = addr as u128 + layout.list.count as u128;
    let fields = record_wide(alloc, process, place, 32)?;
    let length = length_of(u64_in(&fields, 0))?;
    let at = u64_in(&fields, 24) as u128;
    read_bytes_front(alloc, process, limits, BytesForm::ByteArray, length, at)
}

/// How the characters of a text are coded and where they stand, by its record.
#[tactic(auto, unfolding(py_builtins::specs::Texts::characters_of))]
fn characters_of(layout: &Layout, addr: u64, object: &[u8]) -> Option<Characters>
    requires sound { IsSound layout.now }
    requires whole { length object.now ≡ layout.now.string.size }
    ensures { result ≡ characters_of layout.now addr object.now }
{
    match layout.strings {
        Strings::State => state_characters(layout, addr, object),
        Strings::Bytes => Some(Characters {
            kind: TextKind::Utf8,
            at: addr as u128 + layout.string.short_at as u128,
        }),
    }
}

fn state_characters(layout: &Layout, addr: u64, object: &[u8]) -> Option<Characters>
    requires sound { IsSound layout.now }
    requires whole { length object.now ≡ layout.now.string.size }
    ensures { result ≡ characters_by layout.now.string addr object.now (state_at layout.now.string) }
{
    let at = state_at(&layout.string)?;
    let state = u32_in(object, at.state as usize);
    let kind = kind_in(&at, state)?;
    let at = place_in(&layout.string, &at, addr, object, state);
    Some(Characters { kind, at })
}

/// Where the state is, if the layout has all of it.
fn state_at(string: &StringAt) -> Option<StateAt>
    ensures { result ≡ state_at string.now }
{
    Some(StateAt {
        state: string.state?,
        pointer: string.pointer?,
        long_at: string.long_at?,
        kind_shift: string.kind_shift?,
        compact_bit: string.compact_bit?,
        ascii_bit: string.ascii_bit?,
    })
}

fn bit_is_set(number: u32, bit: u32) -> bool
    requires { bit < 32 }
    ensures { result ≡ bit_is_set number bit }
{
    number >> bit & 1 == 1
}

#[tactic(auto, unfolding(py_builtins::specs::Texts::kind_in))]
fn kind_in(at: &StateAt, state: u32) -> Option<TextKind>
    requires { (at.now.kind_shift < 32) × (at.now.ascii_bit < 32) }
    ensures { result ≡ kind_in at.now state }
{
    match (state >> at.kind_shift) % 8 {
        1 if bit_is_set(state, at.ascii_bit) => Some(TextKind::Utf8),
        1 => Some(TextKind::Latin1),
        2 => Some(TextKind::Utf16),
        4 => Some(TextKind::Utf32),
        _ => None,
    }
}

#[tactic(auto, unfolding(py_builtins::specs::Texts::place_in))]
fn place_in(string: &StringAt, at: &StateAt, addr: u64, object: &[u8], state: u32) -> u128
    requires bits { (at.now.compact_bit < 32) × (at.now.ascii_bit < 32) }
    requires pointer { at.now.pointer + 8 ≤ length object.now }
    ensures { result ≡ place_in string.now at.now addr object.now state }
{
    if !bit_is_set(state, at.compact_bit) {
        u64_in(object, at.pointer as usize) as u128
    } else if bit_is_set(state, at.ascii_bit) {
        addr as u128 + string.short_at as u128
    } else {
        addr as u128 + at.long_at as u128
    }
}
