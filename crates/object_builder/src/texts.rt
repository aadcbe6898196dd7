//! Texts, as they are laid: of the least kind that has all of their characters.
ghost use Rattle.object_builder.specs.Room.{HasRoom};
ghost use Rattle.std.specs.Prelude.{drop, length, ◌≡◌, ◌≤◌, ◌<◌, ◌++◌, ◌+◌, IfOk, Option, encode_utf8_all};
ghost use Rattle.std.specs.Str.{chars};
ghost use Rattle.std.specs.List.{flat_map};
ghost use Rattle.py_builtins.specs.TextKind.{coded};
ghost use Rattle.py_builtins.specs.Texts.{state_at};
ghost use Rattle.py_fields.specs.Sound.{IsSound};
ghost use Rattle.object_builder.specs.Objects.{aligned};
ghost use Rattle.object_builder.specs.Texts.{AreBits, Suits, code_bytes, ReadsAsText, kind_for, least_kind, units_of};
ghost use Rattle.object_builder.specs.Texts.{state_of, state_by, start_of, klass_write, text_object};
ghost use Rattle.object_builder.specs.Texts.{IsBriefText};
ghost use Rattle.object_builder.specs.Writes.{write_of};

use crate::object::{Value, Write, add_object, optional_write};
use crate::sizes::{all_under, count_of, text_len};
use elf64_core::Text;
use py_builtins::{StateAt, TextKind};
use py_fields::{Layout, StringAt, Strings};
use std::alloc::{AllocError, Global};

/// The least kind of a text with a state.
fn least_kind(text: &str) -> TextKind
    ensures { result ≡ least_kind (chars text.now) }
{
    if all_under(0x80, text) {
        TextKind::Utf8
    } else if all_under(0x100, text) {
        TextKind::Latin1
    } else if all_under(0x1_0000, text) {
        TextKind::Utf16
    } else {
        TextKind::Utf32
    }
}

/// The kind that a text is laid in.
fn kind_for(strings: Strings, text: &Text) -> TextKind
    ensures { result ≡ kind_for strings text.now }
{
    match strings {
        Strings::State => least_kind(text.as_str()),
        Strings::Bytes => TextKind::Utf8,
    }
}

/// The characters of a text. The one error is out of memory.
fn characters(alloc: Global, text: &Text) -> Result<Vec<char>, AllocError>
    ensures { IfOk result (λ found. found.items ≡ text.now) }
{
    text.as_str().chars().collect(alloc)
}

/// The lowest bytes of the characters' codes. The one error is out of memory.
fn code_bytes(alloc: Global, width: usize, text: &Text) -> Result<Vec<u8>, AllocError>
    requires { width ≤ 4 }
    ensures { IfOk result (λ bytes. bytes.items ≡ flat_map (code_bytes width) text.now) }
{
    let chars = characters(alloc, text)?;
    let mut bytes = Vec::new(alloc);
    for c in &chars {
        let code = u32::from(*c).to_le_bytes();
        bytes.extend_from_slice(&code[..width])?;
    }
    Ok(bytes)
}

/// The bytes of a text in UTF-8. The one error is out of memory.
fn utf8_bytes(alloc: Global, text: &Text) -> Result<Vec<u8>, AllocError>
    ensures { IfOk result (λ bytes. bytes.items ≡ encode_utf8_all text.now) }
{
    let mut bytes = Vec::new(alloc);
    bytes.extend_from_slice(text.as_str().as_bytes())?;
    Ok(bytes)
}

/// The bytes of a text in a kind that has all of its characters. The one error is out of memory.
fn coded(alloc: Global, kind: TextKind, text: &Text) -> Result<Vec<u8>, AllocError>
    requires { Suits kind text.now }
    ensures { IfOk result (λ bytes. bytes.items ≡ coded kind text.now) }
{
    match kind {
        TextKind::Utf8 => utf8_bytes(alloc, text),
        TextKind::Latin1 => code_bytes(alloc, 1, text),
        TextKind::Utf16 => code_bytes(alloc, 2, text),
        TextKind::Utf32 => code_bytes(alloc, 4, text),
    }
}

/// How many units of a kind a text has.
fn units_of(kind: TextKind, text: &Text) -> u64
    ensures { result ≡ units_of kind text.now }
{
    match kind {
        TextKind::Utf8 => text.as_str().len() as u64,
        TextKind::Latin1 | TextKind::Utf16 | TextKind::Utf32 => count_of(text),
    }
}

/// Where a text's state says how it is stored, if the layout has all of that.
fn state_at(string: &StringAt) -> Option<StateAt>
    ensures { result ≡ state_at string.now }
{
    Some(StateAt {
        state: string.state?,
        pointer: string.pointer?,
        long_at: string.long_at?,
        kind_shift: string.kind_shift?,
        compact_bit: string.compact_bit?,
        ascii_bit: string.ascii_bit?,
    })
}

/// The state of a compact text.
#[tactic(auto, unfolding(crate::specs::Texts::state_of))]
fn state_of(at: &StateAt, kind: TextKind) -> u32
    requires { AreBits at.now }
    ensures { result ≡ state_of at.now kind }
{
    let compact = 1 << at.compact_bit;
    match kind {
        TextKind::Utf8 => 1 << at.kind_shift | compact | 1 << at.ascii_bit,
        TextKind::Latin1 => 1 << at.kind_shift | compact,
        TextKind::Utf16 => 1 << (at.kind_shift + 1) | compact,
        TextKind::Utf32 => 1 << (at.kind_shift + 2) | compact,
    }
}

/// The state of a text, or 0 where texts have none.
fn state_by(layout: &Layout, kind: TextKind) -> u32
    requires { IsSound layout.now }
    ensures { result ≡ state_by (state_at layout.now.string) kind }
{
    match state_at(&layout.string) {
        Some(at) => state_of(&at, kind),
        None => 0,
    }
}

/// Where the characters begin in the object.
fn start_of(string: &StringAt, kind: TextKind) -> u32
    ensures { result ≡ start_of string.now kind }
{
    match kind {
        TextKind::Utf8 => string.short_at,
        TextKind::Latin1 | TextKind::Utf16 | TextKind::Utf32 => string.long_at.unwrap_or(0),
    }
}

/// Where an object names its type, if it is a value.
fn klass_write(layout: &Layout, klass: Option<u64>) -> Write<'static>
    ensures { write_of result ≡ klass_write layout.now klass }
{
    match klass {
        Some(klass) => Write {
            at: layout.object.klass,
            value: Value::U64(klass),
        },
        None => Write {
            at: 0,
            value: Value::Bytes(&[]),
        },
    }
}

/// Adds the object of a text: one of a type where its address is given. It is of the least kind that has all
/// characters of the text, where texts have a state. Where a layout has room for the type, what was added is read as
/// the text, wherever it stands in memory. The one error is out of memory.
#[tactic(auto, unfolding(crate::specs::Texts::text_object))]
pub fn add_text(
    alloc: Global,
    out: &mut Vec<u8>,
    layout: &Layout,
    klass: Option<u64>,
    text: &Text,
) -> Result<(), AllocError>
    requires sound { IsSound layout.now }
    requires brief { IsBriefText text.now }
    ensures added { IfOk result (λ _. out.new.items ≡ out.old.items
        ++ aligned (text_object layout.now klass text.now)) }
    ensures reads { HasRoom layout.now → IfOk result
        (λ _. ReadsAsText layout.now text.now (drop (length out.old.items) out.new.items)) }
{
    let kind = kind_for(layout.strings, text);
    let bytes = coded(alloc, kind, text)?;
    let writes = [
        Write {
            at: layout.string.length,
            value: Value::U64(units_of(kind, text)),
        },
        optional_write(layout.string.state, Value::U32(state_by(layout, kind))),
        Write {
            at: start_of(&layout.string, kind),
            value: Value::Bytes(&bytes),
        },
        klass_write(layout, klass),
    ];
    add_object(out, text_len(layout, text) as usize, &writes)
}
