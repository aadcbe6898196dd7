//! Values without others in them, but for numbers.
ghost use Rattle.std.specs.Prelude.{◌≡◌, ◌++◌, ◌<◌, IfOk, codes, false, map, string_bytes};
ghost use Rattle.std.specs.Fmt.{digits};
ghost use Rattle.serde_json.specs.View.{view};
ghost use Rattle.repr_json.specs.Leaves.{bytes_kind, bytes_tree, character_of, characters, damaged_tree, function_tree};
ghost use Rattle.repr_json.specs.Leaves.{hex_digit, hex_text, hex_tree, kind_tree, kind_word, lost_tree, name_tree};
ghost use Rattle.repr_json.specs.Leaves.{instance_tree, named_tree, opaque_tree, text_kind, text_tree, truth_tree};
ghost use Rattle.repr_json.specs.Leaves.{coroutine_tree, form_word, state_tree, state_word};

use crate::numbers::valued;
use elf64_core::Text;
use py_reprs::{BytesForm, CoroutineForm, CoroutineState, Kind, TextForm};
use serde_json::{Value, json};
use std::alloc::{AllocError, Global};

/// `0x` and hexadecimal digits.
fn hex(alloc: Global, number: u64) -> Result<String, AllocError>
    ensures { IfOk result (λ text. string_bytes text ≡ codes "0x" ++ digits 16 false number) }
{
    format!(in alloc; "0x{number:x}")
}

/// The same, as a value.
pub(crate) fn hex_value(alloc: Global, number: u64) -> Result<Value, AllocError>
    ensures { IfOk result (λ own. view own ≡ hex_tree number) }
{
    Ok(Value::String(hex(alloc, number)?))
}

/// A name, or null where it isn't known.
fn name_value(alloc: Global, name: &Option<Text>) -> Result<Value, AllocError>
    ensures { IfOk result (λ own. view own ≡ name_tree name.now) }
{
    match name {
        Some(name) => Value::try_from_str(alloc, name.as_str()),
        None => Ok(Value::Null),
    }
}

/// A kind that has one value alone.
pub(crate) fn kind_value(alloc: Global, kind: &str) -> Result<Value, AllocError>
    ensures { IfOk result (λ own. view own ≡ kind_tree kind.now) }
{
    json!(in alloc; {"kind": kind})
}

/// `True` or `False`.
pub(crate) fn truth_value(alloc: Global, truth: bool) -> Result<Value, AllocError>
    ensures { IfOk result (λ own. view own ≡ truth_tree truth) }
{
    valued(alloc, "bool", Value::Bool(truth))
}

/// A code point as a character: U+FFFD for one that is none.
fn character_of(point: u32) -> char
    ensures { result ≡ character_of point }
{
    match char::from_u32(point) {
        Some(c) => c,
        None => '\u{FFFD}',
    }
}

/// Code points as characters.
fn characters(alloc: Global, front: &[u32]) -> Result<String, AllocError>
    ensures { IfOk result (λ text. string_bytes text ≡ characters front.now) }
{
    let mut text = String::new(alloc);
    for point in front {
        text.push(character_of(*point))?;
    }
    Ok(text)
}

fn text_kind(form: TextForm) -> &'static str
    ensures { result.now ≡ text_kind form }
{
    match form {
        TextForm::Str => "str",
        TextForm::Unicode => "unicode",
    }
}

/// A text by its first characters.
pub(crate) fn text_value(
    alloc: Global,
    form: TextForm,
    front: &[u32],
    length: u64,
) -> Result<Value, AllocError>
    ensures { IfOk result (λ own. view own ≡ text_tree form front.now length) }
{
    let text = characters(alloc, front)?;
    let kind = text_kind(form);
    json!(in alloc; {
        "kind": kind,
        "length": length,
        "value": text
    })
}

fn bytes_kind(form: BytesForm) -> &'static str
    ensures { result.now ≡ bytes_kind form }
{
    match form {
        BytesForm::Bytes => "bytes",
        BytesForm::ByteArray => "bytearray",
        BytesForm::Str => "byte string",
    }
}

/// A hexadecimal digit, in lower case.
fn hex_digit(number: u8) -> u8
    requires { number < 16 }
    ensures { result ≡ hex_digit number }
{
    if number < 10 {
        b'0' + number
    } else {
        87 + number
    }
}

/// Bytes, each in two hexadecimal digits.
fn hex_text(alloc: Global, front: &[u8]) -> Result<String, AllocError>
    ensures { IfOk result (λ text. string_bytes text ≡ hex_text front.now) }
{
    let mut text = String::new(alloc);
    for byte in front {
        text.push(char::from(hex_digit(*byte / 16)))?;
        text.push(char::from(hex_digit(*byte % 16)))?;
    }
    Ok(text)
}

/// Bytes, by the first of them.
pub(crate) fn bytes_value(
    alloc: Global,
    form: BytesForm,
    front: &[u8],
    length: u64,
) -> Result<Value, AllocError>
    ensures { IfOk result (λ own. view own ≡ bytes_tree form front.now length) }
{
    let text = hex_text(alloc, front)?;
    let kind = bytes_kind(form);
    json!(in alloc; {
        "hex": text,
        "kind": kind,
        "length": length
    })
}

/// What has a name and stands at an address.
pub(crate) fn named_value(
    alloc: Global,
    kind: &str,
    name: &Option<Text>,
    addr: u64,
) -> Result<Value, AllocError>
    ensures { IfOk result (λ own. view own ≡ named_tree kind.now name.now addr) }
{
    let address = hex_value(alloc, addr)?;
    let name = name_value(alloc, name)?;
    json!(in alloc; {
        "address": address,
        "kind": kind,
        "name": name
    })
}

/// A function, with where its definition begins.
pub(crate) fn function_value(
    alloc: Global,
    name: &Option<Text>,
    file: &Option<Text>,
    line: u32,
    addr: u64,
) -> Result<Value, AllocError>
    ensures { IfOk result (λ own. view own ≡ function_tree name.now file.now line addr) }
{
    let address = hex_value(alloc, addr)?;
    let file = name_value(alloc, file)?;
    let name = name_value(alloc, name)?;
    json!(in alloc; {
        "address": address,
        "file": file,
        "kind": "function",
        "line": line,
        "name": name
    })
}

/// The word for what a coroutine is.
fn form_word(form: CoroutineForm) -> &'static str
    ensures { result.now ≡ form_word form }
{
    match form {
        CoroutineForm::Coroutine => "coroutine",
        CoroutineForm::Generator => "generator",
        CoroutineForm::AsyncGenerator => "async generator",
    }
}

/// The word for how far one has come.
fn state_word(state: CoroutineState) -> &'static str
    ensures { result.now ≡ state_word state }
{
    match state {
        CoroutineState::Created => "created",
        CoroutineState::Suspended => "suspended",
        CoroutineState::Running => "running",
        CoroutineState::Finished => "finished",
    }
}

/// How far one has come, or null where that isn't known.
fn state_value(alloc: Global, state: Option<CoroutineState>) -> Result<Value, AllocError>
    ensures { IfOk result (λ own. view own ≡ state_tree state) }
{
    match state {
        Some(state) => Value::try_from_str(alloc, state_word(state)),
        None => Ok(Value::Null),
    }
}

/// A coroutine, a generator or an async generator.
pub(crate) fn coroutine_value(
    alloc: Global,
    form: CoroutineForm,
    name: &Option<Text>,
    state: Option<CoroutineState>,
    addr: u64,
) -> Result<Value, AllocError>
    ensures { IfOk result (λ own. view own ≡ coroutine_tree form name.now state addr) }
{
    let address = hex_value(alloc, addr)?;
    let name = name_value(alloc, name)?;
    let state = state_value(alloc, state)?;
    let kind = form_word(form);
    json!(in alloc; {
        "address": address,
        "kind": kind,
        "name": name,
        "state": state
    })
}

/// An object of another type.
pub(crate) fn opaque_value(
    alloc: Global,
    class: &Option<Text>,
    addr: u64,
) -> Result<Value, AllocError>
    ensures { IfOk result (λ own. view own ≡ opaque_tree class.now addr) }
{
    let address = hex_value(alloc, addr)?;
    let class = name_value(alloc, class)?;
    json!(in alloc; {
        "address": address,
        "kind": "object",
        "type": class
    })
}

/// An instance by its attributes.
pub(crate) fn instance_value(
    alloc: Global,
    class: &Option<Text>,
    addr: u64,
    attributes: Vec<Value>,
    left_out: u64,
) -> Result<Value, AllocError>
    ensures { IfOk result (λ own. view own
        ≡ instance_tree class.now addr (map view attributes.items) left_out) }
{
    let address = hex_value(alloc, addr)?;
    let attributes = Value::Array(attributes);
    let class = name_value(alloc, class)?;
    json!(in alloc; {
        "address": address,
        "attributes": attributes,
        "kind": "instance",
        "more": left_out,
        "type": class
    })
}

/// The word for a kind.
fn kind_word(kind: Kind) -> &'static str
    ensures { result.now ≡ kind_word kind }
{
    match kind {
        Kind::Nothing => "none",
        Kind::Ellipsis => "ellipsis",
        Kind::NotImplemented => "not implemented",
        Kind::Truth => "bool",
        Kind::Integer => "int",
        Kind::SmallInteger => "int",
        Kind::Float => "float",
        Kind::Complex => "complex",
        Kind::Text => "str",
        Kind::Bytes => "bytes",
        Kind::ByteArray => "bytearray",
        Kind::List => "list",
        Kind::Tuple => "tuple",
        Kind::Dict => "dict",
        Kind::Set => "set",
        Kind::FrozenSet => "frozenset",
        Kind::Range => "range",
        Kind::Slice => "slice",
        Kind::Cell => "cell",
        Kind::Class => "class",
        Kind::Function => "function",
        Kind::Method => "method",
        Kind::Builtin => "builtin",
        Kind::Module => "module",
        Kind::Coroutine(form) => form_word(form),
        Kind::Other => "object",
    }
}

/// Bytes of a value that are not in memory.
pub(crate) fn lost_value(
    alloc: Global,
    kind: Kind,
    addr: u64,
    len: u64,
) -> Result<Value, AllocError>
    ensures { IfOk result (λ own. view own ≡ lost_tree kind addr len) }
{
    let address = hex_value(alloc, addr)?;
    let of = kind_word(kind);
    json!(in alloc; {
        "address": address,
        "kind": "unreadable",
        "length": len,
        "of": of
    })
}

/// A value whose record says what can't be.
pub(crate) fn damaged_value(alloc: Global, kind: Kind, addr: u64) -> Result<Value, AllocError>
    ensures { IfOk result (λ own. view own ≡ damaged_tree kind addr) }
{
    let address = hex_value(alloc, addr)?;
    let of = kind_word(kind);
    json!(in alloc; {
        "address": address,
        "kind": "damaged",
        "of": of
    })
}
