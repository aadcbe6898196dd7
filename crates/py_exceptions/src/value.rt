//! Values that exceptions have.
ghost use Rattle.std.specs.Prelude.{◌≡◌, IfOk};
ghost use Rattle.process_memory.specs.Seen.{Reads, Reading};
ghost use Rattle.py_fields.specs.Sound.{IsSound};
ghost use Rattle.py_builtins.specs.Consulted.{Consults};
ghost use Rattle.py_names.specs.NamesError.{names_fault};
ghost use Rattle.py_exceptions.specs.Values.{field_at, float_value_at, is_named, named_value_at, number_value};
ghost use Rattle.py_exceptions.specs.Values.{number_value_at, text_value_at, typed_value_at, value_at, value_told_at};

use crate::fault::{or_none, read_word};
use crate::name::class_name;
use elf64_core::Text;
use process_memory::{ProcessMemory, record, word_past};
use py_builtins::{ObjectError, ObjectType, copy_long, copy_string, read_type};
use py_fields::Layout;
use py_names::NamesError;
use std::alloc::Global;
use thread_exceptions::ExceptionsError;

/// The flags of types that are `int` or `str`, or derive from it: CPython's `Py_TPFLAGS_LONG_SUBCLASS` and
/// `Py_TPFLAGS_UNICODE_SUBCLASS`.
const PY_TPFLAGS_LONG_SUBCLASS: u64 = 16_777_216;

const PY_TPFLAGS_UNICODE_SUBCLASS: u64 = 268_435_456;

/// How many bytes of a type's name are read.
const NAME_LIMIT: u64 = 128;

/// A value that an exception has. What can't be read is told as none by an `Option` around it.
#[derive(Debug, Drop)]
pub enum Value {
    /// No object: the address is 0.
    Absent,
    /// A text of fewer than 4,096 characters.
    Text(Text),
    /// The text at this address, which states 4,096 characters and more.
    LongText { addr: u64 },
    /// An integer of at most 60 bits and its sign.
    Number(i64),
    /// A longer integer, at this address.
    LongNumber { addr: u64, is_negative: bool },
    /// `True` or `False`.
    Truth(bool),
    /// `None`.
    Nothing,
    /// A float, by the bits of its 8 bytes.
    Float { bits: u64 },
    /// Another object, and the name of its type as `tp_name` has it; none where that is no text.
    Other { addr: u64, class: Option<Text> },
}

/// Whether a name is this word.
fn is_named(word: &str, name: &Option<Text>) -> bool
    ensures { result ≡ is_named word.now name.now }
{
    match name {
        Some(name) => name.as_str() == word,
        None => false,
    }
}

/// The text at an address as a value. At most 2 reads.
#[tactic(auto, unfolding(crate::specs::Values::text_value_at))]
fn read_text_value<P: ProcessMemory>(
    alloc: Global,
    process: &mut P,
    layout: &Layout,
    addr: u64,
) -> Result<Option<Value>, NamesError>
    requires sound { IsSound layout.now }
    ensures { Consults layout.now names_fault 2 (P.seen process.old) (P.seen process.new)
        (λ m. text_value_at layout.now m addr) result }
{
    match copy_string(alloc, process, layout, addr) {
        Ok(text) => Ok(Some(Value::Text(text))),
        Err(ObjectError::TooLong { .. }) => Ok(Some(Value::LongText { addr })),
        Err(ObjectError::OutOfMemory) => Err(NamesError::OutOfMemory),
        Err(_) => Ok(None),
    }
}

/// An integer as a value: a number, or that of the digits of one that is too long, with its sign.
fn number_value(addr: u64, is_truth: bool, number: i64, is_long: bool) -> Value
    ensures { result ≡ number_value addr is_truth number is_long }
{
    if is_long {
        return Value::LongNumber {
            addr,
            is_negative: number < 0,
        };
    }
    if is_truth {
        return Value::Truth(number > 0);
    }
    Value::Number(number)
}

/// The integer at an address as a value. At most 2 reads.
fn read_number_value<P: ProcessMemory>(
    process: &mut P,
    layout: &Layout,
    is_truth: bool,
    addr: u64,
) -> Result<Option<Value>, NamesError>
    requires sound { IsSound layout.now }
    ensures { Reads names_fault 2 (P.seen process.old) (P.seen process.new)
        (λ m. number_value_at layout.now m is_truth addr) result }
{
    let (number, is_long) = copy_long(process, layout, addr)?;
    Ok(Some(number_value(addr, is_truth, number, is_long)))
}

/// The float at an address as a value. One read.
fn read_float_value<P: ProcessMemory>(
    process: &mut P,
    layout: &Layout,
    addr: u64,
) -> Result<Option<Value>, NamesError>
    ensures { Reads names_fault 1 (P.seen process.old) (P.seen process.new)
        (λ m. float_value_at layout.now m addr) result }
{
    let bits = word_past(process, addr, layout.float.value as u64)?;
    Ok(Some(Value::Float { bits }))
}

/// The object at an address as a value, by the flags and the name of its type. At most 2 reads.
fn read_named<P: ProcessMemory>(
    process: &mut P,
    layout: &Layout,
    flags: u64,
    name: Option<Text>,
    addr: u64,
) -> Result<Option<Value>, NamesError>
    requires sound { IsSound layout.now }
    ensures { Reads names_fault 2 (P.seen process.old) (P.seen process.new)
        (λ m. named_value_at layout.now m flags name addr) result }
{
    if flags / PY_TPFLAGS_LONG_SUBCLASS % 2 == 1 {
        let is_truth = is_named("bool", &name);
        return read_number_value(process, layout, is_truth, addr);
    }
    if is_named("float", &name) {
        return read_float_value(process, layout, addr);
    }
    if is_named("NoneType", &name) {
        return Ok(Some(Value::Nothing));
    }
    Ok(Some(Value::Other { addr, class: name }))
}

/// The object at an address as a value, by its type. At most 3 reads.
fn read_typed<P: ProcessMemory>(
    alloc: Global,
    process: &mut P,
    layout: &Layout,
    class: &ObjectType,
    addr: u64,
) -> Result<Option<Value>, NamesError>
    requires sound { IsSound layout.now }
    ensures { Reads names_fault 3 (P.seen process.old) (P.seen process.new)
        (λ m. typed_value_at layout.now m class.now addr) result }
{
    if class.flags / PY_TPFLAGS_UNICODE_SUBCLASS % 2 == 1 {
        return read_text_value(alloc, process, layout, addr);
    }
    let chars = record(alloc, process, class.name, NAME_LIMIT)?;
    let name = class_name(alloc, &chars)?;
    read_named(process, layout, class.flags, name, addr)
}

/// The object at an address as a value. At most 5 reads.
fn read_object<P: ProcessMemory>(
    alloc: Global,
    process: &mut P,
    layout: &Layout,
    addr: u64,
) -> Result<Option<Value>, NamesError>
    requires sound { IsSound layout.now }
    ensures { Reads names_fault 5 (P.seen process.old) (P.seen process.new)
        (λ m. value_at layout.now m addr) result }
{
    let class = read_type(alloc, process, layout, addr)?;
    read_typed(alloc, process, layout, &class, addr)
}

/// The value at an address; none where it can't be read. At most 5 reads.
pub(crate) fn read_value<P: ProcessMemory>(
    alloc: Global,
    process: &mut P,
    layout: &Layout,
    addr: u64,
) -> Result<Option<Value>, ExceptionsError>
    requires sound { IsSound layout.now }
    ensures { Reading 5 (P.seen process.old) (P.seen process.new)
        (λ m. IfOk result (λ value. value ≡ value_told_at layout.now m addr)) }
{
    if addr == 0 {
        return Ok(Some(Value::Absent));
    }
    or_none(read_object(alloc, process, layout, addr))
}

/// The value that a record names at a place; none where it can't be read. At most 6 reads.
pub(crate) fn read_field<P: ProcessMemory>(
    alloc: Global,
    process: &mut P,
    layout: &Layout,
    at: u64,
    place: u32,
) -> Result<Option<Value>, ExceptionsError>
    requires sound { IsSound layout.now }
    ensures { Reading 6 (P.seen process.old) (P.seen process.new)
        (λ m. IfOk result (λ value. value ≡ field_at layout.now m at place)) }
{
    let word = read_word(process, at, place)?;
    match word {
        None => Ok(None),
        Some(addr) => read_value(alloc, process, layout, addr),
    }
}
