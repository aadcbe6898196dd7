//! Values that an exception has, within a line.
ghost use Rattle.std.specs.Prelude.{◌≡◌, ◌++◌, OnOk, string_bytes};
ghost use Rattle.exception_texts.specs.Values.{arguments_text, at_text, class_text, name_text, own_name_text};
ghost use Rattle.exception_texts.specs.Values.{plain_text, quoted_text};
ghost use Rattle.exception_texts.specs.Values.{repr_text, rest_text, str_text, truth_text, tuple_text, values_text};
ghost use Rattle.exception_texts.specs.Values.{known_repr, known_str, left_out_text, long_text, next_text};

use elf64_core::Text;
use py_exceptions::{Value, Values};
use salvage_texts::push_escaped;
use std::alloc::{AllocError, Global};

/// A text: as it is, or escaped within a line.
pub(crate) fn push_plain(
    alloc: Global,
    text: &mut String,
    is_raw: bool,
    shown: &Text,
) -> Result<(), AllocError>
    ensures { OnOk result (string_bytes text.new ≡ string_bytes text.old ++ plain_text is_raw shown.now) }
{
    if is_raw {
        return text.push_str(shown.as_str());
    }
    push_escaped(alloc, text, false, shown)
}

/// A name: as it is, or escaped within a line with its quotes and backslashes.
fn push_own_name(
    alloc: Global,
    text: &mut String,
    is_raw: bool,
    shown: &Text,
) -> Result<(), AllocError>
    ensures { OnOk result (string_bytes text.new ≡ string_bytes text.old ++ own_name_text is_raw shown.now) }
{
    if is_raw {
        return text.push_str(shown.as_str());
    }
    push_escaped(alloc, text, true, shown)
}

/// A text as it stands in code.
fn push_quoted(
    alloc: Global,
    text: &mut String,
    is_raw: bool,
    shown: &Text,
) -> Result<(), AllocError>
    ensures { OnOk result (string_bytes text.new ≡ string_bytes text.old ++ quoted_text is_raw shown.now) }
{
    text.push_str("'")?;
    push_own_name(alloc, text, is_raw, shown)?;
    text.push_str("'")
}

/// What stands at an address.
fn push_at(text: &mut String, addr: u64) -> Result<(), AllocError>
    ensures { OnOk result (string_bytes text.new ≡ string_bytes text.old ++ at_text addr) }
{
    write!(text, " at 0x{addr:x}>")
}

/// A name, or a question mark where there is none.
pub(crate) fn push_name(
    alloc: Global,
    text: &mut String,
    name: &Option<Text>,
) -> Result<(), AllocError>
    ensures { OnOk result (string_bytes text.new ≡ string_bytes text.old ++ name_text name.now) }
{
    match name {
        Some(name) => push_escaped(alloc, text, true, name),
        None => text.push_str("?"),
    }
}

/// An object of a type.
fn push_class(
    alloc: Global,
    text: &mut String,
    class: &Option<Text>,
    addr: u64,
) -> Result<(), AllocError>
    ensures { OnOk result (string_bytes text.new ≡ string_bytes text.old ++ class_text class.now addr) }
{
    text.push_str("<")?;
    push_name(alloc, text, class)?;
    push_at(text, addr)
}

fn push_truth(text: &mut String, truth: bool) -> Result<(), AllocError>
    ensures { OnOk result (string_bytes text.new ≡ string_bytes text.old ++ truth_text truth) }
{
    if truth {
        return text.push_str("True");
    }
    text.push_str("False")
}

/// What is too long to be told.
fn push_long(text: &mut String, what: &str, addr: u64) -> Result<(), AllocError>
    ensures { OnOk result (string_bytes text.new ≡ string_bytes text.old ++ long_text what.now addr) }
{
    text.push_str(what)?;
    push_at(text, addr)
}

/// A value as code has it.
fn push_known_repr(
    alloc: Global,
    text: &mut String,
    is_raw: bool,
    value: &Value,
) -> Result<(), AllocError>
    ensures { OnOk result (string_bytes text.new ≡ string_bytes text.old ++ known_repr is_raw value.now) }
{
    match value {
        Value::Absent => text.push_str("None"),
        Value::Nothing => text.push_str("None"),
        Value::Text(shown) => push_quoted(alloc, text, is_raw, shown),
        Value::LongText { addr } => push_long(text, "<a long text", *addr),
        Value::Number(number) => write!(text, "{number}"),
        Value::LongNumber { addr, .. } => push_long(text, "<a long number", *addr),
        Value::Truth(truth) => push_truth(text, *truth),
        Value::Float { .. } => text.push_str("<a float>"),
        Value::Other { addr, class } => push_class(alloc, text, class, *addr),
    }
}

/// A value as code has it, or a question mark where it can't be read.
pub(crate) fn push_repr(
    alloc: Global,
    text: &mut String,
    is_raw: bool,
    value: &Option<Value>,
) -> Result<(), AllocError>
    ensures { OnOk result (string_bytes text.new ≡ string_bytes text.old ++ repr_text is_raw value.now) }
{
    match value {
        Some(value) => push_known_repr(alloc, text, is_raw, value),
        None => text.push_str("?"),
    }
}

/// A value as it is printed.
fn push_known_str(
    alloc: Global,
    text: &mut String,
    is_raw: bool,
    value: &Value,
) -> Result<(), AllocError>
    ensures { OnOk result (string_bytes text.new ≡ string_bytes text.old ++ known_str is_raw value.now) }
{
    match value {
        Value::Text(shown) => push_plain(alloc, text, is_raw, shown),
        Value::Absent => push_known_repr(alloc, text, is_raw, value),
        Value::Nothing => push_known_repr(alloc, text, is_raw, value),
        Value::LongText { .. } => push_known_repr(alloc, text, is_raw, value),
        Value::Number(_) => push_known_repr(alloc, text, is_raw, value),
        Value::LongNumber { .. } => push_known_repr(alloc, text, is_raw, value),
        Value::Truth(_) => push_known_repr(alloc, text, is_raw, value),
        Value::Float { .. } => push_known_repr(alloc, text, is_raw, value),
        Value::Other { .. } => push_known_repr(alloc, text, is_raw, value),
    }
}

/// A value as it is printed, or a question mark where it can't be read.
pub(crate) fn push_str_of(
    alloc: Global,
    text: &mut String,
    is_raw: bool,
    value: &Option<Value>,
) -> Result<(), AllocError>
    ensures { OnOk result (string_bytes text.new ≡ string_bytes text.old ++ str_text is_raw value.now) }
{
    match value {
        Some(value) => push_known_str(alloc, text, is_raw, value),
        None => text.push_str("?"),
    }
}

/// A value behind a comma.
fn push_next(
    alloc: Global,
    text: &mut String,
    is_raw: bool,
    value: &Option<Value>,
) -> Result<(), AllocError>
    ensures { OnOk result (string_bytes text.new ≡ string_bytes text.old ++ next_text is_raw value.now) }
{
    text.push_str(", ")?;
    push_repr(alloc, text, is_raw, value)
}

/// Values, each behind a comma.
fn push_rest(
    alloc: Global,
    text: &mut String,
    is_raw: bool,
    values: &[Option<Value>],
) -> Result<(), AllocError>
    ensures { OnOk result (string_bytes text.new ≡ string_bytes text.old ++ rest_text is_raw values.now) }
{
    for value in values {
        push_next(alloc, text, is_raw, value)?;
    }
    Ok(())
}

/// Values with commas between them.
fn push_values(
    alloc: Global,
    text: &mut String,
    is_raw: bool,
    values: &[Option<Value>],
) -> Result<(), AllocError>
    ensures { OnOk result (string_bytes text.new ≡ string_bytes text.old ++ values_text is_raw values.now) }
{
    match values {
        [] => Ok(()),
        [first, rest @ ..] => {
            push_repr(alloc, text, is_raw, first)?;
            push_rest(alloc, text, is_raw, rest)
        }
    }
}

/// How many values are left out, where any are.
fn push_left_out(text: &mut String, left_out: u64) -> Result<(), AllocError>
    ensures { OnOk result (string_bytes text.new ≡ string_bytes text.old ++ left_out_text left_out) }
{
    if left_out == 0 {
        return Ok(());
    }
    write!(text, ", and {left_out} more")
}

/// Values in parentheses.
pub(crate) fn push_tuple(
    alloc: Global,
    text: &mut String,
    is_raw: bool,
    values: &Values,
) -> Result<(), AllocError>
    ensures { OnOk result (string_bytes text.new ≡ string_bytes text.old ++ tuple_text is_raw values.now) }
{
    text.push_str("(")?;
    push_values(alloc, text, is_raw, &values.values)?;
    push_left_out(text, values.left_out)?;
    text.push_str(")")
}

/// The arguments in parentheses, or a question mark where they can't be read.
pub(crate) fn push_arguments(
    alloc: Global,
    text: &mut String,
    is_raw: bool,
    arguments: &Option<Values>,
) -> Result<(), AllocError>
    ensures { OnOk result (string_bytes text.new ≡ string_bytes text.old ++ arguments_text is_raw arguments.now) }
{
    match arguments {
        Some(values) => push_tuple(alloc, text, is_raw, values),
        None => text.push_str("?"),
    }
}
