//! What an exception says, as `str` gives it.
ghost use Rattle.std.specs.Prelude.{◌≡◌, ◌++◌, OnOk, string_bytes};
ghost use Rattle.thread_exceptions.specs.Groups.{members_of};
ghost use Rattle.exception_texts.specs.Said.{behind_file, count_text, file_text, group_text, has_value};
ghost use Rattle.exception_texts.specs.Said.{import_text, is_number, is_text, key_text, line_alone, line_text};
ghost use Rattle.exception_texts.specs.Said.{members_text, message_text, number_text, one_text, place_text, plain_said};
ghost use Rattle.exception_texts.specs.Said.{decode_text, encode_text, translate_text};
ghost use Rattle.exception_texts.specs.Said.{second_text, syntax_text, system_file, system_lead, with_file};
ghost use Rattle.exception_texts.specs.Said.{without_file};

use crate::unicode::{Deed, coded_shown, data_shown, push_unicode};
use crate::values::{push_arguments, push_repr, push_str_of, push_tuple};
use py_exceptions::{InvalidData, Rule, Said, Value, Values};
use std::alloc::{AllocError, Global};
use thread_exceptions::Members;

/// Whether a field has a value: what can't be read may have one.
pub(crate) fn has_value(value: &Option<Value>) -> bool
    ensures { result ≡ has_value value.now }
{
    match value {
        Some(Value::Absent) => false,
        Some(Value::Nothing) => true,
        Some(Value::Text(_)) => true,
        Some(Value::LongText { .. }) => true,
        Some(Value::Number(_)) => true,
        Some(Value::LongNumber { .. }) => true,
        Some(Value::Truth(_)) => true,
        Some(Value::Float { .. }) => true,
        Some(Value::Other { .. }) => true,
        None => true,
    }
}

/// Whether a field is a text.
pub(crate) fn is_text(value: &Option<Value>) -> bool
    ensures { result ≡ is_text value.now }
{
    match value {
        Some(Value::Text(_)) => true,
        Some(Value::LongText { .. }) => true,
        Some(Value::Absent) => false,
        Some(Value::Nothing) => false,
        Some(Value::Number(_)) => false,
        Some(Value::LongNumber { .. }) => false,
        Some(Value::Truth(_)) => false,
        Some(Value::Float { .. }) => false,
        Some(Value::Other { .. }) => false,
        None => false,
    }
}

/// Whether a field is a number.
pub(crate) fn is_number(value: &Option<Value>) -> bool
    ensures { result ≡ is_number value.now }
{
    match value {
        Some(Value::Number(_)) => true,
        Some(Value::LongNumber { .. }) => true,
        Some(Value::Text(_)) => false,
        Some(Value::LongText { .. }) => false,
        Some(Value::Absent) => false,
        Some(Value::Nothing) => false,
        Some(Value::Truth(_)) => false,
        Some(Value::Float { .. }) => false,
        Some(Value::Other { .. }) => false,
        None => false,
    }
}

/// What is said by arguments: nothing by none, one by itself, more in parentheses.
fn push_by_count(
    alloc: Global,
    text: &mut String,
    is_raw: bool,
    values: &Values,
) -> Result<(), AllocError>
    ensures { OnOk result (string_bytes text.new ≡ string_bytes text.old ++ count_text is_raw values.now) }
{
    let items: &[Option<Value>] = &values.values;
    match items {
        [] => Ok(()),
        [only] => push_str_of(alloc, text, is_raw, only),
        [_, _, ..] => push_tuple(alloc, text, is_raw, values),
    }
}

/// `BaseException`'s rule.
fn push_plain_said(
    alloc: Global,
    text: &mut String,
    is_raw: bool,
    arguments: &Option<Values>,
) -> Result<(), AllocError>
    ensures { OnOk result (string_bytes text.new ≡ string_bytes text.old ++ plain_said is_raw arguments.now) }
{
    match arguments {
        Some(values) => push_by_count(alloc, text, is_raw, values),
        None => text.push_str("?"),
    }
}

/// What is said by a key, or by other arguments.
fn push_one(
    alloc: Global,
    text: &mut String,
    is_raw: bool,
    values: &Values,
) -> Result<(), AllocError>
    ensures { OnOk result (string_bytes text.new ≡ string_bytes text.old ++ one_text is_raw values.now) }
{
    let items: &[Option<Value>] = &values.values;
    match items {
        [] => Ok(()),
        [only] => push_repr(alloc, text, is_raw, only),
        [_, _, ..] => push_tuple(alloc, text, is_raw, values),
    }
}

/// `KeyError`'s rule.
fn push_key(
    alloc: Global,
    text: &mut String,
    is_raw: bool,
    arguments: &Option<Values>,
) -> Result<(), AllocError>
    ensures { OnOk result (string_bytes text.new ≡ string_bytes text.old ++ key_text is_raw arguments.now) }
{
    match arguments {
        Some(values) => push_one(alloc, text, is_raw, values),
        None => text.push_str("?"),
    }
}

/// The number and the text of an error of the system.
fn push_system_lead(
    alloc: Global,
    text: &mut String,
    is_raw: bool,
    errno: &Option<Value>,
    said: &Option<Value>,
) -> Result<(), AllocError>
    ensures { OnOk result (string_bytes text.new ≡ string_bytes text.old ++ system_lead is_raw errno.now said.now) }
{
    text.push_str("[Errno ")?;
    push_str_of(alloc, text, is_raw, errno)?;
    text.push_str("] ")?;
    push_str_of(alloc, text, is_raw, said)
}

/// The second file of an error of the system, where there is one.
fn push_second(
    alloc: Global,
    text: &mut String,
    is_raw: bool,
    second: &Option<Value>,
) -> Result<(), AllocError>
    ensures { OnOk result (string_bytes text.new ≡ string_bytes text.old ++ second_text is_raw second.now) }
{
    if has_value(second) {
        text.push_str(" -> ")?;
        return push_repr(alloc, text, is_raw, second);
    }
    Ok(())
}

/// The files of an error of the system.
fn push_system_file(
    alloc: Global,
    text: &mut String,
    is_raw: bool,
    file: &Option<Value>,
    second: &Option<Value>,
) -> Result<(), AllocError>
    ensures { OnOk result (string_bytes text.new ≡ string_bytes text.old ++ system_file is_raw file.now second.now) }
{
    text.push_str(": ")?;
    push_repr(alloc, text, is_raw, file)?;
    push_second(alloc, text, is_raw, second)
}

/// What a file's name says of a place in a source.
fn push_place(
    alloc: Global,
    text: &mut String,
    is_raw: bool,
    file: &Option<Value>,
) -> Result<(), AllocError>
    ensures { OnOk result (string_bytes text.new ≡ string_bytes text.old ++ file_text is_raw file.now) }
{
    push_str_of(alloc, text, is_raw, file)
}

/// The line of a place in a source.
fn push_line(
    alloc: Global,
    text: &mut String,
    is_raw: bool,
    line: &Option<Value>,
) -> Result<(), AllocError>
    ensures { OnOk result (string_bytes text.new ≡ string_bytes text.old ++ line_text is_raw line.now) }
{
    text.push_str("line ")?;
    push_str_of(alloc, text, is_raw, line)
}

/// The place that a `SyntaxError` names: its file and its line, where there are any.
fn push_syntax_place(
    alloc: Global,
    text: &mut String,
    is_raw: bool,
    file: &Option<Value>,
    line: &Option<Value>,
) -> Result<(), AllocError>
    ensures { OnOk result (string_bytes text.new ≡ string_bytes text.old ++ place_text is_raw file.now line.now) }
{
    if is_text(file) {
        text.push_str(" (")?;
        push_place(alloc, text, is_raw, file)?;
        push_behind_file(alloc, text, is_raw, line)?;
        return text.push_str(")");
    }
    push_line_alone(alloc, text, is_raw, line)
}

/// The line of a place behind its file.
fn push_behind_file(
    alloc: Global,
    text: &mut String,
    is_raw: bool,
    line: &Option<Value>,
) -> Result<(), AllocError>
    ensures { OnOk result (string_bytes text.new ≡ string_bytes text.old ++ behind_file is_raw line.now) }
{
    if is_number(line) {
        text.push_str(", ")?;
        return push_line(alloc, text, is_raw, line);
    }
    Ok(())
}

/// The line of a place whose file is not known.
fn push_line_alone(
    alloc: Global,
    text: &mut String,
    is_raw: bool,
    line: &Option<Value>,
) -> Result<(), AllocError>
    ensures { OnOk result (string_bytes text.new ≡ string_bytes text.old ++ line_alone is_raw line.now) }
{
    if is_number(line) {
        text.push_str(" (")?;
        push_line(alloc, text, is_raw, line)?;
        return text.push_str(")");
    }
    Ok(())
}

/// `SyntaxError`'s rule.
fn push_syntax(
    alloc: Global,
    text: &mut String,
    is_raw: bool,
    said: &Option<Value>,
    file: &Option<Value>,
    line: &Option<Value>,
) -> Result<(), AllocError>
    ensures { OnOk result (string_bytes text.new
        ≡ string_bytes text.old ++ syntax_text is_raw said.now file.now line.now) }
{
    push_str_of(alloc, text, is_raw, said)?;
    push_syntax_place(alloc, text, is_raw, file, line)
}

/// The same of one without a file.
fn push_without_file(
    alloc: Global,
    text: &mut String,
    is_raw: bool,
    errno: &Option<Value>,
    said: &Option<Value>,
    arguments: &Option<Values>,
) -> Result<(), AllocError>
    ensures { OnOk result (string_bytes text.new
        ≡ string_bytes text.old ++ without_file is_raw errno.now said.now arguments.now) }
{
    if has_value(errno) && has_value(said) {
        return push_system_lead(alloc, text, is_raw, errno, said);
    }
    push_plain_said(alloc, text, is_raw, arguments)
}

/// The same of one with a file.
fn push_with_file(
    alloc: Global,
    text: &mut String,
    is_raw: bool,
    errno: &Option<Value>,
    said: &Option<Value>,
    file: &Option<Value>,
    second: &Option<Value>,
) -> Result<(), AllocError>
    ensures { OnOk result (string_bytes text.new
        ≡ string_bytes text.old ++ with_file is_raw errno.now said.now file.now second.now) }
{
    push_system_lead(alloc, text, is_raw, errno, said)?;
    push_system_file(alloc, text, is_raw, file, second)
}

/// `ImportError`'s rule.
fn push_import(
    alloc: Global,
    text: &mut String,
    is_raw: bool,
    said: &Option<Value>,
    arguments: &Option<Values>,
) -> Result<(), AllocError>
    ensures { OnOk result (string_bytes text.new
        ≡ string_bytes text.old ++ import_text is_raw said.now arguments.now) }
{
    if is_text(said) {
        return push_str_of(alloc, text, is_raw, said);
    }
    push_plain_said(alloc, text, is_raw, arguments)
}

/// How many members a group has, as its text says it.
fn push_count(text: &mut String, members: &Members) -> Result<(), AllocError>
    ensures { OnOk result (string_bytes text.new ≡ string_bytes text.old ++ members_text (members_of members.now)) }
{
    match members {
        Members::Group(group) => push_number(text, group.members.len() as u64, group.left_out),
        Members::NoGroup => text.push_str(" (? sub-exceptions)"),
        Members::Unreadable(_) => text.push_str(" (? sub-exceptions)"),
    }
}

/// So many members, and so many more.
fn push_number(text: &mut String, told: u64, left_out: u64) -> Result<(), AllocError>
    ensures { OnOk result (string_bytes text.new ≡ string_bytes text.old ++ number_text told left_out) }
{
    let count = told as u128 + left_out as u128;
    if count == 1 {
        return text.push_str(" (1 sub-exception)");
    }
    write!(text, " ({count} sub-exceptions)")
}

/// A group's rule.
fn push_group(
    alloc: Global,
    text: &mut String,
    is_raw: bool,
    said: &Option<Value>,
    members: &Members,
) -> Result<(), AllocError>
    ensures { OnOk result (string_bytes text.new
        ≡ string_bytes text.old ++ group_text is_raw said.now (members_of members.now)) }
{
    push_str_of(alloc, text, is_raw, said)?;
    push_count(text, members)
}

/// `UnicodeEncodeError`'s rule.
fn push_encode(
    alloc: Global,
    text: &mut String,
    is_raw: bool,
    encoding: &Option<Value>,
    invalid: &InvalidData,
    arguments: &Option<Values>,
) -> Result<(), AllocError>
    ensures { OnOk result (string_bytes text.new
        ≡ string_bytes text.old ++ encode_text is_raw encoding.now invalid.now arguments.now) }
{
    let shown = coded_shown(encoding, invalid);
    push_unicode(
        alloc,
        text,
        Deed::Encode,
        is_raw,
        encoding,
        invalid,
        arguments,
        shown,
    )
}

/// `UnicodeDecodeError`'s rule.
fn push_decode(
    alloc: Global,
    text: &mut String,
    is_raw: bool,
    encoding: &Option<Value>,
    invalid: &InvalidData,
    arguments: &Option<Values>,
) -> Result<(), AllocError>
    ensures { OnOk result (string_bytes text.new
        ≡ string_bytes text.old ++ decode_text is_raw encoding.now invalid.now arguments.now) }
{
    let shown = coded_shown(encoding, invalid);
    push_unicode(
        alloc,
        text,
        Deed::Decode,
        is_raw,
        encoding,
        invalid,
        arguments,
        shown,
    )
}

/// `UnicodeTranslateError`'s rule.
fn push_translate(
    alloc: Global,
    text: &mut String,
    is_raw: bool,
    invalid: &InvalidData,
    arguments: &Option<Values>,
) -> Result<(), AllocError>
    ensures { OnOk result (string_bytes text.new
        ≡ string_bytes text.old ++ translate_text is_raw invalid.now arguments.now) }
{
    let shown = data_shown(invalid);
    push_unicode(
        alloc,
        text,
        Deed::Translate,
        is_raw,
        &None,
        invalid,
        arguments,
        shown,
    )
}

/// What an exception says. Where that can't be told, its arguments, in parentheses.
pub(crate) fn push_message(
    alloc: Global,
    text: &mut String,
    is_raw: bool,
    said: &Said,
    members: &Members,
) -> Result<(), AllocError>
    ensures { OnOk result (string_bytes text.new
        ≡ string_bytes text.old ++ message_text is_raw said.now (members_of members.now)) }
{
    let arguments = &said.arguments;
    match &said.rule {
        Rule::Plain => push_plain_said(alloc, text, is_raw, arguments),
        Rule::Key => push_key(alloc, text, is_raw, arguments),
        Rule::System {
            errno,
            text: own,
            file,
            second,
        } => {
            if has_value(file) {
                return push_with_file(alloc, text, is_raw, errno, own, file, second);
            }
            push_without_file(alloc, text, is_raw, errno, own, arguments)
        }
        Rule::Import { text: own } => push_import(alloc, text, is_raw, own, arguments),
        Rule::Syntax {
            text: own,
            file,
            line,
        } => push_syntax(alloc, text, is_raw, own, file, line),
        Rule::Group { text: own } => push_group(alloc, text, is_raw, own, members),
        Rule::Encode { encoding, invalid } => {
            push_encode(alloc, text, is_raw, encoding, invalid, arguments)
        }
        Rule::Decode { encoding, invalid } => {
            push_decode(alloc, text, is_raw, encoding, invalid, arguments)
        }
        Rule::Translate { invalid } => push_translate(alloc, text, is_raw, invalid, arguments),
        Rule::Own { .. } => push_arguments(alloc, text, is_raw, arguments),
        Rule::Unreadable => push_arguments(alloc, text, is_raw, arguments),
    }
}
