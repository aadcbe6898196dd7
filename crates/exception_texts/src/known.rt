//! Whether what an exception says is told exactly as Python's `str` does.
ghost use Rattle.std.specs.Prelude.{◌≡◌};
ghost use Rattle.thread_exceptions.specs.Groups.{members_of};
ghost use Rattle.exception_texts.specs.Known.{all_repr, has_members, has_special, import_known, is_plain, is_special};
ghost use Rattle.exception_texts.specs.Known.{key_known};
ghost use Rattle.exception_texts.specs.Known.{key_values, knows, plain_known, plain_values, repr_known, str_known};
ghost use Rattle.exception_texts.specs.Known.{syntax_known, system_known, tuple_known, with_file_known};
ghost use Rattle.exception_texts.specs.Known.{without_file_known};

use crate::said::{has_value, is_number, is_text};
use crate::unicode::{coded_shown, data_shown, is_known};
use elf64_core::Text;
use py_exceptions::{Rule, Said, Value, Values};
use thread_exceptions::Members;

/// Whether a byte stands otherwise in code than by itself, or may.
fn is_special(byte: u8) -> bool
    ensures { result ≡ is_special byte }
{
    byte < 32 || byte >= 127 || byte == b'"' || byte == b'\'' || byte == b'\\'
}

/// Whether any of some bytes does.
fn has_special(bytes: &[u8]) -> bool
    ensures { result ≡ has_special bytes.now }
{
    bytes.iter().any(|byte| is_special(*byte))
}

/// Whether a text stands by itself in code, but for the quotes around it.
fn is_plain(text: &Text) -> bool
    ensures { result ≡ is_plain text.now }
{
    !has_special(text.as_str().as_bytes())
}

/// Whether a value is told exactly as it is printed.
fn str_known(value: &Option<Value>) -> bool
    ensures { result ≡ str_known value.now }
{
    match value {
        Some(Value::Absent) => true,
        Some(Value::Nothing) => true,
        Some(Value::Text(_)) => true,
        Some(Value::Number(_)) => true,
        Some(Value::Truth(_)) => true,
        Some(Value::LongText { .. }) => false,
        Some(Value::LongNumber { .. }) => false,
        Some(Value::Float { .. }) => false,
        Some(Value::Other { .. }) => false,
        None => false,
    }
}

/// Whether a value is told exactly as code has it.
fn repr_known(value: &Option<Value>) -> bool
    ensures { result ≡ repr_known value.now }
{
    match value {
        Some(Value::Absent) => true,
        Some(Value::Nothing) => true,
        Some(Value::Text(text)) => is_plain(text),
        Some(Value::Number(_)) => true,
        Some(Value::Truth(_)) => true,
        Some(Value::LongText { .. }) => false,
        Some(Value::LongNumber { .. }) => false,
        Some(Value::Float { .. }) => false,
        Some(Value::Other { .. }) => false,
        None => false,
    }
}

/// Whether each of some values is.
fn all_repr(values: &[Option<Value>]) -> bool
    ensures { result ≡ all_repr values.now }
{
    values.iter().all(|value| repr_known(value))
}

/// Whether a tuple is.
fn tuple_known(values: &Values) -> bool
    ensures { result ≡ tuple_known values.now }
{
    values.left_out == 0 && all_repr(&values.values)
}

/// Whether what arguments say is told exactly.
fn plain_values(values: &Values) -> bool
    ensures { result ≡ plain_values values.now }
{
    let items: &[Option<Value>] = &values.values;
    match items {
        [] => true,
        [only] => str_known(only),
        [_, _, ..] => tuple_known(values),
    }
}

/// The same, by `BaseException`'s rule.
fn plain_known(arguments: &Option<Values>) -> bool
    ensures { result ≡ plain_known arguments.now }
{
    match arguments {
        Some(values) => plain_values(values),
        None => false,
    }
}

/// Whether what a key says is told exactly.
fn key_values(values: &Values) -> bool
    ensures { result ≡ key_values values.now }
{
    let items: &[Option<Value>] = &values.values;
    match items {
        [] => true,
        [only] => repr_known(only),
        [_, _, ..] => tuple_known(values),
    }
}

/// The same, by `KeyError`'s rule.
fn key_known(arguments: &Option<Values>) -> bool
    ensures { result ≡ key_known arguments.now }
{
    match arguments {
        Some(values) => key_values(values),
        None => false,
    }
}

/// The same of an error of the system without a file.
fn without_file_known(
    errno: &Option<Value>,
    said: &Option<Value>,
    arguments: &Option<Values>,
) -> bool
    ensures { result ≡ without_file_known errno.now said.now arguments.now }
{
    if has_value(errno) && has_value(said) {
        return str_known(errno) && str_known(said);
    }
    plain_known(arguments)
}

/// The same of one with a file.
fn with_file_known(
    errno: &Option<Value>,
    said: &Option<Value>,
    file: &Option<Value>,
    second: &Option<Value>,
) -> bool
    ensures { result ≡ with_file_known errno.now said.now file.now second.now }
{
    str_known(errno) && str_known(said) && repr_known(file) && repr_known(second)
}

/// The same by `OSError`'s rule.
fn system_known(
    errno: &Option<Value>,
    said: &Option<Value>,
    file: &Option<Value>,
    second: &Option<Value>,
    arguments: &Option<Values>,
) -> bool
    ensures { result ≡ system_known errno.now said.now file.now second.now arguments.now }
{
    if has_value(file) {
        return with_file_known(errno, said, file, second);
    }
    without_file_known(errno, said, arguments)
}

/// The same by `ImportError`'s rule.
fn import_known(said: &Option<Value>, arguments: &Option<Values>) -> bool
    ensures { result ≡ import_known said.now arguments.now }
{
    if is_text(said) {
        return str_known(said);
    }
    plain_known(arguments)
}

/// The same by `SyntaxError`'s rule; Python shows the last part of the file's path alone.
fn syntax_known(said: &Option<Value>, file: &Option<Value>, line: &Option<Value>) -> bool
    ensures { result ≡ syntax_known said.now file.now line.now }
{
    if is_text(file) {
        return false;
    }
    if is_number(line) {
        return str_known(said) && str_known(line);
    }
    str_known(said)
}

/// Whether the members of a group are told.
fn has_members(members: &Members) -> bool
    ensures { result ≡ has_members (members_of members.now) }
{
    match members {
        Members::Group(_) => true,
        Members::NoGroup => false,
        Members::Unreadable(_) => false,
    }
}

/// Whether what an exception says is told exactly.
pub(crate) fn knows(said: &Said, members: &Members) -> bool
    ensures { result ≡ knows said.now (members_of members.now) }
{
    let arguments = &said.arguments;
    match &said.rule {
        Rule::Plain => plain_known(arguments),
        Rule::Key => key_known(arguments),
        Rule::System {
            errno,
            text,
            file,
            second,
        } => system_known(errno, text, file, second, arguments),
        Rule::Import { text } => import_known(text, arguments),
        Rule::Syntax { text, file, line } => syntax_known(text, file, line),
        Rule::Group { text } => str_known(text) && has_members(members),
        Rule::Encode { encoding, invalid } => is_known(coded_shown(encoding, invalid)),
        Rule::Decode { encoding, invalid } => is_known(coded_shown(encoding, invalid)),
        Rule::Translate { invalid } => is_known(data_shown(invalid)),
        Rule::Own { .. } => false,
        Rule::Unreadable => false,
    }
}
