//! The names of attributes within a value's text.
ghost use Rattle.std.specs.Prelude.{◌≡◌, ◌++◌, OnOk, get_or, string_bytes};
ghost use Rattle.std.specs.List.{list_all};
ghost use Rattle.repr_texts.specs.Identifiers.{attribute_name, inner, is_digit, is_identifier, is_quoted_identifier};
ghost use Rattle.repr_texts.specs.Identifiers.{is_word_byte, utf8_or};

use std::alloc::AllocError;
use std::str;

fn is_digit(byte: u8) -> bool
    ensures { result ≡ is_digit byte }
{
    48 <= byte && byte <= 57
}

/// Whether a byte can stand in an identifier: a letter, a digit or the underscore of ASCII, or one of a character behind
/// ASCII.
#[tactic(auto, unfolding(crate::specs::Identifiers::is_word_byte))]
fn is_word_byte(byte: u8) -> bool
    ensures { result ≡ is_word_byte byte }
{
    is_digit(byte)
        || 65 <= byte && byte <= 90
        || 97 <= byte && byte <= 122
        || byte == 95
        || 128 <= byte
}

/// The byte of a number; another one past the last.
fn byte_or(bytes: &[u8], number: usize, other: u8) -> u8
    ensures { result ≡ get_or bytes.now number other }
{
    match bytes.get(number) {
        Some(byte) => *byte,
        None => other,
    }
}

fn are_word_bytes(bytes: &[u8]) -> bool
    ensures { result ≡ list_all is_word_byte bytes.now }
{
    bytes.iter().all(|byte| is_word_byte(*byte))
}

/// Whether bytes are an identifier.
#[tactic(auto, unfolding(crate::specs::Identifiers::is_identifier))]
fn is_identifier(bytes: &[u8]) -> bool
    ensures { result ≡ is_identifier bytes.now }
{
    !is_digit(byte_or(bytes, 0, 48)) && are_word_bytes(bytes)
}

/// What stands between the first byte and the last.
#[tactic(auto, unfolding(crate::specs::Identifiers::inner))]
fn inner(bytes: &[u8]) -> &[u8]
    ensures { result.now ≡ inner bytes.now }
{
    if bytes.len() < 2 {
        return &[];
    }
    let tail = &bytes[1..];
    &tail[..tail.len() - 1]
}

/// Whether bytes are an identifier in apostrophes.
#[tactic(auto, unfolding(crate::specs::Identifiers::is_quoted_identifier))]
fn is_quoted_identifier(bytes: &[u8]) -> bool
    ensures { result ≡ is_quoted_identifier bytes.now }
{
    byte_or(bytes, 0, 0) == 39
        && byte_or(bytes, bytes.len().saturating_sub(1), 0) == 39
        && is_identifier(inner(bytes))
}

/// Appends bytes that are a text, else another text.
fn push_utf8_or(text: &mut String, bytes: &[u8], other: &str) -> Result<(), AllocError>
    ensures { OnOk result (string_bytes text.new ≡ string_bytes text.old ++ utf8_or bytes.now other.now) }
{
    match str::from_utf8(bytes) {
        Ok(name) => text.push_str(name)?,
        Err(_) => text.push_str(other)?,
    }
    Ok(())
}

/// Appends the name of an attribute, whose text is this: an identifier without its apostrophes, anything else as it is.
#[tactic(auto, unfolding(crate::specs::Identifiers::attribute_name))]
pub(crate) fn push_attribute_name(text: &mut String, name: &str) -> Result<(), AllocError>
    ensures { OnOk result (string_bytes text.new ≡ string_bytes text.old ++ attribute_name name.now) }
{
    let bytes = name.as_bytes();
    if is_quoted_identifier(bytes) {
        push_utf8_or(text, inner(bytes), name)?;
        return Ok(());
    }
    text.push_str(name)?;
    Ok(())
}
