//! Names within a value's text.
ghost use Rattle.std.specs.Prelude.{◌≡◌, ◌++◌, IfOk, OnOk, string_bytes};
ghost use Rattle.std.specs.List.{list_all};
ghost use Rattle.python_literals.specs.Quotes.{quoted};
ghost use Rattle.python_literals.specs.declared.quotes.Style.TheVariants.{Printable};
ghost use Rattle.repr_texts.specs.Names.{address_text, is_name, is_name_character, name_known, name_text, quoted_name};

use elf64_core::Text;
use python_literals::{Style, is_printable, push_quoted};
use std::alloc::{AllocError, Global};

/// Whether a character can't end a name.
fn is_name_character(c: char) -> bool
    ensures { result ≡ is_name_character c }
{
    is_printable(c) && !(c == ' ' || c == '"' || c == '\'')
}

/// The characters of a text.
fn characters(alloc: Global, text: &Text) -> Result<Vec<char>, AllocError>
    ensures { IfOk result (λ found. found.items ≡ text.now) }
{
    text.as_str().chars().collect(alloc)
}

/// The numbers of characters.
fn points_of(alloc: Global, chars: &[char]) -> Result<Vec<u32>, AllocError>
    ensures { IfOk result (λ found. found.items ≡ chars.now) }
{
    let mut points = Vec::new(alloc);
    for c in chars {
        points.push(u32::from(*c))?;
    }
    Ok(points)
}

/// Whether no character can end a name.
fn are_name_characters(chars: &[char]) -> bool
    ensures { result ≡ list_all is_name_character chars.now }
{
    chars.iter().all(|c| is_name_character(*c))
}

/// Whether characters are a name that can stand for itself.
fn is_name(chars: &[char]) -> bool
    ensures { result ≡ is_name chars.now }
{
    !chars.is_empty() && are_name_characters(chars)
}

/// Appends characters in quotes.
fn push_in_quotes(alloc: Global, text: &mut String, chars: &[char]) -> Result<(), AllocError>
    ensures { OnOk result (string_bytes text.new ≡ string_bytes text.old ++ quoted Printable chars.now) }
{
    let points = points_of(alloc, chars)?;
    push_quoted(text, Style::Printable, &points)
}

/// Appends a name: as it is, or in quotes where it could be taken for more than a name.
pub(crate) fn push_known(alloc: Global, text: &mut String, name: &Text) -> Result<(), AllocError>
    ensures { OnOk result (string_bytes text.new ≡ string_bytes text.old ++ name_known name.now) }
{
    let chars = characters(alloc, name)?;
    if is_name(&chars) {
        return text.push_str(name.as_str());
    }
    push_in_quotes(alloc, text, &chars)
}

/// Appends a name, or a question mark where it isn't known.
pub(crate) fn push_name(
    alloc: Global,
    text: &mut String,
    name: &Option<Text>,
) -> Result<(), AllocError>
    ensures { OnOk result (string_bytes text.new ≡ string_bytes text.old ++ name_text name.now) }
{
    match name {
        Some(name) => push_known(alloc, text, name),
        None => text.push_str("?"),
    }
}

/// Appends a known name in quotes.
fn push_known_quoted(alloc: Global, text: &mut String, name: &Text) -> Result<(), AllocError>
    ensures { OnOk result (string_bytes text.new ≡ string_bytes text.old ++ quoted Printable name.now) }
{
    let chars = characters(alloc, name)?;
    push_in_quotes(alloc, text, &chars)
}

/// Appends a name in quotes, or a question mark where it isn't known.
pub(crate) fn push_quoted_name(
    alloc: Global,
    text: &mut String,
    name: &Option<Text>,
) -> Result<(), AllocError>
    ensures { OnOk result (string_bytes text.new ≡ string_bytes text.old ++ quoted_name name.now) }
{
    match name {
        Some(name) => push_known_quoted(alloc, text, name),
        None => text.push_str("?"),
    }
}

/// Appends where an object stands.
pub(crate) fn push_address(text: &mut String, addr: u64) -> Result<(), AllocError>
    ensures { OnOk result (string_bytes text.new ≡ string_bytes text.old ++ address_text addr) }
{
    write!(text, " at 0x{addr:x}")
}
