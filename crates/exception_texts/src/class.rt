//! The names of classes.
ghost use Rattle.std.specs.Prelude.{◌≡◌, ◌++◌, OnOk, string_bytes};
ghost use Rattle.exception_texts.specs.Text.{known_class, has_break, class_text, is_break, is_plain_class};
ghost use Rattle.exception_texts.specs.Text.{is_plain_name, is_plain_part, is_top, module_text, named_text, part_text};
ghost use Rattle.exception_texts.specs.Text.{qualified_text, quote_text};

use crate::values::push_name;
use elf64_core::Text;
use py_exceptions::ClassName;
use salvage_texts::push_escaped;
use std::alloc::{AllocError, Global};

/// Whether a byte could be taken for what stands behind a name.
fn is_break(byte: u8) -> bool
    ensures { result ≡ is_break byte }
{
    byte == b' ' || byte == b':'
}

/// Whether any of some bytes is one.
fn has_break(bytes: &[u8]) -> bool
    ensures { result ≡ has_break bytes.now }
{
    bytes.iter().any(|byte| is_break(*byte))
}

/// Whether a name has none.
fn is_plain_name(name: &Text) -> bool
    ensures { result ≡ is_plain_name name.now }
{
    !has_break(name.as_str().as_bytes())
}

/// The same of a name that may not be known.
fn is_plain_part(name: &Option<Text>) -> bool
    ensures { result ≡ is_plain_part name.now }
{
    match name {
        Some(name) => is_plain_name(name),
        None => true,
    }
}

/// Whether all of a class's name is plain.
fn is_plain_class(class: &Option<ClassName>) -> bool
    ensures { result ≡ is_plain_class class.now }
{
    match class {
        Some(ClassName::Whole(name)) => is_plain_name(name),
        Some(ClassName::Parts { module, name }) => is_plain_part(module) && is_plain_part(name),
        None => true,
    }
}

/// Whether Python leaves a module out where it names a class.
fn is_top(module: &Text) -> bool
    ensures { result ≡ is_top module.now }
{
    module.as_str() == "builtins" || module.as_str() == "__main__"
}

/// A module in front of a class.
fn push_module(alloc: Global, text: &mut String, module: &Text) -> Result<(), AllocError>
    ensures { OnOk result (string_bytes text.new ≡ string_bytes text.old ++ module_text module.now) }
{
    if is_top(module) {
        return Ok(());
    }
    push_escaped(alloc, text, true, module)?;
    text.push_str(".")
}

/// The same, or a question mark.
fn push_part(alloc: Global, text: &mut String, module: &Option<Text>) -> Result<(), AllocError>
    ensures { OnOk result (string_bytes text.new ≡ string_bytes text.old ++ part_text module.now) }
{
    match module {
        Some(module) => push_module(alloc, text, module),
        None => text.push_str("?."),
    }
}

/// A class by its module and its name.
fn push_qualified(
    alloc: Global,
    text: &mut String,
    module: &Option<Text>,
    name: &Option<Text>,
) -> Result<(), AllocError>
    ensures { OnOk result (string_bytes text.new ≡ string_bytes text.old ++ qualified_text module.now name.now) }
{
    push_part(alloc, text, module)?;
    push_name(alloc, text, name)
}

/// The name of a class that is known.
pub(crate) fn push_known_class(
    alloc: Global,
    text: &mut String,
    class: &ClassName,
) -> Result<(), AllocError>
    ensures { OnOk result (string_bytes text.new ≡ string_bytes text.old ++ known_class class.now) }
{
    match class {
        ClassName::Whole(name) => push_escaped(alloc, text, true, name),
        ClassName::Parts { module, name } => push_qualified(alloc, text, module, name),
    }
}

/// Appends the name of a class, in which control characters, quotes and backslashes are escaped; a module that Python
/// leaves out where it names an exception's class is left out, and `?` stands for a name that can't be read. The one
/// error is out of memory.
pub fn push_named(
    alloc: Global,
    text: &mut String,
    class: &Option<ClassName>,
) -> Result<(), AllocError>
    ensures { OnOk result (string_bytes text.new ≡ string_bytes text.old ++ named_text class.now) }
{
    match class {
        Some(class) => push_known_class(alloc, text, class),
        None => text.push_str("?"),
    }
}

/// A quote, where a name is not plain.
fn push_quote(text: &mut String, is_plain: bool) -> Result<(), AllocError>
    ensures { OnOk result (string_bytes text.new ≡ string_bytes text.old ++ quote_text is_plain) }
{
    if is_plain {
        return Ok(());
    }
    text.push_str("\"")
}

/// The name of a class, in quotes where it has what could stand behind a name.
pub(crate) fn push_class(
    alloc: Global,
    text: &mut String,
    class: &Option<ClassName>,
) -> Result<(), AllocError>
    ensures { OnOk result (string_bytes text.new ≡ string_bytes text.old ++ class_text class.now) }
{
    let is_plain = is_plain_class(class);
    push_quote(text, is_plain)?;
    push_named(alloc, text, class)?;
    push_quote(text, is_plain)
}
