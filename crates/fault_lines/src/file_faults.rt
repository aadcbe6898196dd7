//! The parts of the line of a file that can't be read, and of layouts that are refused.
ghost use Rattle.std.specs.Prelude.{◌≡◌, ◌++◌};
ghost use Rattle.std.specs.List.{concat};
ghost use Rattle.core_texts.specs.Parts.{said};
ghost use Rattle.fault_lines.specs.Lines.{file_parts, layout_parts};

use core_texts::{Part, Parts, parts};
use outside::FileFault;
use py_layout::LayoutError;

/// One text, as parts.
pub fn text_part<'a>(text: &'a str) -> Parts<'a>
    ensures { said result ≡ text.now }
{
    parts(&[Part::Text(text)])
}

/// A text, and behind it a name, which need not be text.
pub(crate) fn named_parts<'a>(text: &'a str, name: &'a [u8]) -> Parts<'a>
    ensures { said result ≡ text.now ++ name.now }
{
    parts(&[Part::Text(text), Part::Bytes(name)])
}

/// Why a file of this name could not be read.
pub fn file_parts<'a>(name: &'a [u8], fault: FileFault) -> Parts<'a>
    ensures { said result ≡ concat (file_parts name.now fault) }
{
    match fault {
        FileFault::Failed => named_parts("cannot read ", name),
        FileFault::TooLong => named_parts("file too long: ", name),
        FileFault::OutOfMemory => text_part("out of memory"),
    }
}

/// Why layouts are refused. Its tables are counted from 0, in the order of the file.
pub fn layout_parts<'a>(error: &'a LayoutError) -> Parts<'a>
    ensures { said result ≡ concat (layout_parts error.now) }
{
    match error {
        LayoutError::NotToml => text_part("layouts: not TOML"),
        LayoutError::Shape { table, key } => parts(&[
            Part::Text("layouts: table "),
            Part::Decimal(*table),
            Part::Text(", key "),
            Part::Text(key.as_str()),
        ]),
        LayoutError::Unsound { table } => parts(&[
            Part::Text("layouts: table "),
            Part::Decimal(*table),
            Part::Text(" is unsound"),
        ]),
        LayoutError::Clash { first, second } => parts(&[
            Part::Text("layouts: tables "),
            Part::Decimal(*first),
            Part::Text(" and "),
            Part::Decimal(*second),
            Part::Text(" clash"),
        ]),
        LayoutError::OutOfMemory => text_part("out of memory"),
    }
}
