//! The numbers of lines.
ghost use Rattle.std.specs.Prelude.{◌≡◌, ◌++◌, OnOk, string_bytes};
ghost use Rattle.salvage_texts.specs.Lines.{line_text};

use std::alloc::AllocError;

/// A line's number, where it is known.
pub(crate) fn push_line(text: &mut String, line: u32) -> Result<(), AllocError>
    ensures { OnOk result (string_bytes text.new ≡ string_bytes text.old ++ line_text line) }
{
    if line == 0 {
        return Ok(());
    }
    write!(text, ":{line}")
}
