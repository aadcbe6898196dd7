//! The numbers of lines, as they are shown.
ghost use Rattle.std.specs.Prelude.{◌≡◌};
ghost use Rattle.py_fronts.specs.Lines.{shown_line};

/// A line's number as it is shown: from 1 on, and 0 where none is known.
///
/// What a line table sums up to may be below 1; no line of a file has such a number, so it counts as none.
pub fn shown_line(line: i32) -> u32
    ensures { result ≡ shown_line line }
{
    u32::try_from(line).unwrap_or(0)
}
