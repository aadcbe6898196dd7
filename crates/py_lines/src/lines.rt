//! What a line table says: which line stands at which offset into the code.
ghost use Rattle.std.specs.Prelude.{◌≡◌, ◌<◌, ◌++◌, [], ℕ, ◌-◌, ℤ, pos, negsuc, ◌≤ℤ◌, ◌+ℤ◌, length, IfOk, IfErr, OnOk};
ghost use Rattle.py_lines.specs.Entries.{IsSmall, IsWithin};
ghost use Rattle.py_lines.specs.Lines.{ranges_of, line_of, line_among, AscendFrom, kept, holds};
ghost use Rattle.py_lines.specs.Places.{line_with, line_range_at, past, last_at, IsNear};

use crate::entry::{Entry, first_entry};
use std::alloc::{AllocError, Global};

/// Which of CPython's forms a line table has.
#[derive(Clone, Copy, Debug, PartialEq, Eq)]
pub enum LineFamily {
    /// Up to 3.9: pairs of a length of code and a step of the line behind it.
    Pairs,
    /// 3.10: pairs of a length of code and a step of the line in front of it.
    Ranges,
    /// From 3.11 on: locations, of one byte and more, whose first byte says what else they have.
    Locations,
}

/// Code that has one line, or none: the bytes from `start` up to `end`, which is no part of it.
#[derive(Clone, Copy, Debug, PartialEq, Eq)]
pub struct LineRange {
    /// The offset of its first byte.
    pub start: u64,
    /// The offset of the byte behind it.
    pub end: u64,
    /// Its line; None where it has none, or one that is no i32.
    pub line: Option<i32>,
}

/// The offset at which the last range of a table of the family `Pairs` ends.
const END: u64 = 1 << 31;

/// How far a walk over a table has come: the offset behind the entries that it has passed, and the line.
#[derive(Clone, Copy)]
struct Place {
    start: u64,
    line: i64,
}

impl LineRange {
    fn holds(&self, offset: u64) -> bool
        ensures { result ≡ holds offset self.now }
    {
        self.start <= offset && offset < self.end
    }
}

impl Place {
    /// The line of the code under an entry.
    fn line_under(&self, family: LineFamily, delta: Option<i64>) -> Option<i32>
        requires near { IsNear 0 self.now }
        requires within { IsWithin delta }
        ensures { result ≡ line_with family self.now.line delta }
    {
        let line = match family {
            LineFamily::Pairs => self.line,
            LineFamily::Ranges | LineFamily::Locations => self.line + delta?,
        };
        i32::try_from(line).ok()
    }

    /// The code under an entry.
    fn range_under(&self, family: LineFamily, entry: &Entry) -> LineRange
        requires near { IsNear 0 self.now }
        requires small { IsSmall entry.now }
        ensures { result ≡ line_range_at family self.now entry.now }
    {
        LineRange {
            start: self.start,
            end: self.start + entry.covers,
            line: self.line_under(family, entry.delta),
        }
    }

    /// The place behind an entry.
    fn past(&self, entry: &Entry) -> Place
        requires near { IsNear 0 self.now }
        requires small { IsSmall entry.now }
        ensures { result ≡ past self.now entry.now }
    {
        Place {
            start: self.start + entry.covers,
            line: self.line + entry.delta.unwrap_or(0),
        }
    }

    /// The code that no entry covers and that has a line all the same.
    fn last(&self, family: LineFamily) -> Option<LineRange>
        ensures { result ≡ last_at family self.now }
    {
        match family {
            LineFamily::Pairs => Some(LineRange {
                start: self.start,
                end: END,
                line: i32::try_from(self.line).ok(),
            }),
            LineFamily::Ranges | LineFamily::Locations => None,
        }
    }
}

/// The ranges of a table, in order, of code whose first line is `first`. They ascend and don't meet; an empty
/// one is left out.
///
/// Sums of lines are exact; a range whose line is no i32 has none. A pair or an entry that is cut ends the
/// table, as does a number of more than six bytes, or in `Locations` an entry whose first byte lacks bit 7.
/// Behind the last of the `Pairs` the code goes on to 2^31, with the line behind them.
pub fn ranges(
    alloc: Global,
    family: LineFamily,
    first: i32,
    table: &[u8],
) -> Result<Vec<LineRange>, AllocError>
    requires short { length table.now < 65536 }
    ensures ranges { IfOk result (λ found. found.items ≡ ranges_of family first table.now) }
    ensures ascend { IfOk result (λ found. AscendFrom 0 found.items) }
{
    let mut found = Vec::new(alloc);
    let mut rest = table;
    let mut place = Place {
        start: 0,
        line: i64::from(first),
    };
    while let Some(entry) = first_entry(family, rest) {
        keep(&mut found, place.range_under(family, &entry))?;
        place = place.past(&entry);
        rest = &rest[entry.size..];
    }
    if let Some(range) = place.last(family) {
        keep(&mut found, range)?;
    }
    Ok(found)
}

/// Adds a range that isn't empty.
fn keep(found: &mut Vec<LineRange>, range: LineRange) -> Result<(), AllocError>
    ensures { OnOk result (found.new.items ≡ found.old.items ++ kept range []) }
{
    if range.start < range.end {
        found.push(range)?;
    }
    Ok(())
}

/// The line at an offset into code whose first line is `first`: that of the range that holds it. It is 0 where
/// none does, or that range has no line; so at a negative offset and from 2^31 on. It takes no memory.
pub fn line_at(family: LineFamily, first: i32, table: &[u8], offset: i64) -> i32
    requires short { length table.now < 65536 }
    ensures { result ≡ line_of (ranges_of family first table.now) offset }
{
    match u64::try_from(offset) {
        Ok(offset) => line_held(family, first, table, offset),
        Err(_) => 0,
    }
}

fn line_held(family: LineFamily, first: i32, table: &[u8], offset: u64) -> i32
    requires short { length table.now < 65536 }
    ensures { result ≡ line_among (ranges_of family first table.now) offset }
{
    let mut rest = table;
    let mut place = Place {
        start: 0,
        line: i64::from(first),
    };
    while let Some(entry) = first_entry(family, rest) {
        let range = place.range_under(family, &entry);
        if range.holds(offset) {
            return range.line.unwrap_or(0);
        }
        place = place.past(&entry);
        rest = &rest[entry.size..];
    }
    match place.last(family) {
        Some(range) if range.holds(offset) => range.line.unwrap_or(0),
        _ => 0,
    }
}
