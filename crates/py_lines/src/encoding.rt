//! Ranges written as a table.
ghost use Rattle.std.specs.Prelude.{◌≡◌, ◌<◌, ◌≤◌, ◌+◌, ◌++◌, ◌^◌, ◌%◌, ℕ, pos, negsuc, ◌≤ℤ◌, length, IfOk, IfErr};
ghost use Rattle.std.specs.Prelude.{IfSome, MatchResult};
ghost use Rattle.py_lines.specs.declared.lines.LineFamily.TheVariants.{Locations};
ghost use Rattle.py_lines.specs.Coding.{first_unordered, can_stand, covered_by, varint_bytes, signed_code, delta_byte};
ghost use Rattle.py_lines.specs.Coding.{delta_from, location_head, location_bytes, entry_bytes, run_bytes, runs_bytes};
ghost use Rattle.py_lines.specs.Coding.{HasNoRoom, IsPart, IsRun, AreRuns, IsLine, IsNearDelta, IsCoding, IsRefusal};
ghost use Rattle.py_lines.specs.Coding.{KeepsLines};

use crate::runs::{Run, runs_of};
use crate::{EncodeError, LineFamily, LineRange};
use std::alloc::Global;

/// The most bytes of a table.
const MOST: usize = 65535;
/// How many bytes of a number stand before the last, at most.
const VARINT_MOST: u32 = 5;
/// The code of a location with a delta.
const LINE_CODE: u64 = 13;
/// The code of a location without a line.
const NO_LINE_CODE: u64 = 15;
/// The byte that stands for no line in `Ranges`.
const NO_LINE: u8 = 0x80;

/// Adds bytes to a table that has room for them.
fn add(table: &mut Vec<u8>, bytes: &[u8]) -> Result<(), EncodeError>
    requires short { length table.old.items < 65536 }
    requires few { length bytes.now < 65536 }
    ensures added { IfOk result (λ _. table.new.items ≡ table.old.items ++ bytes.now) }
    ensures short { IfOk result (λ _. length table.new.items < 65536) }
    ensures refused { IfErr result (λ error. HasNoRoom error table.old.items bytes.now) }
{
    if table.len() + bytes.len() > MOST {
        return Err(EncodeError::TooLong);
    }
    table.extend_from_slice(bytes)?;
    Ok(())
}

/// The index of the first range that can't stand where it does, counted from 0.
fn first_unordered(family: LineFamily, ranges: &[LineRange]) -> Option<u64>
    ensures { result ≡ first_unordered family 0 ranges.now }
{
    let mut rest = ranges;
    let mut at = 0;
    let mut index = 0;
    while let Some((range, later)) = rest.split_first() {
        if !range.can_stand(family, at) {
            return Some(index);
        }
        at = range.end;
        index += 1;
        rest = later;
    }
    None
}

impl LineRange {
    /// How many bytes of code its entries cover behind a range that began at an offset.
    fn covered_behind(&self, family: LineFamily, last: u64) -> u64
        ensures { result ≡ covered_by family last self.now }
    {
        match family {
            LineFamily::Pairs => self.start.saturating_sub(last),
            LineFamily::Ranges | LineFamily::Locations => self.end.saturating_sub(self.start),
        }
    }

    /// Whether the range can stand behind an offset.
    fn can_stand(&self, family: LineFamily, at: u64) -> bool
        ensures { result ≡ can_stand family at self.now }
    {
        let has_form = match family {
            LineFamily::Pairs => self.line.is_some(),
            LineFamily::Ranges => true,
            LineFamily::Locations => self.end.saturating_sub(self.start) % 2 == 0,
        };
        self.start == at && self.start < self.end && self.end < 1 << 31 && has_form
    }
}

/// Adds a number of several bytes: six bits of each but the last, the lowest first; at most so many before
/// the last.
fn add_varint(table: &mut Vec<u8>, most: u32, value: u64) -> Result<(), EncodeError>
    requires short { length table.old.items < 65536 }
    requires most { most ≤ 5 }
    requires value { value < 64 ^ (most + 1) }
    ensures added { IfOk result (λ _. table.new.items ≡ table.old.items ++ varint_bytes most value) }
    ensures short { IfOk result (λ _. length table.new.items < 65536) }
    ensures refused { IfErr result (λ error. HasNoRoom error table.old.items (varint_bytes most value)) }
{
    if value < 64 {
        return add(table, &[value as u8]);
    }
    add(table, &[64 + (value % 64) as u8])?;
    add_varint(table, most - 1, value / 64)
}

/// A signed number as one without a sign: twice the magnitude, and one more where it is negative.
fn signed_code(delta: i64) -> u64
    requires low { negsuc (2 ^ 33) ≤ℤ delta }
    requires high { delta ≤ℤ pos (2 ^ 33) }
    ensures value { result ≡ signed_code delta }
    ensures small { result < 2 ^ 36 }
{
    let size = delta.unsigned_abs();
    if delta < 0 { 2 * size + 1 } else { 2 * size }
}

/// The first byte of a location with this code.
fn location_head(code: u64, covers: u64) -> u8
    requires code { code ≤ 15 }
    requires some { 1 ≤ covers }
    requires even { covers % 2 ≡ 0 }
    requires covers { covers ≤ 16 }
    ensures { result ≡ location_head code covers }
{
    (0x80 + 8 * code + (covers / 2 - 1)) as u8
}

/// Adds a location.
fn add_location(table: &mut Vec<u8>, covers: u64, delta: Option<i64>) -> Result<(), EncodeError>
    requires short { length table.old.items < 65536 }
    requires part { IsPart Locations covers delta }
    ensures added { IfOk result (λ _. table.new.items ≡ table.old.items ++ location_bytes covers delta) }
    ensures short { IfOk result (λ _. length table.new.items < 65536) }
    ensures refused { IfErr result (λ error. HasNoRoom error table.old.items (location_bytes covers delta)) }
{
    match delta {
        Some(delta) => {
            add(table, &[location_head(LINE_CODE, covers)])?;
            add_varint(table, VARINT_MOST, signed_code(delta))
        }
        None => add(table, &[location_head(NO_LINE_CODE, covers)]),
    }
}

/// The byte of a delta; -128 stands for no line.
fn delta_byte(delta: Option<i64>) -> u8
    requires { IfSome delta (λ d. (negsuc 127 ≤ℤ d) × (d ≤ℤ pos 127)) }
    ensures { result ≡ delta_byte delta }
{
    match delta {
        Some(delta) => (delta as i8).cast_unsigned(),
        None => NO_LINE,
    }
}

/// Adds an entry.
fn add_entry(
    table: &mut Vec<u8>,
    family: LineFamily,
    covers: u64,
    delta: Option<i64>,
) -> Result<(), EncodeError>
    requires short { length table.old.items < 65536 }
    requires part { IsPart family covers delta }
    ensures added { IfOk result (λ _. table.new.items ≡ table.old.items ++ entry_bytes family covers delta) }
    ensures short { IfOk result (λ _. length table.new.items < 65536) }
    ensures refused { IfErr result (λ error. HasNoRoom error table.old.items (entry_bytes family covers delta)) }
{
    match family {
        LineFamily::Pairs => add(table, &[covers as u8, delta_byte(delta)]),
        LineFamily::Ranges => add(table, &[covers as u8, delta_byte(delta)]),
        LineFamily::Locations => add_location(table, covers, delta),
    }
}

/// Adds entries that are alike.
fn add_run(table: &mut Vec<u8>, family: LineFamily, run: Run) -> Result<(), EncodeError>
    requires short { length table.old.items < 65536 }
    requires run { IsRun family run }
    ensures added { IfOk result (λ _. table.new.items ≡ table.old.items ++ run_bytes family run) }
    ensures short { IfOk result (λ _. length table.new.items < 65536) }
    ensures refused { IfErr result (λ error. HasNoRoom error table.old.items (run_bytes family run)) }
{
    let mut left = run.times;
    while left > 0 {
        add_entry(table, family, run.covers, run.delta)?;
        left -= 1;
    }
    Ok(())
}

/// Adds runs.
fn add_runs(table: &mut Vec<u8>, family: LineFamily, runs: &[Run]) -> Result<(), EncodeError>
    requires short { length table.old.items < 65536 }
    requires runs { AreRuns family runs.now }
    ensures added { IfOk result (λ _. table.new.items ≡ table.old.items ++ runs_bytes family runs.now) }
    ensures short { IfOk result (λ _. length table.new.items < 65536) }
    ensures refused { IfErr result (λ error. HasNoRoom error table.old.items (runs_bytes family runs.now)) }
{
    let mut rest = runs;
    while let Some((run, later)) = rest.split_first() {
        add_run(table, family, *run)?;
        rest = later;
    }
    Ok(())
}

/// From one line to the next, if there is one.
fn delta_from(line: i32, next: Option<i32>) -> Option<i64>
    ensures value { result ≡ delta_from line next }
    ensures near { IsNearDelta result }
    ensures fits { IsLine next }
{
    let next = next?;
    Some(i64::from(next) - i64::from(line))
}

/// The table of ranges of code whose first line is `first`: what `ranges` and `line_at` read, and shorter than
/// 65536 bytes. It has the line of each range at each offset below the last end, and 0 where a range has none.
///
/// It is `NotOrdered` exactly where a range can't stand where it does, and carries the index of the first such;
/// else `TooLong` exactly where the table would have 65536 bytes or more, out of memory aside.
pub fn encode(
    alloc: Global,
    family: LineFamily,
    first: i32,
    ranges: &[LineRange],
) -> Result<Vec<u8>, EncodeError>
    ensures right { MatchResult result
        (λ table. IsCoding family first ranges.now table.items) (λ error. IsRefusal family first ranges.now error) }
    ensures lines { IfOk result (λ table. KeepsLines family first ranges.now table.items) }
{
    if let Some(index) = first_unordered(family, ranges) {
        return Err(EncodeError::NotOrdered { index });
    }
    let mut table = Vec::new(alloc);
    let mut rest = ranges;
    let mut last = 0;
    let mut line = first;
    while let Some((range, later)) = rest.split_first() {
        let delta = delta_from(line, range.line);
        let runs = runs_of(family, range.covered_behind(family, last), delta);
        add_runs(&mut table, family, &runs)?;
        last = range.start;
        line = range.line.unwrap_or(line);
        rest = later;
    }
    Ok(table)
}
