//! The entries of the tables, one by one.
ghost use Rattle.std.specs.Prelude.{◌≡◌, ◌+◌, ◌≤◌, ◌<◌, ◌^◌, ℕ, pos, negsuc, ◌≤ℤ◌, length, IfSome};
ghost use Rattle.py_lines.specs.Entries.{first_entry, pair_entry, range_entry, location_entry, location_line};
ghost use Rattle.py_lines.specs.Entries.{long_line, IsWithin, IsSmall, HasEntryRoom};

use crate::LineFamily;
use crate::varint::{Number, varint, varint_end};

/// An entry of a table.
#[derive(Clone, Copy)]
pub(crate) struct Entry {
    /// How many bytes of the table it has.
    pub(crate) size: usize,
    /// How many bytes of code it covers.
    pub(crate) covers: u64,
    /// By how much it moves the line; None where the code that it covers has no line.
    pub(crate) delta: Option<i64>,
}

/// What the bytes of a location behind its first say.
#[derive(Clone, Copy)]
struct LocationLine {
    /// How many they are.
    size: usize,
    /// By how much the location moves the line; None where its code has no line.
    delta: Option<i64>,
}

/// The line delta of the family `Ranges` that says that the code has no line.
const NO_LINE: i64 = -128;

/// The entry that a table begins with, if it begins with a whole one.
pub(crate) fn first_entry(family: LineFamily, table: &[u8]) -> Option<Entry>
    ensures value { result ≡ first_entry family table.now }
    ensures size { IfSome result (HasEntryRoom (length table.now)) }
    ensures small { IfSome result IsSmall }
{
    match family {
        LineFamily::Pairs => pair_entry(table),
        LineFamily::Ranges => range_entry(table),
        LineFamily::Locations => location_entry(table),
    }
}

/// Two bytes: how many bytes of code, and by how much the line moves behind them.
fn pair_entry(table: &[u8]) -> Option<Entry>
    ensures value { result ≡ pair_entry table.now }
    ensures size { IfSome result (HasEntryRoom (length table.now)) }
    ensures small { IfSome result IsSmall }
{
    if table.len() < 2 {
        return None;
    }
    Some(Entry {
        size: 2,
        covers: u64::from(table[0]),
        delta: Some(i64::from(table[1].cast_signed())),
    })
}

/// Two bytes: how many bytes of code, and by how much the line moves in front of them.
fn range_entry(table: &[u8]) -> Option<Entry>
    ensures value { result ≡ range_entry table.now }
    ensures size { IfSome result (HasEntryRoom (length table.now)) }
    ensures small { IfSome result IsSmall }
{
    let entry = pair_entry(table)?;
    if entry.delta == Some(NO_LINE) {
        return Some(Entry {
            delta: None,
            ..entry
        });
    }
    Some(entry)
}

/// A byte with bit 7, a code in bits 3 to 6 and the number of units of 2 bytes of code less one in bits 0 to
/// 2; and what else its code asks for.
fn location_entry(table: &[u8]) -> Option<Entry>
    ensures value { result ≡ location_entry table.now }
    ensures size { IfSome result (HasEntryRoom (length table.now)) }
    ensures small { IfSome result IsSmall }
{
    if table.is_empty() || table[0] < 0x80 {
        return None;
    }
    let line = location_line(table[0] >> 3 & 15, &table[1..])?;
    Some(Entry {
        size: 1 + line.size,
        covers: 2 * (u64::from(table[0] % 8) + 1),
        delta: line.delta,
    })
}

/// What the bytes behind a location's first say, by its code: columns alone for 0 to 9, a delta of up to 2
/// and columns for 10 to 12, a delta for 13, a delta, the end line and columns for 14, no line for 15.
fn location_line(code: u8, rest: &[u8]) -> Option<LocationLine>
    requires { code < 16 }
    ensures value { result ≡ location_line code rest.now }
    ensures fits { IfSome result (λ line. (line.size ≤ length rest.now) × IsWithin line.delta) }
{
    match code {
        15 => Some(LocationLine {
            size: 0,
            delta: None,
        }),
        14 => long_line(rest),
        13 => {
            let delta = varint(rest)?;
            Some(LocationLine {
                size: delta.size,
                delta: Some(delta.signed()),
            })
        }
        10..=12 if rest.len() >= 2 => Some(LocationLine {
            size: 2,
            delta: Some(i64::from(code - 10)),
        }),
        0..=9 if !rest.is_empty() => Some(LocationLine {
            size: 1,
            delta: Some(0),
        }),
        _ => None,
    }
}

/// A location's signed delta, and behind it the end line and the two columns.
fn long_line(rest: &[u8]) -> Option<LocationLine>
    ensures value { result ≡ long_line rest.now }
    ensures fits { IfSome result (λ line. (line.size ≤ length rest.now) × IsWithin line.delta) }
{
    let delta = varint(rest)?;
    let end_line = varint_end(rest, delta.size)?;
    let column = varint_end(rest, end_line)?;
    let end_column = varint_end(rest, column)?;
    Some(LocationLine {
        size: end_column,
        delta: Some(delta.signed()),
    })
}
