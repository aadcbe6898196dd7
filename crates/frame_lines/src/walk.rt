//! The line at an offset, by a table.
ghost use Rattle.std.specs.Prelude.{◌≡◌, ◌<◌, ◌^◌, ℕ, length};
ghost use Rattle.frame_lines.specs.Entries.{IsSmall, IsStep};
ghost use Rattle.frame_lines.specs.Walks.{IsNear, last_line, lies_in, line_at, line_held, line_under, past};

use crate::entry::{Entry, first_entry};
use crate::form::TableForm;

/// The offset at which the code behind the last pair ends.
const END: u64 = 1 << 31;

/// How far a walk over a table has come: the offset behind the entries that it has passed, and the line.
#[derive(Clone, Copy)]
pub(crate) struct Place {
    start: u64,
    line: i64,
}

impl Place {
    /// Whether an offset lies in the code under an entry.
    fn holds(&self, entry: &Entry, offset: u64) -> bool
        requires near { IsNear 0 self.now }
        requires small { IsSmall entry.now }
        ensures { result ≡ lies_in offset self.now.start entry.now.covers }
    {
        self.start <= offset && offset < self.start + entry.covers
    }

    /// The line of the code under an entry.
    fn line_under(&self, form: TableForm, delta: Option<i64>) -> Option<i32>
        requires near { IsNear 0 self.now }
        requires step { IsStep delta }
        ensures { result ≡ line_under form self.now.line delta }
    {
        match form {
            TableForm::UnsignedPairs | TableForm::Pairs => i32::try_from(self.line).ok(),
            TableForm::Ranges | TableForm::Locations => {
                let line = self.line + delta?;
                i32::try_from(line).ok()
            }
        }
    }

    /// The place behind an entry.
    fn past(&self, entry: &Entry) -> Place
        requires near { IsNear 0 self.now }
        requires small { IsSmall entry.now }
        ensures { result ≡ past self.now entry.now }
    {
        Place {
            start: self.start + entry.covers,
            line: self.line + entry.delta.unwrap_or(0),
        }
    }

    /// The line at an offset that no entry covers.
    fn last_line(&self, form: TableForm, offset: u64) -> i32
        ensures { result ≡ last_line form self.now offset }
    {
        match form {
            TableForm::UnsignedPairs | TableForm::Pairs if self.start <= offset && offset < END => {
                i32::try_from(self.line).unwrap_or(0)
            }
            _ => 0,
        }
    }
}

/// The line at an offset into code whose first line is `first`, by a table: that of the entry whose code holds it, and
/// of pairs that behind the last. It is 0 where none does, and where that has no line or one that is no i32; so at a
/// negative offset and from 2^31 on.
///
/// The steps of entries are added without a limit. An entry that is cut ends the table, as does a number of more than
/// six bytes, or in `Locations` a byte without bit 7 where an entry should begin. It takes no memory.
pub fn line_at(form: TableForm, first: i32, table: &[u8], offset: i64) -> i32
    requires short { length table.now < 2 ^ 24 }
    ensures { result ≡ line_at form first table.now offset }
{
    match u64::try_from(offset) {
        Ok(offset) => line_held(form, first, table, offset),
        Err(_) => 0,
    }
}

fn line_held(form: TableForm, first: i32, table: &[u8], offset: u64) -> i32
    requires short { length table.now < 2 ^ 24 }
    ensures { result ≡ line_held form first table.now offset }
{
    let mut rest = table;
    let mut place = Place {
        start: 0,
        line: i64::from(first),
    };
    while let Some(entry) = first_entry(form, rest) {
        if place.holds(&entry, offset) {
            return place.line_under(form, entry.delta).unwrap_or(0);
        }
        place = place.past(&entry);
        rest = &rest[entry.size..];
    }
    place.last_line(form, offset)
}
