//! Tables of strings in which the end of a string is looked up.
ghost use Rattle.std.specs.Prelude.{◌≡◌, ◌≤◌, ◌<◌, ◌+◌, ◌*◌, IfOk, IfSome, List, length, option_copied, ℕ};
ghost use Rattle.elf64_core.specs.Nul.{AreEnds, nul_from, string_at};
ghost use Rattle.elf64_core.specs.Sections.{string_in};

use crate::nul::first_nul;
use std::alloc::{AllocError, Global};
use std::marker::Model;

/// How many bytes a block of a table has.
const BLOCK: usize = 64;

/// A table of strings, which nuls end. An end is looked up by at most 64 bytes, however long the string, of which no
/// clause speaks; strings are parts of the table.
///
/// Contracts see it as the table's bytes.
#[derive(Drop)]
pub struct StringTable<'a> {
    strings: &'a [u8],
    /// Where the first nul stands from the start of each block on.
    ends: Vec<Option<usize>>,
}

impl<'a> Model for StringTable<'a> {
    ghost Value = { List ℕ };

    ghost view = { λ t. t.strings.now };

    ghost invariant = { λ t. AreEnds t.strings.now t.ends.items };
}

/// Where the first nul stands from a place on, where it is known for a later place.
fn end_before(strings: &[u8], at: usize, later: usize, known: Option<usize>) -> Option<usize>
    requires inside { at ≤ length strings.now }
    requires ordered { at ≤ later }
    requires known { known ≡ nul_from strings.now later }
    ensures { result ≡ nul_from strings.now at }
{
    let end = strings.len().min(later);
    match first_nul(&strings[at..end]) {
        Some(size) => Some(at + size),
        None => known,
    }
}

/// Where the first nul stands from the start of each block on, the last one first looked at.
fn ends_of(alloc: Global, strings: &[u8]) -> Result<Vec<Option<usize>>, AllocError>
    ensures { IfOk result (λ ends. AreEnds strings.now ends.items) }
{
    let count = strings.len() / BLOCK + 1;
    let mut ends: Vec<Option<usize>> = Vec::from_elem(alloc, None, count)?;
    let mut number = count;
    let mut known = None;
    while number > 0 {
        let later = BLOCK * number;
        number -= 1;
        known = end_before(strings, BLOCK * number, later, known);
        ends[number] = known;
    }
    Ok(ends)
}

impl<'a> StringTable<'a> {
    /// The table of these bytes, which are gone through once. The one error is out of memory.
    pub fn of(alloc: Global, strings: &'a [u8]) -> Result<StringTable<'a>, AllocError>
        ensures { IfOk result (λ table. table ≡ strings.now) }
    {
        let ends = ends_of(alloc, strings)?;
        Ok(StringTable { strings, ends })
    }

    /// Where the first nul stands from a place on.
    fn end_from(&self, at: usize) -> Option<usize>
        requires { at ≤ length self.now }
        ensures is { result ≡ nul_from self.now at }
        ensures inside { IfSome result (λ end. (at ≤ end) × (end ≤ length self.now)) }
    {
        let number = at / BLOCK + 1;
        let known = if number < self.ends.len() {
            self.ends[number]
        } else {
            None
        };
        end_before(self.strings, at, BLOCK * number, known)
    }

    /// The string that begins at an offset: the bytes from there to the first nul, without it. None exactly where the
    /// offset is past the table's end, or no nul stands from there on.
    #[tactic(auto, unfolding(crate::specs::Nul::string_at))]
    pub fn at(&self, at: usize) -> Option<&'a [u8]>
        ensures { option_copied result ≡ string_at self.now at }
    {
        if self.strings.len() < at {
            return None;
        }
        match self.end_from(at) {
            Some(end) => Some(&self.strings[at..end]),
            None => None,
        }
    }
}

/// The table of strings that may be there. The one error is out of memory.
pub(crate) fn table_of<'a>(
    alloc: Global,
    strings: Option<&'a [u8]>,
) -> Result<Option<StringTable<'a>>, AllocError>
    ensures { IfOk result (λ table. table ≡ option_copied strings.entry) }
{
    match strings {
        Some(strings) => Ok(Some(StringTable::of(alloc, strings)?)),
        None => Ok(None),
    }
}

/// The string that begins at an offset of a table that may be there.
pub fn string_in<'a>(table: &Option<StringTable<'a>>, at: u32) -> Option<&'a [u8]>
    ensures { option_copied result ≡ string_in table.now at }
{
    match table {
        Some(table) => table.at(at as usize),
        None => None,
    }
}
