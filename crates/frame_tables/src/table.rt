//! A file's table of entries, and the entry that covers an address.
ghost use Rattle.std.specs.Prelude.{◌≡◌, ◌≤◌, ◌<◌, ◌+◌, ◌-◌, ◌^◌, ◌⊎◌, List, ℕ, Result, Option, Ok, None, IfOk};
ghost use Rattle.std.specs.Prelude.{IfErr, IfSome, length, option_copied};
ghost use Rattle.elf64_core.specs.Header.{IsElf64, HasSegments, IsAccepted};
ghost use Rattle.frame_tables.specs.Rows.{IsEntryRow, between, expression_of};
ghost use Rattle.frame_tables.specs.declared.header.Heading.{Heading as HeadingValue};
ghost use Rattle.frame_rows.specs.declared.program.RowError.{RowError as RowErrorValue};
ghost use Rattle.frame_rows.specs.declared.row.Row.{Row as RowValue};
ghost use Rattle.frame_tables.specs.Headers.{Opens, HasPairs, heading_of, pair_at};
ghost use Rattle.frame_tables.specs.Records.{Fits, bytes_of, entry_at};
ghost use Rattle.frame_tables.specs.Tables.{covers, covering, Covers, Finds, numbered, IsNamed, IsTidy, Ascends};
ghost use Rattle.frame_tables.specs.Tables.{CoversNone, Parses};
ghost use Rattle.frame_tables.specs.declared.flaw.TableError.{TableError as TableErrorValue};
ghost use Rattle.frame_tables.specs.declared.flaw.RecordError.{RecordError as RecordErrorValue};
ghost use Rattle.frame_tables.specs.declared.record.Entry.{Entry as EntryValue};

use crate::flaw::{RecordError, TableError};
use crate::header::{Heading, heading_of};
use crate::record::{Entry, entry_at};
use elf64_core::{Elf64, ElfError};
use frame_rows::{Row, RowError, row_at};
use std::marker::Model;

/// The table of the entries of a file. Nothing of it is copied.
///
/// Contracts see it as the list of the file's bytes.
#[derive(Drop)]
pub struct Table<'a> {
    file: &'a [u8],
    elf: Elf64<'a>,
    heading: Heading,
}

impl<'a> Model for Table<'a> {
    ghost use Rattle.std.specs.Prelude.{List, ℕ};
    ghost use Rattle.frame_tables.specs.Tables.{IsTable};

    ghost Value = { List ℕ };

    ghost view = { λ t. t.file.now };

    ghost invariant = { λ t. IsTable t.file.now t.elf t.heading };
}

/// The file as ELF.
fn parsed(file: &[u8]) -> Result<Elf64<'_>, TableError>
    ensures { Parses file.now result }
{
    match Elf64::parse(file) {
        Ok(elf) => Ok(elf),
        Err(ElfError::NotElf64) => Err(TableError::NotElf),
        Err(ElfError::BadHeader) => Err(TableError::BadHeaders),
        Err(ElfError::BadNote) => Err(TableError::BadHeaders),
        Err(ElfError::OutOfMemory) => Err(TableError::BadHeaders),
    }
}

impl Entry {
    /// Whether it covers an address.
    pub fn covers(&self, address: u64) -> bool
        ensures { result ≡ covers address self.now }
    {
        self.begin <= address && address - self.begin < self.size
    }
}

/// The entry, if it covers an address.
fn covering(entry: Entry, address: u64) -> Option<Entry>
    ensures { result ≡ covering address entry }
{
    if entry.covers(address) {
        Some(entry)
    } else {
        None
    }
}

impl<'a> Table<'a> {
    /// The table of a file's bytes, which a segment PT_GNU_EH_FRAME names; the error says why it has none that is read
    /// here. Each `TableError` comes exactly where its text says, the first of them in the order of their list.
    pub fn of(file: &'a [u8]) -> Result<Table<'a>, TableError>
        ensures right { Opens file.now result }
        ensures only { (other : Result (List ℕ) TableErrorValue) → Opens file.now other → other ≡ result }
    {
        let elf = match parsed(file) {
            Ok(elf) => elf,
            Err(error) => return Err(error),
        };
        match heading_of(&elf, file) {
            Ok(heading) => Ok(Table { file, elf, heading }),
            Err(error) => Err(error),
        }
    }

    /// The entry that covers an address, by the last pair whose first address is at most the address; none where that
    /// one's entry does not cover it. It takes as many looks at pairs as it takes to halve the table.
    ///
    /// What is found is named by the table and covers the address. Where the table is tidy, none means that none of its
    /// entries covers the address. A record that can't be read is an error.
    pub fn find(&self, address: u64) -> Result<Option<Entry>, RecordError>
        ensures right { Finds self.now address result }
        ensures only { Ascends self.now → (other : Result (Option EntryValue) RecordErrorValue)
            → Finds self.now address other → other ≡ result }
        ensures named { IfOk result (λ found. IfSome found (IsNamed self.now)) }
        ensures covered { IfOk result (λ found. IfSome found (Covers address)) }
        ensures fits { IfOk result (λ found. IfSome found (Fits (length self.now))) }
        ensures none { IsTidy self.now → result ≡ Ok None → CoversNone self.now address }
    {
        self.look_up(address)
    }

    /// The same.
    fn look_up(&self, address: u64) -> Result<Option<Entry>, RecordError>
        ensures right { Finds self.now address result }
        ensures named { IfOk result (λ found. IfSome found (IsNamed self.now)) }
        ensures covered { IfOk result (λ found. IfSome found (Covers address)) }
        ensures fits { IfOk result (λ found. IfSome found (Fits (length self.now))) }
    {
        let count = self.heading.pairs_to(self.file, address);
        if count == 0 {
            return Ok(None);
        }
        let pair = self.heading.pair_at(self.file, count - 1);
        match entry_at(&self.elf, self.file, self.heading.machine, pair.place) {
            Ok(entry) => Ok(covering(entry, address)),
            Err(error) => Err(error),
        }
    }

    /// The entry of a pair, by its number, from 0 on; none exactly where there are no more. A record that can't be read
    /// is an error.
    pub fn entry(&self, number: usize) -> Result<Option<Entry>, RecordError>
        ensures numbered { (h : HeadingValue) → heading_of self.now ≡ Ok h → result ≡ numbered self.now h number }
        ensures fits { IfOk result (λ found. IfSome found (Fits (length self.now))) }
    {
        if number >= self.heading.count {
            return Ok(None);
        }
        let pair = self.heading.pair_at(self.file, number);
        match entry_at(&self.elf, self.file, self.heading.machine, pair.place) {
            Ok(entry) => Ok(Some(entry)),
            Err(error) => Err(error),
        }
    }

    /// The row of an entry at an address: what its instructions come to, up to the last whose location is at most the
    /// address, with at most 64 rows remembered. It takes no memory; `room` can be used again.
    ///
    /// There is none where a place is reached at which no instruction stands, or one that can't be followed. Places,
    /// in the error and in the row's expressions, count over the initial instructions and the entry's own, one behind
    /// the other.
    pub fn row(&self, entry: &Entry, address: u64, room: &mut Room) -> Result<Row, RowError>
        requires fits { Fits (length self.now) entry.now }
        requires begun { entry.now.begin ≤ address }
        ensures right { IsEntryRow self.now entry.now address result }
        ensures only { (other : Result RowValue RowErrorValue)
            → IsEntryRow self.now entry.now address other → other ≡ result }
    {
        let initial = &self.file[entry.initial.start..entry.initial.end];
        let own = &self.file[entry.own.start..entry.own.end];
        let (convention, begin) = (&entry.convention, entry.begin);
        row_at(convention, initial, own, begin, address, &mut room.rows)
    }

    /// The bytes of an expression of one of the entry's rows, by its places; none exactly where these are neither in
    /// the initial instructions nor in its own.
    pub fn expression(&self, entry: &Entry, start: usize, end: usize) -> Option<&'a [u8]>
        requires fits { Fits (length self.now) entry.now }
        ensures { option_copied result ≡ expression_of self.now entry.now start end }
    {
        let initial = &self.file[entry.initial.start..entry.initial.end];
        let own = &self.file[entry.own.start..entry.own.end];
        between(initial, own, start, end)
    }
}

/// The bytes from `start` up to `end` of two programs, one behind the other; none exactly where they are in neither.
fn between<'a>(initial: &'a [u8], own: &'a [u8], start: usize, end: usize) -> Option<&'a [u8]>
    ensures { option_copied result ≡ between initial.now own.now start end }
{
    if start > end {
        return None;
    }
    if end <= initial.len() {
        return Some(&initial[start..end]);
    }
    if start < initial.len() || end - initial.len() > own.len() {
        return None;
    }
    Some(&own[start - initial.len()..end - initial.len()])
}

/// Room for the rows that an entry's instructions remember: 64 of them.
#[derive(Drop)]
pub struct Room {
    rows: [Row; 64],
}

impl Room {
    /// Room that is made once and used for many rows.
    pub fn new() -> Room {
        Room {
            rows: [Row::new(); 64],
        }
    }
}
