//! Lists of tables of records of which each is sound, and no two have the same group for one version.
ghost use Rattle.std.specs.Prelude.{◌≡◌, ◌≢◌, ℕ, List, Result, Ok, Err, ◌↔◌, IsTrue, IsOk, IsNone, MatchOption, IfOk};
ghost use Rattle.std.specs.Prelude.{IfErr, IfSome, All, AllPairs, Contains, length};
ghost use Rattle.std.specs.List.{AllWithin};
ghost use Rattle.elf64_core.specs.Outcomes.{IsUnless};
ghost use Rattle.py_records.specs.Table.{IsSoundTable, Clash};
ghost use Rattle.py_records.specs.Records.{AreSoundRecords};
ghost use Rattle.py_records.specs.Lists.{AreSound, IsFirstUnsound, IsFirstFrom, IsFirstClash, IsOfList};
ghost use Rattle.py_records.specs.File.{IsRightFor};
ghost use Rattle.py_records.specs.Versions.{records_of};
ghost use Rattle.py_records.specs.declared.error.RecordsError.{RecordsError};
ghost use Rattle.py_records.specs.declared.table.RecordTable.{RecordTable};

use crate::error::RecordsError;
use crate::file::tables_from_toml;
use crate::records::{Records, joined, no_records};
use crate::table::{RecordTable, clashes, is_sound_table};
use py_fields::Version;
use std::alloc::Global;
use std::marker::Model;

/// A list of tables of records of which each is sound, and no two have the same group for one version.
///
/// Contracts see it as the list. `is_sound` has the rules of sound records.
#[derive(Drop)]
pub struct RecordTables {
    list: Vec<RecordTable>,
}

impl Model for RecordTables {
    ghost use Rattle.std.specs.Prelude.{List};
    ghost use Rattle.py_records.specs.declared.table.RecordTable.{RecordTable};
    ghost use Rattle.py_records.specs.Lists.{AreSound};

    ghost Value = { List RecordTable };

    ghost view = { λ t. t.list.items };

    ghost invariant = { λ t. AreSound t.list.items };
}

/// The place of the first table that is not sound.
fn first_unsound(list: &[RecordTable]) -> Option<usize>
    ensures { MatchOption result (All IsSoundTable list.now) (IsFirstUnsound list.now) }
{
    for (place, table) in list.iter().enumerate() {
        if !is_sound_table(table) {
            return Some(place);
        }
    }
    None
}

/// The place of the first table, from `start` on, that clashes with this one.
fn first_clash_with(table: &RecordTable, list: &[RecordTable], start: usize) -> Option<usize>
    ensures { MatchOption result
        (AllWithin (λ other. ¬ Clash table.now other) list.now start (length list.now))
        (IsFirstFrom (Clash table.now) list.now start) }
{
    for place in start..list.len() {
        if clashes(table, &list[place]) {
            return Some(place);
        }
    }
    None
}

/// The places of the first two tables that clash.
fn first_clash(list: &[RecordTable]) -> Option<(usize, usize)>
    ensures { MatchOption result
        (AllPairs (λ one other. ¬ Clash one other) list.now)
        (λ pair. IsFirstClash list.now pair.0 pair.1) }
{
    for (first, table) in list.iter().enumerate() {
        if let Some(second) = first_clash_with(table, list, first + 1) {
            return Some((first, second));
        }
    }
    None
}

/// The records of a version in a list of tables.
fn records_of(list: &[RecordTable], version: &Version) -> Records
    ensures { result ≡ records_of list.now version.now }
{
    let mut found = no_records();
    for table in list.iter().rev() {
        if table.covers(version) {
            found = joined(&table.records, &found);
        }
    }
    found
}

impl RecordTables {
    /// The tables of a list, where each is sound and no two clash. It takes no memory.
    ///
    /// `Unsound` comes exactly where a table is not sound, and names the first. `Clash` comes exactly
    /// where all are sound and two clash, and names the first pair: by the first of the two, then by
    /// the second. No other error comes.
    pub fn of(_alloc: Global, list: Vec<RecordTable>) -> Result<RecordTables, RecordsError>
        ensures value { IfOk result (λ tables. tables ≡ list.items) }
        ensures ok { IsOk result ↔ AreSound list.items }

        ensures unsound { (table : ℕ)
            → (result ≡ Err (RecordsError.Unsound table)) ↔ IsFirstUnsound list.items table }
        ensures clash { (first second : ℕ)
            → (result ≡ Err (RecordsError.Clash first second))
            ↔ (All IsSoundTable list.items × IsFirstClash list.items first second) }
        ensures errors { IfErr result IsOfList }
    {
        if let Some(table) = first_unsound(&list) {
            let table = table as u64;
            return Err(RecordsError::Unsound { table });
        }
        if let Some((first, second)) = first_clash(&list) {
            let (first, second) = (first as u64, second as u64);
            return Err(RecordsError::Clash { first, second });
        }
        Ok(RecordTables { list })
    }

    /// The tables of a file: TOML with one top key, `records`, an array of tables, which may be empty.
    ///
    /// A table has the numbers `major`, `minor`, `first_patch` and `last_patch`, and any of the groups of
    /// `Records`, each with all its keys, which are the fields. Causes are looked for in this order:
    ///
    /// - `NotToml`: the text is not UTF-8, or not TOML. TOML's integers are those of an i64.
    /// - `Shape` at the top of the file, which counts as table 0: `records` where it is missing or no
    ///   array, and else the first other key.
    /// - `Shape` in the first table that has a flaw: the first key, in the order of the fields of
    ///   `RecordTable` and `Records`, that is missing or has the wrong kind; else the first unknown key of
    ///   the table, by bytes; else that of its first group with one. A key of a group is named
    ///   `group.key`, and an element of the array that is no table `records`.
    /// - `Unsound` and `Clash`, as `of` has them.
    ///
    /// `OutOfMemory` may come in place of any other answer.
    pub fn from_toml(alloc: Global, text: &[u8]) -> Result<RecordTables, RecordsError>
        ensures right { IsRightFor text.now result }
        ensures only { (answer : Result (List RecordTable) RecordsError)
            → IsRightFor text.now answer
            → answer ≢ Err RecordsError.OutOfMemory
            → IsUnless RecordsError.OutOfMemory answer result }
    {
        RecordTables::of(alloc, tables_from_toml(alloc, text)?)
    }

    /// The records of a version: each group that a table has which covers the version, and no other. There is
    /// one such table at most for each group. Where no table covers the version no group is there.
    pub fn records_of(&self, version: &Version) -> Records
        ensures value { result ≡ records_of self.now version.now }
        ensures sound { AreSoundRecords result }
    {
        records_of(&self.list, version)
    }
}
