//! The file of records, where one is named: what sections need of CPython beyond the layouts.
ghost use Rattle.std.specs.Prelude.{◌≡◌, ◌≤◌, [], MatchResult};
ghost use Rattle.py_records.specs.File.{IsRightFor};
ghost use Rattle.program_run.specs.Reading.{core_contents};
ghost use Rattle.salvage_words.specs.Seen.{asked_salvage};
ghost use Rattle.salvage_report.specs.Outcome.{IsAnswer, IsOutcomeWith};
ghost use Rattle.salvage_report.specs.Reading.{HasRecords, bytes_of_records};

use crate::cause::Cause;
use crate::left::salvage_over;
use elf64_core::Name;
use missed_reads::Misses;
use outside::Files;
use program_run::{CoreFiles, FileTrouble, read_file};
use py_records::RecordTables;
use salvage_words::SalvageWords;
use std::alloc::Global;

/// Reads the file of records, where one is named, as `program_run::read_file` does.
pub(crate) fn read_records<'a, F: Files>(
    alloc: Global,
    name: &'a Option<Name>,
    files: &mut F,
) -> Result<Option<Vec<u8>>, FileTrouble<'a>>
    ensures told { (F.seen files.new).told ≡ (F.seen files.old).told }
    ensures read { HasRecords (F.seen files.old) (F.seen files.new) name.now result }
{
    match name {
        Some(name) => Ok(Some(read_file(alloc, name.as_bytes(), files)?)),
        None => Ok(None),
    }
}

/// No table of records. The one error is out of memory.
pub(crate) fn no_tables(alloc: Global) -> Result<RecordTables, Cause>
    ensures { MatchResult result (λ tables. tables ≡ []) (λ cause. cause ≡ Cause.OutOfMemory) }
{
    match RecordTables::of(alloc, Vec::new(alloc)) {
        Ok(tables) => Ok(tables),
        Err(_) => Err(Cause::OutOfMemory),
    }
}

/// The text of what is left, over what the files hold: the records are judged first, where there are some, and there is
/// none where no file is named.
pub(crate) fn salvage_with(
    alloc: Global,
    words: &SalvageWords,
    records: Option<Vec<u8>>,
    files: CoreFiles,
    misses: &mut Misses,
) -> Result<Vec<u8>, Cause>
    requires few { words.now.limit ≤ 4096 }
    ensures { IsAnswer
        (IsOutcomeWith (bytes_of_records records) (asked_salvage words.now) (core_contents files)) result }
{
    let Some(text) = records else {
        let Ok(tables) = RecordTables::of(alloc, Vec::new(alloc)) else {
            return Err(Cause::OutOfMemory);
        };
        return salvage_over(alloc, words, &tables, files, misses);
    };
    let tables = RecordTables::from_toml(alloc, &text)?;
    salvage_over(alloc, words, &tables, files, misses)
}
