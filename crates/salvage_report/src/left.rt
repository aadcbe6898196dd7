//! What is left of the process of a core.
ghost use Rattle.std.specs.Prelude.{◌≡◌, ◌≤◌, IfOk};
ghost use Rattle.image_memory.specs.Backed.{regions_of};
ghost use Rattle.process_memory.specs.Memory.{byte_at};
ghost use Rattle.py_fields.specs.Sound.{IsSound};
ghost use Rattle.py_records.specs.Versions.{records_of};
ghost use Rattle.py_process.specs.Facts.{known_of};
ghost use Rattle.memory_sections.specs.Told.{AreMemoryTold};
ghost use Rattle.salvage_words.specs.Seen.{asked_salvage};
ghost use Rattle.salvage_report.specs.Outcome.{IsAnswer, IsCoreOutcome, IsSalvagedBy};
ghost use Rattle.program_run.specs.Reading.{core_contents};
ghost use Rattle.core_stacks.specs.Named.{OpensOrNamed};
ghost use Rattle.salvage_report.specs.Seen.{Salvages, ShowsLeft};

use crate::cause::Cause;
use crate::crash::first_crash;
use crate::layout_check::check_section;
use crate::pointers::thread_pointers;
use crate::records::no_tables;
use crate::sections::{Told, tell_sections};
use crate::text::shown;
use core_stacks::{Process, open_named};
use elf64_core::Text;
use heap_search::salvage_or_search;
use image_memory::Images;
use memory_sections::{MemoryTold, tell_memory};
use missed_reads::{Missed, Misses};
use named_images::image_list;
use program_run::CoreFiles;
use py_fronts::{Crash, Salvaged, SalvagedInterpreter};
use py_layout::{Layouts, Version};
use py_process::CoreError;
use py_records::RecordTables;
use py_selftest::LayoutCheck;
use py_stacks::{Asked, LineNo, StackError};
use repr_json::ShownValues;
use salvage_words::{SalvageWords, Sections};
use shown_values::shown_values;
use std::alloc::{AllocError, Global};

/// What is left of a process: the signal that its core tells and the process, the version, what is left of its
/// interpreters, and what is told in the sections that are asked for.
#[derive(Drop)]
pub(crate) struct Left {
    pub(crate) signal: Option<i16>,
    pub(crate) process: Option<(i32, Text)>,
    pub(crate) version: Version,
    /// Whether the names of mapped files alone tell it; its patch isn't known then.
    pub(crate) named: bool,
    pub(crate) salvaged: Salvaged,
    pub(crate) told: Told,
    /// What the process says of its layout, where that is asked for.
    pub(crate) check: Option<LayoutCheck>,
    /// What is told in the sections that are read in its memory.
    pub(crate) memory: MemoryTold,
    /// The values of locals, as they are shown.
    pub(crate) values: ShownValues,
}

/// What is left of the interpreters of a process, or what the search of its heap finds. Reads that are refused are kept.
fn salvaged_of(
    alloc: Global,
    words: &SalvageWords,
    process: &Process,
    crash: Option<Crash>,
    misses: &mut Misses,
) -> Result<Salvaged, StackError>
    requires sound { IsSound process.now.layout }
    requires few { words.now.limit ≤ 4096 }
    ensures { Salvages (asked_salvage words.now) process.now crash result }
{
    let core = process.dump.core();
    let pointers = thread_pointers(alloc, core)?;
    let mut view = Missed::new(process.dump.view(), misses);
    let asked = Asked {
        lineno: LineNo::LastInstruction,
        locals: words.locals != 0,
    };
    salvage_or_search(
        alloc,
        &process.info,
        &mut view,
        core.machine(),
        &process.version,
        &process.layout,
        asked,
        words.limit,
        crash,
        core.maps(),
        &pointers,
    )
}

/// What is told in the sections that are read in the process's memory. Reads that are refused are kept.
fn memory_of(
    alloc: Global,
    asked: Sections,
    times: u64,
    tables: &RecordTables,
    images: &Images,
    process: &Process,
    interpreters: &[SalvagedInterpreter],
    misses: &mut Misses,
) -> Result<MemoryTold, AllocError>
    requires sound { IsSound process.now.layout }
    ensures { IfOk result (AreMemoryTold asked times process.now.dump.core images.now (known_of process.now.info)
        process.now.version process.now.layout (records_of tables.now process.now.version)
        (byte_at (regions_of process.now.dump))
        interpreters.now) }
{
    let records = tables.records_of(&process.version);
    tell_memory(
        alloc,
        asked,
        times,
        images,
        process,
        &records,
        interpreters,
        misses,
    )
}

/// What is left of an opened process, of which this was told.
fn left_of(
    process: Process,
    named: bool,
    salvaged: Salvaged,
    told: Told,
    check: Option<LayoutCheck>,
    memory: MemoryTold,
    values: ShownValues,
) -> Left
    ensures { result ≡ record {
      signal = process.notes.signal;
      process = process.notes.process;
      version = process.version;
      named = named;
      salvaged = salvaged;
      told = told;
      check = check;
      memory = memory;
      values = values;
    } }
{
    let Process { notes, version, .. } = process;
    Left {
        signal: notes.signal,
        process: notes.process,
        version,
        named,
        salvaged,
        told,
        check,
        memory,
        values,
    }
}

/// The text of what is left of an opened process, or that no interpreter is shown.
fn shown_left(
    alloc: Global,
    words: &SalvageWords,
    tables: &RecordTables,
    images: &Images,
    process: Process,
    crash: Option<Crash>,
    misses: &mut Misses,
) -> Result<Vec<u8>, Cause>
    requires sound { IsSound process.layout }
    requires few { words.now.limit ≤ 4096 }
    ensures { ShowsLeft (asked_salvage words.now) tables.now images.now process crash result }
{
    let salvaged = salvaged_of(alloc, words, &process, crash, misses)?;
    let check = check_section(
        alloc,
        words.sections.check_layout,
        &process,
        &salvaged.interpreters,
        misses,
    )?;
    let memory = memory_of(
        alloc,
        words.sections,
        words.locals,
        tables,
        images,
        &process,
        &salvaged.interpreters,
        misses,
    )?;
    let core = process.dump.core();
    let told = tell_sections(
        alloc,
        words.sections,
        core,
        &process.notes,
        &salvaged.interpreters,
        misses,
    )?;
    let values = shown_values(alloc, words.json, &memory.values, &salvaged.interpreters)?;
    if salvaged.interpreters.is_empty() {
        let (addresses, members) = (salvaged.looked.addresses, salvaged.looked.members);
        return Err(Cause::NoInterpreter { addresses, members });
    }
    let named = process.untold.is_some();
    let left = left_of(process, named, salvaged, told, check, memory, values);
    Ok(shown(alloc, words, &left)?)
}

/// Keeps the range at which the version can't be read: the one read that is refused where a process can't be opened, or
/// only by the names of files.
fn keep_version(opened: &Result<Process, CoreError>, misses: &mut Misses) {
    let untold = match opened {
        Ok(process) => process.untold.as_ref(),
        Err(error) => Some(error),
    };
    if let Some(CoreError::UnreadableVersion { addr, len }) = untold {
        misses.add(*addr, *len);
    }
}

/// Opens the process of a core, as `core_stacks::open_named` does. A read that is refused is kept.
fn open_keeping(
    alloc: Global,
    core: Vec<u8>,
    images: &Images,
    layouts: &Layouts,
    misses: &mut Misses,
) -> Result<Process, CoreError>
    ensures opens { OpensOrNamed core.items images.now layouts.now result }
    ensures sound { IfOk result (λ process. IsSound process.layout) }
{
    let opened = open_named(alloc, core, images, layouts);
    keep_version(&opened, misses);
    opened
}

/// The text of what is left of the process of a core, by its images, some layouts and some tables of records. Where the
/// names of files alone tell the version no table counts, since the patch isn't known.
fn salvage_core(
    alloc: Global,
    words: &SalvageWords,
    tables: &RecordTables,
    core: Vec<u8>,
    images: &Images,
    layouts: &Layouts,
    misses: &mut Misses,
) -> Result<Vec<u8>, Cause>
    requires few { words.now.limit ≤ 4096 }
    ensures { IsAnswer
        (IsSalvagedBy (asked_salvage words.now) tables.now core.items images.now layouts.now) result }
{
    let process = open_keeping(alloc, core, images, layouts, misses)?;
    let crash = first_crash(alloc, process.dump.core())?;
    if process.untold.is_some() {
        let none = no_tables(alloc)?;
        return shown_left(alloc, words, &none, images, process, crash, misses);
    }
    shown_left(alloc, words, tables, images, process, crash, misses)
}

/// The text of what is left, over what the files hold, by these tables of records. Reads that are refused are kept.
pub(crate) fn salvage_over(
    alloc: Global,
    words: &SalvageWords,
    tables: &RecordTables,
    files: CoreFiles,
    misses: &mut Misses,
) -> Result<Vec<u8>, Cause>
    requires few { words.now.limit ≤ 4096 }
    ensures { IsAnswer (IsCoreOutcome (asked_salvage words.now) tables.now (core_contents files)) result }
{
    let CoreFiles {
        core,
        layouts,
        images,
    } = files;
    let layouts = Layouts::from_toml(alloc, &layouts)?;
    let images = image_list(alloc, &words.images, images)?;
    salvage_core(alloc, words, tables, core, &images, &layouts, misses)
}
