//! The sections of what is told of a process, each asked for by a flag of its own.
ghost use Rattle.std.specs.Prelude.{◌≡◌, IfOk, map, option_map};
ghost use Rattle.elf64_core.specs.Notes.{noted};
ghost use Rattle.crash_signal.specs.Signals.{signal_told};
ghost use Rattle.thread_registers.specs.Threads.{threads_told};
ghost use Rattle.memory_sections.specs.Pythons.{python_threads};
ghost use Rattle.salvage_report.specs.Sections.{AreTold, if_asked, own_id};
ghost use Rattle.salvage_report.specs.Sections.{missing_shown, registers_shown};
ghost use Rattle.missed_reads.specs.Told.{told_of};

use core_stacks::Notes;
use crash_signal::{CrashSignal, Untold, read_signal};
use elf64_core::{Machine, Note, Text};
use image_memory::CoreDump;
use memory_sections::python_threads;
use missed_reads::{MissedBlocks, Misses, missed_blocks};
use py_fronts::SalvagedInterpreter;
use salvage_words::Sections;
use std::alloc::{AllocError, Global};
use thread_registers::{ThreadRegisters, read_threads};

/// What is told in each section: none in one that isn't asked for.
#[derive(Drop)]
pub(crate) struct Told {
    /// How the signal came about, or why that is not told.
    pub(crate) signal: Option<Result<CrashSignal, Untold>>,
    /// The threads of the status records, with their registers.
    pub(crate) registers: Option<Vec<ThreadRegisters>>,
    /// Which reads were refused.
    pub(crate) missing: Option<MissedBlocks>,
}

/// The process's own id.
fn own_id(process: &Option<(i32, Text)>) -> Option<i32>
    ensures { result ≡ own_id process.now }
{
    match process {
        Some((pid, _)) => Some(*pid),
        None => None,
    }
}

/// How the signal came about.
fn signal_section(
    asked: bool,
    own: Option<i32>,
    notes: &[Note<'_>],
) -> Option<Result<CrashSignal, Untold>>
    ensures { result ≡ if_asked asked (signal_told own (map noted notes.now)) }
{
    if asked {
        Some(read_signal(own, notes))
    } else {
        None
    }
}

/// The threads of the status records, with their registers.
fn registers_section(
    alloc: Global,
    asked: bool,
    machine: Machine,
    notes: &[Note<'_>],
    interpreters: &[SalvagedInterpreter],
) -> Result<Option<Vec<ThreadRegisters>>, AllocError>
    ensures { IfOk result (λ threads. registers_shown threads
        ≡ if_asked asked (threads_told machine (python_threads interpreters.now) (map noted notes.now))) }
{
    if !asked {
        return Ok(None);
    }
    let pythons = python_threads(alloc, interpreters)?;
    let threads = read_threads(alloc, machine, notes, &pythons)?;
    Ok(Some(threads))
}

/// Which reads were refused.
fn missing_section(
    alloc: Global,
    asked: bool,
    misses: &Misses,
) -> Result<Option<MissedBlocks>, AllocError>
    ensures { IfOk result (λ missing. missing_shown missing ≡ if_asked asked (told_of misses.now)) }
{
    if !asked {
        return Ok(None);
    }
    Ok(Some(missed_blocks(alloc, misses)?))
}

/// What is told in the sections that are asked for, by the notes of a core, what is left of its interpreters, and which
/// reads were refused. The one error is out of memory.
pub(crate) fn tell_sections(
    alloc: Global,
    asked: Sections,
    core: &CoreDump,
    notes: &Notes,
    interpreters: &[SalvagedInterpreter],
    misses: &Misses,
) -> Result<Told, AllocError>
    ensures { IfOk result (AreTold asked core.now notes.now.process interpreters.now) }
{
    let all = core.notes(alloc)?;
    let signal = signal_section(asked.signal, own_id(&notes.process), &all);
    let registers = registers_section(alloc, asked.registers, core.machine(), &all, interpreters)?;
    let missing = missing_section(alloc, asked.missing, misses)?;
    Ok(Told {
        signal,
        registers,
        missing,
    })
}
