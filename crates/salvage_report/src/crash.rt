//! The thread that got the signal, by the first status record of a core.
ghost use Rattle.std.specs.Prelude.{◌≡◌, IfOk, map};
ghost use Rattle.elf64_core.specs.Notes.{noted};
ghost use Rattle.salvage_report.specs.Crashed.{CrashTold, crash_among, told_by};

use elf64_core::{Machine, Note};
use image_memory::{CoreDump, NT_PRSTATUS, first_desc};
use py_fronts::{Crash, crash_of};
use std::alloc::{AllocError, Global};

/// How many bytes a status record has at least.
const STATUS_SIZE: usize = 112;

/// The thread of a status record, where it has all its bytes.
fn crash_in(machine: Machine, status: &[u8]) -> Option<Crash>
    ensures { result ≡ told_by machine status.now }
{
    if status.len() < STATUS_SIZE {
        return None;
    }
    crash_of(machine, status)
}

/// The thread of the first status record among some notes.
fn crash_by(machine: Machine, notes: &[Note<'_>]) -> Option<Crash>
    ensures { result ≡ crash_among machine (map noted notes.now) }
{
    match first_desc(notes, NT_PRSTATUS) {
        Some(status) => crash_in(machine, status),
        None => None,
    }
}

/// The thread that got the signal, by the first status record of a core. The one error is out of memory.
pub(crate) fn first_crash(alloc: Global, core: &CoreDump) -> Result<Option<Crash>, AllocError>
    ensures { IfOk result (CrashTold core.now) }
{
    let notes = core.notes(alloc)?;
    Ok(crash_by(core.machine(), &notes))
}
