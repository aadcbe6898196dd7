//! What the notes of a core tell of the process.
ghost use Rattle.std.specs.Prelude.{◌≡◌, IfOk};
ghost use Rattle.bstr.specs.Utf8.{lossy_chars};
ghost use Rattle.py_process.specs.Reports.{NotesTell, up_to_nul};
ghost use Rattle.core_stacks.specs.Notes.{IsProcessTold, IsSignal};

use elf64_core::{Name, Text, until_nul};
use image_memory::{CoreDump, elf_prpsinfo};
use std::alloc::{AllocError, Global};

/// What the notes of a core tell of the process.
#[derive(Drop)]
pub struct Notes {
    /// The signal of the first status record, where there is one.
    pub signal: Option<i16>,
    /// The process's id and its arguments, of the last process record, where there is one.
    pub process: Option<(i32, Text)>,
}

/// The bytes up to the first nul, or all of them.
fn front(bytes: &[u8]) -> &[u8]
    ensures { result.now ≡ up_to_nul bytes.now }
{
    match until_nul(bytes) {
        Some(front) => front,
        None => bytes,
    }
}

/// The arguments of a process, up to the first nul; what is no UTF-8 is replaced.
fn arguments_of(alloc: Global, process: &elf_prpsinfo) -> Result<Text, AllocError>
    ensures { IfOk result (λ text. text ≡ lossy_chars (up_to_nul process.now.pr_psargs)) }
{
    let arguments = Name::of(alloc, front(&process.pr_psargs))?;
    arguments.lossy(alloc)
}

/// The signal of the first status record, where there is one.
fn signal_of(core: &CoreDump) -> Option<i16>
    ensures { IsSignal core.now result }
{
    match core.status() {
        [status, ..] => Some(status.pr_cursig),
        [] => None,
    }
}

/// The process's id and its arguments, of the last process record, where there is one.
fn process_in_notes(alloc: Global, core: &CoreDump) -> Result<Option<(i32, Text)>, AllocError>
    ensures { IfOk result (IsProcessTold core.now) }
{
    match core.psinfo() {
        Some(process) => {
            let arguments = arguments_of(alloc, process)?;
            let pid = process.pr_pid;
            Ok(Some((pid, arguments)))
        }
        None => Ok(None),
    }
}

/// What the notes of a core tell. The one error is out of memory.
pub(crate) fn notes_of(alloc: Global, core: &CoreDump) -> Result<Notes, AllocError>
    ensures { IfOk result (λ notes. NotesTell core.now notes.signal notes.process) }
{
    let signal = signal_of(core);
    let process = process_in_notes(alloc, core)?;
    Ok(Notes { signal, process })
}
