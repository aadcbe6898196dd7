//! The thread pointers of a process, by the status records of its core.
ghost use Rattle.std.specs.Prelude.{◌≡◌, ◌≤◌, ◌++◌, IfOk, OnOk, length, map, option_to_list};
ghost use Rattle.elf64_core.specs.Notes.{noted};
ghost use Rattle.py_fronts.specs.Crashes.{thread_pointer};
ghost use Rattle.salvage_report.specs.Pointers.{PointersTold, pointer_noted, pointers_of};

use elf64_core::{Machine, Note};
use image_memory::{CoreDump, NT_PRSTATUS};
use py_fronts::status_thread;
use std::alloc::{AllocError, Global};

/// How many bytes a status record has at least.
const STATUS_SIZE: usize = 112;

/// The thread pointer of a status record, where it has the registers of x86-64.
fn pointer_in(machine: Machine, status: &[u8]) -> Option<u64>
    requires { 112 ≤ length status.now }
    ensures { result ≡ thread_pointer machine status.now }
{
    let thread = status_thread(machine, status);
    thread.thread_pointer
}

/// The thread pointer that a note tells, if it is a status record with the registers of x86-64.
#[tactic(auto, unfolding(crate::specs::Pointers::pointer_noted))]
fn pointer_noted(machine: Machine, note: &Note<'_>) -> Option<u64>
    ensures { result ≡ pointer_noted machine (noted note.now) }
{
    if note.kind == NT_PRSTATUS && note.desc.len() >= STATUS_SIZE {
        return pointer_in(machine, note.desc);
    }
    None
}

/// Adds a thread pointer, if there is one.
fn add_pointer(pointers: &mut Vec<u64>, pointer: Option<u64>) -> Result<(), AllocError>
    ensures { OnOk result (pointers.new.items ≡ pointers.old.items ++ option_to_list pointer) }
{
    match pointer {
        None => Ok(()),
        Some(pointer) => {
            pointers.push(pointer)?;
            Ok(())
        }
    }
}

/// The thread pointers that some notes tell, in their order.
fn pointers_of(alloc: Global, machine: Machine, notes: &[Note<'_>]) -> Result<Vec<u64>, AllocError>
    ensures { IfOk result (λ pointers. pointers.items ≡ pointers_of machine (map noted notes.now)) }
{
    let mut pointers = Vec::new(alloc);
    for note in notes {
        add_pointer(&mut pointers, pointer_noted(machine, note))?;
    }
    Ok(pointers)
}

/// The thread pointers of the process of a core: of each status record of x86-64 that has its registers, in their
/// order. The one error is out of memory.
pub(crate) fn thread_pointers(alloc: Global, core: &CoreDump) -> Result<Vec<u64>, AllocError>
    ensures { IfOk result (λ pointers. PointersTold core.now pointers.items) }
{
    let notes = core.notes(alloc)?;
    let pointers = pointers_of(alloc, core.machine(), &notes)?;
    Ok(pointers)
}
