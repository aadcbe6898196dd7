//! The stack pointers of the threads of a core.
ghost use Rattle.std.specs.Prelude.{◌≡◌, ◌++◌, IfOk, OnOk, map, option_to_list};
ghost use Rattle.elf64_core.specs.Notes.{noted};
ghost use Rattle.core_unwind.specs.Registers.{stack_pointer};
ghost use Rattle.paired_stacks.specs.Starts.{start_by, start_in, start_noted, starts_of};

use core_unwind::thread_state;
use elf64_core::{Machine as ElfMachine, Note};
use frame_rows::Machine;
use image_memory::NT_PRSTATUS;
use native_frames::frame_machine;
use std::alloc::{AllocError, Global};

/// How many bytes a status record has at least.
const STATUS_SIZE: usize = 112;

/// Which register is the stack pointer, by its DWARF number.
fn stack_pointer(machine: Machine) -> usize
    ensures { result ≡ stack_pointer machine }
{
    match machine {
        Machine::X86_64 => 7,
        Machine::Aarch64 => 31,
    }
}

/// The stack pointer of the thread of a status record of a machine.
fn start_by(machine: Machine, status: &[u8]) -> Option<u64>
    ensures { result ≡ start_by machine status.now }
{
    match thread_state(machine, status) {
        Some(state) => state.registers[stack_pointer(machine)],
        None => None,
    }
}

/// The same, where the machine's registers are known.
fn start_in(machine: ElfMachine, status: &[u8]) -> Option<u64>
    ensures { result ≡ start_in machine status.now }
{
    match frame_machine(machine) {
        Some(machine) => start_by(machine, status),
        None => None,
    }
}

/// Adds what a note says, if it is a status record.
#[tactic(auto, unfolding(crate::specs::Starts::start_noted))]
fn push_start(
    starts: &mut Vec<Option<u64>>,
    machine: ElfMachine,
    note: &Note<'_>,
) -> Result<(), AllocError>
    ensures { OnOk result (starts.new.items ≡ starts.old.items
        ++ option_to_list (start_noted machine (noted note.now))) }
{
    if note.kind == NT_PRSTATUS && note.desc.len() >= STATUS_SIZE {
        starts.push(start_in(machine, note.desc))?;
    }
    Ok(())
}

/// The stack pointers of the threads of a core, by the status records among its notes, in their order: of each record,
/// where it tells it. So the threads of `native_stacks::read_native_stacks` stand too. The one error is out of memory.
pub fn starts_of(
    alloc: Global,
    machine: ElfMachine,
    notes: &[Note<'_>],
) -> Result<Vec<Option<u64>>, AllocError>
    ensures { IfOk result (λ starts. starts.items ≡ starts_of machine (map noted notes.now)) }
{
    let mut starts = Vec::new(alloc);
    for note in notes {
        push_start(&mut starts, machine, note)?;
    }
    Ok(starts)
}
