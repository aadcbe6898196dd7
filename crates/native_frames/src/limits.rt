//! How much is read of stacks at most.
ghost use Rattle.std.specs.Prelude.{◌≡◌, ◌<◌, map, option_copied};
ghost use Rattle.elf64_core.specs.Notes.{noted};
ghost use Rattle.native_frames.specs.Limits.{address_bits, code_bits, frame_machine, limit_of};

use elf64_core::{Machine as ElfMachine, Note, u64_in};
use frame_rows::Machine;
use image_memory::first_desc;

/// How many frames a thread has at most beside its newest one.
const MOST_CALLERS: usize = 1_048_575;

/// How many frames a stack has at most, where so many are left to the process: its newest one is always told.
pub(crate) fn limit_of(left: usize) -> usize
    ensures is { result ≡ limit_of left }
    ensures some { 0 < result }
{
    1 + left.min(MOST_CALLERS)
}

/// The machine of a core, where its registers are told.
pub fn frame_machine(machine: ElfMachine) -> Option<Machine>
    ensures { result ≡ frame_machine machine }
{
    match machine {
        ElfMachine::X86_64 => Some(Machine::X86_64),
        ElfMachine::Aarch64 => Some(Machine::Aarch64),
        ElfMachine::Other => None,
    }
}

/// The kind of the note that says which bits of addresses are signatures (NT_ARM_PAC_MASK of `elf.h`).
const SIGNED_BITS: u32 = 0x406;

/// The bits of an address, by the masks of those that are not: of data's, and behind them of code's. Without them the
/// lowest 48.
fn address_bits(masks: Option<&[u8]>) -> u64
    ensures { result ≡ address_bits (option_copied masks.entry) }
{
    match masks {
        Some(masks) => {
            if masks.len() < 16 {
                0xffff_ffff_ffff
            } else {
                u64::MAX - u64_in(masks, 8)
            }
        }
        None => 0xffff_ffff_ffff,
    }
}

/// Which bits of a return address that is signed are those of the address, by the notes of a core.
pub fn code_bits(machine: ElfMachine, notes: &[Note<'_>]) -> u64
    ensures { result ≡ code_bits machine (map noted notes.now) }
{
    match machine {
        ElfMachine::X86_64 => u64::MAX,
        ElfMachine::Aarch64 => {
            let masks = first_desc(notes, SIGNED_BITS);
            address_bits(masks)
        }
        ElfMachine::Other => u64::MAX,
    }
}
