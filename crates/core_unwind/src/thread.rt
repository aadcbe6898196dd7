//! The state of a thread as a status record tells it.
ghost use Rattle.std.specs.Prelude.{◌≡◌};
ghost use Rattle.core_unwind.specs.Told.{counter_slot, slot_in, slot_of, thread_state, told, word_told};
ghost use Rattle.core_unwind.specs.Values.{listed};

use crate::state::State;
use elf64_core::u64_in;
use frame_rows::Machine;

/// Where the registers begin in a status record.
const REGISTERS: usize = 112;

/// How many frames of signals a stack has at most.
const MOST_SIGNALS: u32 = 64;

/// How many bytes of instructions are read for a stack at most.
const MOST_BYTES: u128 = 67_108_864;

/// Which word of the registers of a status record of x86-64 has the register of a number, by `user_regs_struct`.
fn slot_in(register: usize) -> Option<usize>
    ensures { result ≡ slot_in register }
{
    match register {
        0 => Some(10),
        1 => Some(12),
        2 => Some(11),
        3 => Some(5),
        4 => Some(13),
        5 => Some(14),
        6 => Some(4),
        7 => Some(19),
        8 => Some(9),
        9 => Some(8),
        10 => Some(7),
        11 => Some(6),
        12 => Some(3),
        13 => Some(2),
        14 => Some(1),
        15 => Some(0),
        16 => Some(16),
        _ => None,
    }
}

/// Which word of the registers has the register of a DWARF number, if one has it.
fn slot_of(machine: Machine, register: usize) -> Option<usize>
    ensures { result ≡ slot_of machine register }
{
    match machine {
        Machine::X86_64 => slot_in(register),
        Machine::Aarch64 => Some(register),
    }
}

/// A word of the registers of a status record, if it has that.
fn word_told(status: &[u8], slot: usize) -> Option<u64>
    ensures { result ≡ word_told status.now slot }
{
    if slot > 32 || status.len() < REGISTERS + 8 * slot + 8 {
        return None;
    }
    Some(u64_in(status, REGISTERS + 8 * slot))
}

/// What a status record tells of the register of a DWARF number.
fn told(machine: Machine, status: &[u8], register: usize) -> Option<u64>
    ensures { result ≡ told machine status.now register }
{
    match slot_of(machine, register) {
        Some(slot) => word_told(status, slot),
        None => None,
    }
}

/// The registers of a status record.
fn registers_told(machine: Machine, status: &[u8]) -> [Option<u64>; 32]
    ensures { result ≡ listed (told machine status.now) 0 32 }
{
    let mut registers = [None; 32];
    for register in 0..32 {
        let value = told(machine, status, register);
        registers[register] = value;
    }
    registers
}

/// Which word of the registers has the address of the code.
fn counter_slot(machine: Machine) -> usize
    ensures { result ≡ counter_slot machine }
{
    match machine {
        Machine::X86_64 => 16,
        Machine::Aarch64 => 32,
    }
}

/// Where a thread stands, by its status record (NT_PRSTATUS of `elf.h`): what a stack begins with. There is none where
/// the record ends before the address of the code does; a register past its end is not known.
pub fn thread_state(machine: Machine, status: &[u8]) -> Option<State>
    ensures { result ≡ thread_state machine status.now }
{
    match word_told(status, counter_slot(machine)) {
        Some(pc) => {
            let registers = registers_told(machine, status);
            Some(State {
                pc,
                is_exact: true,
                registers,
                least: 0,
                signals: MOST_SIGNALS,
                bytes: MOST_BYTES,
            })
        }
        None => None,
    }
}
