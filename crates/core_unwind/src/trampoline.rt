//! The code to which a handler of a signal returns, by its two instructions.
ghost use Rattle.std.specs.Prelude.{◌≡◌, IfOk};
ghost use Rattle.process_memory.specs.Seen.{Reading};
ghost use Rattle.core_unwind.specs.Trampolines.{has_trampoline, has_word, interrupted, place_of, place_in, saved};
ghost use Rattle.core_unwind.specs.Trampolines.{counter_place, signal_top, trampoline, trampoline_at};
ghost use Rattle.core_unwind.specs.Values.{listed};

use crate::end::UnwindError;
use crate::guess::stack_top;
use crate::kept::{register_in, stack_pointer};
use crate::mark::{Going, Mark};
use crate::read::read_word;
use crate::state::State;
use frame_rows::Machine;
use process_memory::ProcessMemory;

/// Whether a word stands at an address. One read.
fn has_word<P: ProcessMemory>(process: &mut P, address: u64, word: u64) -> Result<bool, UnwindError>
    ensures { Reading 1 (P.seen process.old) (P.seen process.new)
        (λ m. IfOk result (λ has. has ≡ has_word m address word)) }
{
    match read_word(process, address)? {
        Some(found) => Ok(found == word),
        None => Ok(false),
    }
}

/// Whether the two instructions stand at an address: on x86-64 `mov $15, %rax` and `syscall`, on aarch64 `mov x8, #139`
/// and `svc #0`. At most two reads.
fn has_trampoline<P: ProcessMemory>(
    process: &mut P,
    machine: Machine,
    pc: u64,
) -> Result<bool, UnwindError>
    ensures { Reading 2 (P.seen process.old) (P.seen process.new)
        (λ m. IfOk result (λ has. has ≡ has_trampoline machine m pc)) }
{
    match machine {
        Machine::X86_64 => {
            let begins = has_word(process, pc, 0x0f00_0000_0fc0_c748)?;
            if !begins {
                return Ok(false);
            }
            has_word(process, pc.wrapping_add(1), 0x050f_0000_000f_c0c7)
        }
        Machine::Aarch64 => has_word(process, pc, 0xd400_0001_d280_1168),
    }
}

/// Where the register of a DWARF number stands in the frame of a signal, from the stack pointer on, on x86-64.
fn place_in(register: usize) -> Option<u64>
    ensures { result ≡ place_in register }
{
    match register {
        0 => Some(144),
        1 => Some(136),
        2 => Some(152),
        3 => Some(128),
        4 => Some(112),
        5 => Some(104),
        6 => Some(120),
        7 => Some(160),
        8 => Some(40),
        9 => Some(48),
        10 => Some(56),
        11 => Some(64),
        12 => Some(72),
        13 => Some(80),
        14 => Some(88),
        15 => Some(96),
        16 => Some(168),
        _ => None,
    }
}

/// The same, on a machine.
fn place_of(machine: Machine, register: usize) -> Option<u64>
    ensures { result ≡ place_of machine register }
{
    match machine {
        Machine::X86_64 => place_in(register),
        Machine::Aarch64 => {
            if register < 32 {
                Some(312 + 8 * register as u64)
            } else {
                None
            }
        }
    }
}

/// What a register had where a signal interrupted the thread, where it is known. At most one read.
fn read_saved<P: ProcessMemory>(
    process: &mut P,
    machine: Machine,
    top: u64,
    register: usize,
) -> Result<Option<u64>, UnwindError>
    ensures { Reading 1 (P.seen process.old) (P.seen process.new)
        (λ m. IfOk result (λ value. value ≡ saved machine m top register)) }
{
    match place_of(machine, register) {
        Some(place) => read_word(process, top.wrapping_add(place)),
        None => Ok(None),
    }
}

/// The registers where a signal interrupted the thread. At most 32 reads.
fn read_saved_registers<P: ProcessMemory>(
    process: &mut P,
    machine: Machine,
    top: u64,
) -> Result<[Option<u64>; 32], UnwindError>
    ensures { Reading 32 (P.seen process.old) (P.seen process.new)
        (λ m. IfOk result (λ values. values ≡ listed (saved machine m top) 0 32)) }
{
    let mut values = [None; 32];
    for register in 0..32 {
        let value = read_saved(process, machine, top, register)?;
        values[register] = value;
    }
    Ok(values)
}

/// Where the address of the code stands in the frame of a signal.
fn counter_place(machine: Machine) -> u64
    ensures { result ≡ counter_place machine }
{
    match machine {
        Machine::X86_64 => 168,
        Machine::Aarch64 => 568,
    }
}

/// How the frame goes on: where a signal interrupted the thread, if these are known.
fn interrupted(
    machine: Machine,
    state: &State,
    pc: Option<u64>,
    registers: [Option<u64>; 32],
) -> Option<Going>
    ensures { result ≡ interrupted machine state.now pc registers }
{
    let cfa = register_in(&registers, stack_pointer(machine))?;
    let pc = pc?;
    let caller = State {
        pc,
        is_exact: true,
        registers,
        least: u128::from(cfa),
        signals: state.signals.saturating_sub(1),
        bytes: state.bytes,
    };
    Some(Going {
        cfa,
        is_signal: true,
        mark: Mark::Trampoline,
        caller,
    })
}

/// What a signal interrupted, by its frame from a stack pointer on. At most 33 reads.
fn read_interrupted<P: ProcessMemory>(
    process: &mut P,
    machine: Machine,
    state: &State,
    top: u64,
) -> Result<Option<Going>, UnwindError>
    ensures { Reading 33 (P.seen process.old) (P.seen process.new)
        (λ m. IfOk result (λ going. going ≡ trampoline_at machine m state.now top)) }
{
    let place = counter_place(machine);
    let pc = read_word(process, top.wrapping_add(place))?;
    let registers = read_saved_registers(process, machine, top)?;
    let going = interrupted(machine, state, pc, registers);
    Ok(going)
}

/// The stack pointer, where there may be one more frame of a signal.
fn signal_top(machine: Machine, state: &State) -> Option<u64>
    ensures { result ≡ signal_top machine state.now }
{
    if state.signals == 0 {
        None
    } else {
        stack_top(machine, state)
    }
}

/// How a frame goes on whose code is the one to which a handler of a signal returns; none where it isn't. At most 35
/// reads.
pub(crate) fn read_trampoline<P: ProcessMemory>(
    process: &mut P,
    machine: Machine,
    state: &State,
) -> Result<Option<Going>, UnwindError>
    ensures { Reading 35 (P.seen process.old) (P.seen process.new)
        (λ m. IfOk result (λ going. going ≡ trampoline machine m state.now)) }
{
    let Some(top) = signal_top(machine, state) else {
        return Ok(None);
    };
    let has = has_trampoline(process, machine, state.pc)?;
    if !has {
        return Ok(None);
    }
    read_interrupted(process, machine, state, top)
}
