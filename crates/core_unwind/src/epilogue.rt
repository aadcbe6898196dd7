//! What a function does before it returns, by its instructions.
ghost use Rattle.std.specs.Prelude.{◌≡◌, ◌*◌, IfOk};
ghost use Rattle.process_memory.specs.Seen.{Reading};
ghost use Rattle.core_unwind.specs.Epilogues.{added, begun_at, behind, epilogue, extended, goes_on, instruction_at};
ghost use Rattle.core_unwind.specs.Epilogues.{instruction_in, is_return, long_in, popped_behind, put, short_in};
ghost use Rattle.core_unwind.specs.Epilogues.{unwound};

use crate::end::UnwindError;
use crate::guess::stack_top;
use crate::kept::register_in;
use crate::mark::{Going, Mark};
use crate::read::read_word;
use crate::state::State;
use frame_rows::Machine;
use process_memory::ProcessMemory;

/// How many instructions stand before a return at most, with that.
const MOST: usize = 16;

/// What stands before a return.
#[derive(Clone, Copy)]
pub(crate) enum Instruction {
    /// `add $bytes, %rsp`.
    Add { bytes: u64, size: u64 },
    /// `pop` into the register of a DWARF number.
    Pop { register: u64, size: u64 },
    /// `leave`.
    Leave,
    /// `ret`.
    Return,
}

/// Where a thread stands within an epilogue.
#[derive(Clone, Copy)]
pub(crate) struct Standing {
    /// The address of the next instruction.
    pub(crate) pc: u64,
    /// The stack pointer.
    pub(crate) top: u64,
    /// The registers.
    pub(crate) registers: [Option<u64>; 32],
}

/// An instruction of one byte.
fn short_in(byte: u64) -> Option<Instruction>
    ensures { result ≡ short_in byte }
{
    match byte {
        0x58 => Some(Instruction::Pop {
            register: 0,
            size: 1,
        }),
        0x59 => Some(Instruction::Pop {
            register: 2,
            size: 1,
        }),
        0x5a => Some(Instruction::Pop {
            register: 1,
            size: 1,
        }),
        0x5b => Some(Instruction::Pop {
            register: 3,
            size: 1,
        }),
        0x5d => Some(Instruction::Pop {
            register: 6,
            size: 1,
        }),
        0x5e => Some(Instruction::Pop {
            register: 4,
            size: 1,
        }),
        0x5f => Some(Instruction::Pop {
            register: 5,
            size: 1,
        }),
        0xc9 => Some(Instruction::Leave),
        0xc3 => Some(Instruction::Return),
        _ => None,
    }
}

/// A `pop` into one of r8 to r15, by the byte behind its prefix.
fn extended(byte: u64) -> Option<Instruction>
    ensures { result ≡ extended byte }
{
    if byte >= 0x58 && byte < 0x60 {
        Some(Instruction::Pop {
            register: byte - 80,
            size: 2,
        })
    } else {
        None
    }
}

/// An `add` of so many bytes, unless it takes from the stack pointer.
fn added(bytes: u64, limit: u64, size: u64) -> Option<Instruction>
    ensures { result ≡ added bytes limit size }
{
    if bytes < limit {
        Some(Instruction::Add { bytes, size })
    } else {
        None
    }
}

/// An instruction of several bytes.
fn long_in(word: u64) -> Option<Instruction>
    ensures { result ≡ long_in word }
{
    if word % 256 == 0x41 {
        extended(word / 256 % 256)
    } else if word % 16_777_216 == 0xc4_8348 {
        added(word / 16_777_216 % 256, 128, 4)
    } else if word % 16_777_216 == 0xc4_8148 {
        added(word / 16_777_216 % 4_294_967_296, 2_147_483_648, 7)
    } else {
        None
    }
}

/// The instruction at the front of eight bytes, if it is one that stands before a return.
fn instruction_in(word: u64) -> Option<Instruction>
    ensures { result ≡ instruction_in word }
{
    match short_in(word % 256) {
        Some(instruction) => Some(instruction),
        None => long_in(word),
    }
}

/// The instruction at an address. One read.
fn read_instruction<P: ProcessMemory>(
    process: &mut P,
    pc: u64,
) -> Result<Option<Instruction>, UnwindError>
    ensures { Reading 1 (P.seen process.old) (P.seen process.new)
        (λ m. IfOk result (λ instruction. instruction ≡ instruction_at m pc)) }
{
    match read_word(process, pc)? {
        Some(word) => Ok(instruction_in(word)),
        None => Ok(None),
    }
}

/// The registers with another value in one of them.
fn put(registers: &[Option<u64>; 32], register: u64, value: Option<u64>) -> [Option<u64>; 32]
    ensures { result ≡ put registers.now register value }
{
    let mut after = *registers;
    if register < 32 {
        after[register as usize] = value;
    }
    after
}

/// Where a thread stands behind an instruction that takes the word at an address off the stack. At most one read.
fn read_popped<P: ProcessMemory>(
    process: &mut P,
    standing: &Standing,
    register: u64,
    size: u64,
    top: u64,
) -> Result<Standing, UnwindError>
    ensures { Reading 1 (P.seen process.old) (P.seen process.new)
        (λ m. IfOk result (λ after. after ≡ popped_behind m standing.now register size top)) }
{
    let value = read_word(process, top)?;
    let registers = put(&standing.registers, register, value);
    Ok(Standing {
        pc: standing.pc.wrapping_add(size),
        top: top.wrapping_add(8),
        registers,
    })
}

/// Where a thread stands behind an instruction, where that is known. At most one read.
fn read_behind<P: ProcessMemory>(
    process: &mut P,
    standing: &Standing,
    instruction: Instruction,
) -> Result<Option<Standing>, UnwindError>
    ensures { Reading 1 (P.seen process.old) (P.seen process.new)
        (λ m. IfOk result (λ after. after ≡ behind m standing.now instruction)) }
{
    match instruction {
        Instruction::Add { bytes, size } => {
            let after = Standing {
                pc: standing.pc.wrapping_add(size),
                top: standing.top.wrapping_add(bytes),
                registers: standing.registers,
            };
            Ok(Some(after))
        }
        Instruction::Pop { register, size } => {
            let after = read_popped(process, standing, register, size, standing.top)?;
            Ok(Some(after))
        }
        Instruction::Leave => match register_in(&standing.registers, 6) {
            Some(base) => {
                let after = read_popped(process, standing, 6, 1, base)?;
                Ok(Some(after))
            }
            None => Ok(None),
        },
        Instruction::Return => match read_word(process, standing.top)? {
            Some(pc) => {
                let after = Standing {
                    pc,
                    top: standing.top.wrapping_add(8),
                    registers: standing.registers,
                };
                Ok(Some(after))
            }
            None => Ok(None),
        },
    }
}

/// Whether an instruction is the return.
fn is_return(instruction: Instruction) -> bool
    ensures { result ≡ is_return instruction }
{
    match instruction {
        Instruction::Return => true,
        Instruction::Add { .. } => false,
        Instruction::Pop { .. } => false,
        Instruction::Leave => false,
    }
}

/// Where a thread stands behind the return, if from where it stands on nothing else comes before it, in so many
/// instructions at most. At most two reads for each.
fn read_unwound<P: ProcessMemory>(
    process: &mut P,
    most: usize,
    standing: &Standing,
) -> Result<Option<Standing>, UnwindError>
    ensures { Reading (2 * most) (P.seen process.old) (P.seen process.new)
        (λ m. IfOk result (λ after. after ≡ unwound most m standing.now)) }
{
    if most == 0 {
        return Ok(None);
    }
    let found = read_instruction(process, standing.pc)?;
    let Some(instruction) = found else {
        return Ok(None);
    };
    let next = read_behind(process, standing, instruction)?;
    let Some(after) = next else {
        return Ok(None);
    };
    if is_return(instruction) {
        return Ok(Some(after));
    }
    read_unwound(process, most - 1, &after)
}

/// How the frame goes on whose function returns so.
fn goes_on(state: &State, after: Option<Standing>) -> Option<Going>
    ensures { result ≡ goes_on state.now after }
{
    let after = after?;
    if after.pc == 0 || u128::from(after.top) < state.least {
        return None;
    }
    let registers = put(&after.registers, 7, Some(after.top));
    let caller = State {
        pc: after.pc,
        is_exact: false,
        registers,
        least: u128::from(after.top) + 1,
        signals: state.signals,
        bytes: state.bytes,
    };
    Some(Going {
        cfa: after.top,
        is_signal: false,
        mark: Mark::Epilogue,
        caller,
    })
}

/// Where a thread stands before its epilogue: on x86-64 alone.
fn begun_at(machine: Machine, state: &State) -> Option<Standing>
    ensures { result ≡ begun_at machine state.now }
{
    match machine {
        Machine::X86_64 => match stack_top(machine, state) {
            Some(top) => Some(Standing {
                pc: state.pc,
                top,
                registers: state.registers,
            }),
            None => None,
        },
        Machine::Aarch64 => None,
    }
}

/// How a frame goes on whose code is an epilogue from its address on; none where it isn't, or the CFA would not be
/// above that of the frame before. At most 32 reads.
pub(crate) fn read_epilogue<P: ProcessMemory>(
    process: &mut P,
    machine: Machine,
    state: &State,
) -> Result<Option<Going>, UnwindError>
    ensures { Reading 32 (P.seen process.old) (P.seen process.new)
        (λ m. IfOk result (λ going. going ≡ epilogue machine m state.now)) }
{
    let Some(standing) = begun_at(machine, state) else {
        return Ok(None);
    };
    let after = read_unwound(process, MOST, &standing)?;
    let going = goes_on(state, after);
    Ok(going)
}
