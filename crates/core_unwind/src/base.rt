//! The caller by the frame pointer: a guess.
ghost use Rattle.std.specs.Prelude.{◌≡◌, IfOk};
ghost use Rattle.process_memory.specs.Seen.{Reading};
ghost use Rattle.core_unwind.specs.Bases.{IsBased, base_in, base_of, based_on, is_base};

use crate::code_map::CodeMap;
use crate::end::UnwindError;
use crate::guess::{is_in_code, stack_top};
use crate::kept::register_in;
use crate::mark::{Going, Mark};
use crate::read::read_word;
use crate::state::State;
use frame_rows::Machine;
use process_memory::ProcessMemory;

/// The last address that a frame pointer may have: the CFA is 16 bytes above it.
const LAST: u64 = 0xffff_ffff_ffff_ffef;

/// Whether a word may be a frame pointer: not below the stack pointer, a multiple of 8, and so that the CFA is above
/// that of the frame before.
fn is_base(state: &State, top: u64, base: u64) -> bool
    ensures { result ≡ is_base state.now top base }
{
    top <= base && base % 8 == 0 && base <= LAST && u128::from(base) + 16 >= state.least
}

/// The frame pointer, where it may be one.
fn base_in(state: &State, top: u64) -> Option<u64>
    ensures { result ≡ base_in state.now top }
{
    match register_in(&state.registers, 6) {
        Some(base) => {
            if is_base(state, top, base) {
                Some(base)
            } else {
                None
            }
        }
        None => None,
    }
}

/// The same, on x86-64 alone.
fn base_of(machine: Machine, state: &State) -> Option<u64>
    ensures { result ≡ base_of machine state.now }
{
    match machine {
        Machine::X86_64 => match stack_top(machine, state) {
            Some(top) => base_in(state, top),
            None => None,
        },
        Machine::Aarch64 => None,
    }
}

/// How a frame goes on by its frame pointer: the caller's stands there, and the return address behind it. Of the other
/// registers nothing is known.
fn based_on(state: &State, base: u64, word: u64, before: Option<u64>) -> Going
    ensures { result ≡ based_on state.now base word before }
{
    let cfa = base.wrapping_add(16);
    let mut registers = [None; 32];
    registers[6] = before;
    registers[7] = Some(cfa);
    let caller = State {
        pc: word,
        is_exact: false,
        registers,
        least: u128::from(cfa) + 1,
        signals: state.signals,
        bytes: state.bytes,
    };
    Going {
        cfa,
        is_signal: false,
        mark: Mark::FramePointer,
        caller,
    }
}

/// How a frame goes on by what its frame pointer points to, if the word behind that may be a return address: the call
/// before it stands in code of a file that is at hand. At most two reads.
pub(crate) fn read_base<P: ProcessMemory>(
    process: &mut P,
    mappings: &CodeMap<'_>,
    machine: Machine,
    state: &State,
) -> Result<Option<Going>, UnwindError>
    ensures { Reading 2 (P.seen process.old) (P.seen process.new)
        (λ m. IfOk result (IsBased mappings.now machine m state.now)) }
{
    let Some(base) = base_of(machine, state) else {
        return Ok(None);
    };
    let word = read_word(process, base.wrapping_add(8))?;
    let Some(word) = word else {
        return Ok(None);
    };
    if !is_in_code(mappings, word) {
        return Ok(None);
    }
    let before = read_word(process, base)?;
    let going = based_on(state, base, word, before);
    Ok(Some(going))
}
