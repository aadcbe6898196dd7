//! Who may have called, where a stack ends since no table says it.
ghost use Rattle.std.specs.Prelude.{◌≡◌, IfOk};
ghost use Rattle.process_memory.specs.Seen.{Reading};
ghost use Rattle.core_unwind.specs.Guesses.{IsInCode, IsJump, guessed_caller, return_word, stack_top};
ghost use Rattle.core_unwind.specs.Marks.{is_uncovered};
ghost use Rattle.core_unwind.specs.Origins.{IsBaseGuess, IsGuess, base_guess, jump_guess, jumped};
ghost use Rattle.core_unwind.specs.Stacks.{chain_of};

use crate::base::read_base;
use crate::code_map::CodeMap;
use crate::end::{End, UnwindError};
use crate::kept::register_in;
use crate::mark::{Going, Mark};
use crate::marked::is_uncovered;
use crate::place::spot_at;
use crate::read::read_word;
use crate::state::State;
use crate::walk::NativeStack;
use frame_rows::Machine;
use process_memory::ProcessMemory;

/// Who may have called.
#[derive(Clone, Copy, Debug, PartialEq, Eq)]
pub struct Guess {
    /// By what that is guessed.
    pub mark: Mark,
    /// The caller.
    pub caller: State,
}

/// Whether a stack ends where its thread had jumped to no code: the last frame's instruction was to run next, and no
/// mapping holds it.
fn jumped(mappings: &CodeMap<'_>, stack: &NativeStack) -> bool
    ensures { result ≡ jumped mappings.now (chain_of stack.now) }
{
    let ends = match stack.end {
        End::NoFile { .. } => true,
        End::Whole => false,
        End::NoTable { .. } => false,
        End::Unreadable { .. } => false,
        End::Refused(_) => false,
        End::NotAbove => false,
        End::Cut(_) => false,
    };
    ends && stack.last.is_exact && mappings.mapping_at(stack.last.pc).is_none()
}

/// The stack pointer of a thread.
pub(crate) fn stack_top(machine: Machine, state: &State) -> Option<u64>
    ensures { result ≡ stack_top machine state.now }
{
    match machine {
        Machine::X86_64 => register_in(&state.registers, 7),
        Machine::Aarch64 => register_in(&state.registers, 31),
    }
}

/// The address behind the call, if that was the last thing that a thread did: on x86-64 the word at the stack pointer,
/// on aarch64 x30. At most one read.
fn read_return<P: ProcessMemory>(
    process: &mut P,
    machine: Machine,
    state: &State,
    top: u64,
) -> Result<Option<u64>, UnwindError>
    ensures { Reading 1 (P.seen process.old) (P.seen process.new)
        (λ m. IfOk result (λ word. word ≡ return_word machine m state.now top)) }
{
    match machine {
        Machine::X86_64 => read_word(process, top),
        Machine::Aarch64 => {
            let link = register_in(&state.registers, 30);
            Ok(link)
        }
    }
}

/// Whether a call that returns to an address stands in the code of a file that is at hand.
pub(crate) fn is_in_code(mappings: &CodeMap<'_>, word: u64) -> bool
    ensures { IsInCode mappings.now word result }
{
    match spot_at(mappings, word.saturating_sub(1)) {
        Ok(_) => true,
        Err(_) => false,
    }
}

/// The state behind a call: its return address is taken off the stack, where it was put there.
fn guessed_caller(machine: Machine, state: &State, top: u64, word: u64) -> State
    ensures { result ≡ guessed_caller machine state.now top word }
{
    let mut registers = state.registers;
    let above = match machine {
        Machine::X86_64 => top.wrapping_add(8),
        Machine::Aarch64 => top,
    };
    match machine {
        Machine::X86_64 => registers[7] = Some(above),
        Machine::Aarch64 => registers[31] = Some(above),
    }
    State {
        pc: word,
        is_exact: false,
        registers,
        least: u128::from(above),
        signals: state.signals,
        bytes: state.bytes,
    }
}

/// The state behind the call of what is no code, if a call was the last thing that a thread did, and its code is that
/// of a file at hand. At most one read.
fn read_jump<P: ProcessMemory>(
    process: &mut P,
    mappings: &CodeMap<'_>,
    machine: Machine,
    state: &State,
) -> Result<Option<State>, UnwindError>
    ensures { Reading 1 (P.seen process.old) (P.seen process.new)
        (λ m. IfOk result (IsJump mappings.now machine m state.now)) }
{
    let Some(top) = stack_top(machine, state) else {
        return Ok(None);
    };
    let word = read_return(process, machine, state, top)?;
    let Some(word) = word else {
        return Ok(None);
    };
    if !is_in_code(mappings, word) {
        return Ok(None);
    }
    let caller = guessed_caller(machine, state, top, word);
    Ok(Some(caller))
}

/// The guess of a jump.
fn jump_guess(caller: Option<State>) -> Option<Guess>
    ensures { result ≡ jump_guess caller }
{
    match caller {
        Some(caller) => Some(Guess {
            mark: Mark::Jump,
            caller,
        }),
        None => None,
    }
}

/// The guess by a frame pointer.
fn base_guess(going: Option<Going>) -> Option<Guess>
    ensures { result ≡ base_guess going }
{
    match going {
        Some(going) => Some(Guess {
            mark: going.mark,
            caller: going.caller,
        }),
        None => None,
    }
}

/// The guess where no table covers the address at which a stack ends. At most two reads.
fn read_base_guess<P: ProcessMemory>(
    process: &mut P,
    mappings: &CodeMap<'_>,
    machine: Machine,
    stack: &NativeStack,
) -> Result<Option<Guess>, UnwindError>
    ensures { Reading 2 (P.seen process.old) (P.seen process.new)
        (λ m. IfOk result (IsBaseGuess (is_uncovered stack.now.end) mappings.now machine m stack.now.last)) }
{
    if !is_uncovered(stack.end) {
        return Ok(None);
    }
    let going = read_base(process, mappings, machine, &stack.last)?;
    let guess = base_guess(going);
    Ok(guess)
}

/// Where a stack ends since no table says how it goes on, who may have called: where the thread had jumped to no code,
/// as by a call of a null pointer, the state behind that call, if one was the last thing that the thread did; else what
/// the frame pointer points to. The caller's code is that of a file at hand. It is a guess: nothing says that there was
/// such a call, or that the code keeps a frame pointer. At most two reads; the one error is out of memory.
pub fn read_guess<P: ProcessMemory>(
    process: &mut P,
    mappings: &CodeMap<'_>,
    machine: Machine,
    stack: &NativeStack,
) -> Result<Option<Guess>, UnwindError>
    ensures { Reading 2 (P.seen process.old) (P.seen process.new)
        (λ m. IfOk result (IsGuess mappings.now machine m (chain_of stack.now))) }
{
    if !jumped(mappings, stack) {
        return read_base_guess(process, mappings, machine, stack);
    }
    let caller = read_jump(process, mappings, machine, &stack.last)?;
    let guess = jump_guess(caller);
    Ok(guess)
}
