//! One step, by tables or, where no table covers the address, by a mark.
ghost use Rattle.std.specs.Prelude.{◌≡◌, IfOk};
ghost use Rattle.process_memory.specs.Seen.{Reading};
ghost use Rattle.core_unwind.specs.Marks.{IsGuessed, IsMarked, IsStep, IsUncovered, coded, is_uncovered};
ghost use Rattle.core_unwind.specs.Marks.{stops_uncovered, turn_by};

use crate::base::read_base;
use crate::code_map::CodeMap;
use crate::end::{End, UnwindError};
use crate::epilogue::read_epilogue;
use crate::frame::{Frame, Next, Turn};
use crate::mark::{Going, Manner};
use crate::state::State;
use crate::step::read_table_step;
use crate::trampoline::read_trampoline;
use frame_rows::Machine;
use frame_tables::Room;
use process_memory::ProcessMemory;

/// Whether a stack ends where no table covers the address, as there is none, or its file is not at hand.
pub(crate) fn is_uncovered(end: End) -> bool
    ensures { result ≡ is_uncovered end }
{
    match end {
        End::NoTable { .. } => true,
        End::NoFile { .. } => true,
        End::Whole => false,
        End::Unreadable { .. } => false,
        End::Refused(_) => false,
        End::NotAbove => false,
        End::Cut(_) => false,
    }
}

/// Whether it ends so behind a frame.
fn stops_uncovered(next: &Next) -> bool
    ensures { result ≡ stops_uncovered next.now }
{
    match next {
        Next::Stops(end) => is_uncovered(*end),
        Next::Caller(_) => false,
    }
}

/// A frame that goes on, if it does.
fn turn_by(tabled: &Turn, going: Option<Going>) -> Turn
    ensures { result ≡ turn_by tabled.now going }
{
    match going {
        Some(going) => {
            let frame = Frame {
                pc: tabled.frame.pc,
                is_exact: tabled.frame.is_exact,
                place: tabled.frame.place,
                cfa: Some(going.cfa),
                is_signal: going.is_signal,
                mark: Some(going.mark),
            };
            Turn {
                frame,
                next: Next::Caller(going.caller),
            }
        }
        None => *tabled,
    }
}

/// How a frame goes on by its own instructions. At most 67 reads.
fn read_coded<P: ProcessMemory>(
    process: &mut P,
    machine: Machine,
    state: &State,
) -> Result<Option<Going>, UnwindError>
    ensures { Reading 67 (P.seen process.old) (P.seen process.new)
        (λ m. IfOk result (λ going. going ≡ coded machine m state.now)) }
{
    let found = read_trampoline(process, machine, state)?;
    match found {
        Some(going) => Ok(Some(going)),
        None => read_epilogue(process, machine, state),
    }
}

/// A frame of which neither a table nor its own instructions say how it goes on. At most two reads.
fn read_guessed<P: ProcessMemory>(
    process: &mut P,
    mappings: &CodeMap<'_>,
    manner: &Manner,
    state: &State,
    tabled: &Turn,
) -> Result<Turn, UnwindError>
    ensures { Reading 2 (P.seen process.old) (P.seen process.new)
        (λ m. IfOk result (IsGuessed mappings.now manner.now m state.now tabled.now)) }
{
    if !manner.guesses {
        return Ok(*tabled);
    }
    let going = read_base(process, mappings, manner.machine, state)?;
    let turn = turn_by(tabled, going);
    Ok(turn)
}

/// A frame of which no table says how it goes on. At most 69 reads.
fn read_uncovered<P: ProcessMemory>(
    process: &mut P,
    mappings: &CodeMap<'_>,
    manner: &Manner,
    state: &State,
    tabled: &Turn,
) -> Result<Turn, UnwindError>
    ensures { Reading 69 (P.seen process.old) (P.seen process.new)
        (λ m. IfOk result (IsUncovered mappings.now manner.now m state.now tabled.now)) }
{
    let coded = read_coded(process, manner.machine, state)?;
    match coded {
        Some(going) => {
            let turn = turn_by(tabled, Some(going));
            Ok(turn)
        }
        None => read_guessed(process, mappings, manner, state, tabled),
    }
}

/// What marks make of a step by tables. At most 69 reads.
fn read_marked<P: ProcessMemory>(
    process: &mut P,
    mappings: &CodeMap<'_>,
    manner: &Manner,
    state: &State,
    tabled: &Turn,
) -> Result<Turn, UnwindError>
    ensures { Reading 69 (P.seen process.old) (P.seen process.new)
        (λ m. IfOk result (IsMarked mappings.now manner.now m state.now tabled.now)) }
{
    if !stops_uncovered(&tabled.next) {
        return Ok(*tabled);
    }
    read_uncovered(process, mappings, manner, state, tabled)
}

/// One step from a state: the frame there, and the state of its caller, or how the stack ends. Tables say it; where
/// none covers the address, the frame's own instructions, and where guesses are wanted its frame pointer, and the frame
/// has a mark. At most 8549 reads.
pub fn read_step<P: ProcessMemory>(
    process: &mut P,
    mappings: &CodeMap<'_>,
    manner: &Manner,
    room: &mut Room,
    state: &State,
) -> Result<Turn, UnwindError>
    ensures { Reading 8549 (P.seen process.old) (P.seen process.new)
        (λ m. IfOk result (IsStep mappings.now manner.now m state.now)) }
{
    let tabled = read_table_step(process, mappings, manner.code_bits, room, state)?;
    read_marked(process, mappings, manner, state, &tabled)
}
