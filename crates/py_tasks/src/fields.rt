//! What a task's record says.
ghost use Rattle.std.specs.Prelude.{◌≡◌};
ghost use Rattle.process_memory.specs.Seen.{Reads};
ghost use Rattle.py_names.specs.NamesError.{names_fault};
ghost use Rattle.py_tasks.specs.Fields.{fields_at, has_bit, state_at, state_of};

use crate::{TaskPlaces, TaskState};
use process_memory::{ProcessMemory, word_past};
use py_names::NamesError;

/// What a task's record says.
#[derive(Clone, Copy)]
pub struct Fields {
    pub state: TaskState,
    pub must_cancel: bool,
    /// The addresses of its loop, of what it waits for (0 for none) and of its coroutine.
    pub event_loop: u64,
    pub waiter: u64,
    pub coro: u64,
}

/// The state that a number of 4 bytes says.
#[tactic(auto, unfolding(crate::specs::Fields::state_by))]
fn state_of(word: u64) -> TaskState
    ensures { result ≡ state_of word }
{
    let number = word % 0x1_0000_0000;
    if number == 0 {
        return TaskState::Pending;
    }
    if number == 1 {
        return TaskState::Cancelled;
    }
    if number == 2 {
        return TaskState::Finished;
    }
    TaskState::Other(number)
}

/// Whether a byte has a bit.
#[tactic(auto, unfolding(crate::specs::Fields::has_bit))]
fn has_bit(word: u64, bit: u32) -> bool
    ensures { result ≡ has_bit word bit }
{
    if bit >= 8 {
        return false;
    }
    word / (1 << bit) % 2 == 1
}

/// The state of the future or task at an address. At most one read.
pub(crate) fn read_state<P: ProcessMemory>(
    process: &mut P,
    places: &TaskPlaces,
    at: u64,
) -> Result<TaskState, NamesError>
    ensures { Reads names_fault 1 (P.seen process.old) (P.seen process.new) (λ m. state_at places.now m at) result }
{
    let word = word_past(process, at, places.state as u64)?;
    Ok(state_of(word))
}

/// What the record of the task at an address says. At most 5 reads.
pub(crate) fn read_fields<P: ProcessMemory>(
    process: &mut P,
    places: &TaskPlaces,
    at: u64,
) -> Result<Fields, NamesError>
    ensures { Reads names_fault 5 (P.seen process.old) (P.seen process.new) (λ m. fields_at places.now m at) result }
{
    let state = read_state(process, places, at)?;
    let cancel = word_past(process, at, places.cancel as u64)?;
    let event_loop = word_past(process, at, places.event_loop as u64)?;
    let waiter = word_past(process, at, places.waiter as u64)?;
    let coro = word_past(process, at, places.coro as u64)?;
    let must_cancel = has_bit(cancel, places.cancel_bit);
    Ok(Fields {
        state,
        must_cancel,
        event_loop,
        waiter,
        coro,
    })
}
