//! The Python frames of a thread, by its address and their numbers.
ghost use Rattle.std.specs.Prelude.{◌≡◌, find, nat_eq, option_copied};
ghost use Rattle.stack_texts.specs.Fronts.{front_at, front_in, has_thread, standing_at, standing_behind, thread_in};

use py_fronts::{FramesFront, SalvagedInterpreter, Standing, ThreadFront};

/// The first of some threads at an address.
fn thread_in(threads: &[ThreadFront], address: u64) -> Option<&ThreadFront>
    ensures { option_copied result ≡ thread_in threads.now address }
{
    threads.iter().find(|thread| thread.address == address)
}

/// Whether an interpreter has a thread at an address.
fn has_thread(interpreter: &SalvagedInterpreter, address: u64) -> bool
    ensures { result ≡ has_thread interpreter.now address }
{
    thread_in(&interpreter.front.threads.threads, address).is_some()
}

/// The first interpreter that has a thread at an address.
fn interpreter_of(
    interpreters: &[SalvagedInterpreter],
    address: u64,
) -> Option<&SalvagedInterpreter>
    ensures { option_copied result ≡ find (λ interpreter. has_thread interpreter address) interpreters.now }
{
    interpreters
        .iter()
        .find(|interpreter| has_thread(interpreter, address))
}

/// The frames of an interpreter's thread at an address.
fn front_in(interpreter: &SalvagedInterpreter, address: u64) -> Option<&FramesFront>
    ensures { option_copied result ≡ front_in interpreter.now address }
{
    match thread_in(&interpreter.front.threads.threads, address) {
        Some(thread) => Some(&thread.frames),
        None => None,
    }
}

/// The frames of the first thread at an address, if there is one.
pub(crate) fn front_at(interpreters: &[SalvagedInterpreter], address: u64) -> Option<&FramesFront>
    ensures { option_copied result ≡ front_at interpreters.now address }
{
    match interpreter_of(interpreters, address) {
        Some(interpreter) => front_in(interpreter, address),
        None => None,
    }
}

/// What stands for the frame that has so many in front of it, behind those that are shown first.
fn standing_behind(frames: &FramesFront, number: usize) -> Option<&Standing>
    ensures { option_copied result ≡ standing_behind frames.now number }
{
    let number = number as u64;
    if number < frames.between {
        return None;
    }
    frames.last.get((number - frames.between) as usize)
}

/// What stands for the frame of a number, if it is shown.
pub(crate) fn standing_at(frames: &FramesFront, number: usize) -> Option<&Standing>
    ensures { option_copied result ≡ standing_at frames.now number }
{
    match frames.first.get(number) {
        Some(standing) => Some(standing),
        None => standing_behind(frames, number.saturating_sub(frames.first.len())),
    }
}
