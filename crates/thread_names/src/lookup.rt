//! The name of a thread among those that are told.
ghost use Rattle.std.specs.Prelude.{◌≡◌, nat_eq, option_copied};
ghost use Rattle.std.specs.List.{find};
ghost use Rattle.thread_names.specs.Lookup.{name_of, threads_named};

use crate::names::{InterpreterNames, ThreadName};
use elf64_core::Text;

/// The names of the first interpreter at an address.
fn first_at(names: &[InterpreterNames], interpreter: u64) -> Option<&InterpreterNames>
    ensures { option_copied result ≡ find (λ told. nat_eq told.interpreter interpreter) names.now }
{
    names.iter().find(|told| told.interpreter == interpreter)
}

/// The first thread of an id.
fn first_of(threads: &[ThreadName], thread_id: u64) -> Option<&ThreadName>
    ensures { option_copied result ≡ find (λ thread. nat_eq thread.thread_id thread_id) threads.now }
{
    threads.iter().find(|thread| thread.thread_id == thread_id)
}

/// The threads that are told of the interpreter at an address; none where nothing is told of it.
pub fn threads_named(names: &[InterpreterNames], interpreter: u64) -> &[ThreadName]
    ensures { result.now ≡ threads_named names.now interpreter }
{
    match first_at(names, interpreter) {
        Some(told) => &told.threads,
        None => &[],
    }
}

/// The name of the first thread of an id, where it has one.
pub fn name_of(threads: &[ThreadName], thread_id: u64) -> Option<&Text>
    ensures { option_copied result ≡ name_of threads.now thread_id }
{
    match first_of(threads, thread_id) {
        Some(thread) => thread.name.as_ref(),
        None => None,
    }
}
