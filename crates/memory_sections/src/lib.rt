//! The sections of what is told of a process that are read in its memory: the names of its threads, the tasks of
//! asyncio, exceptions, what threads wait for, native stacks and which of their frames run which of Python's, the
//! values of locals, and what the heap holds. Each is asked for by itself.
//!
//! What each one reads, and what it owes, is its own crate's; here they are asked of an opened process, of whose
//! interpreters this is left.
#![tactic(auto)]

mod exceptions;
mod heap;
mod keeping;
mod locals;
mod names;
mod native;
mod pairs;
mod pythons;
mod rule;
mod tasks;
mod text;
mod told;
mod values;
mod waits;

pub use pythons::python_threads;
pub use text::push_memory;
pub use told::{MemoryTold, names_told, tell_memory};
pub use values::{
    exceptions_value, heap_value, names_value, native_value, paired_value, tasks_value, waits_value,
};
