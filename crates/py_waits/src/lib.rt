//! What the threads of a process wait for, by the word at which each stands in the system.
//!
//! A thread that waits stands in the system call `futex`, at the address of a word. It waits for the interpreter's lock
//! where that word lies in its record; else for the lock of a program whose own semaphore is that word. Such a lock is
//! looked for among what the thread's newest frames hold, and each that is told was found to name that very word: where
//! it was found proves nothing, and nothing is told by it.
#![tactic(auto)]

mod frames;
mod objects;
mod places;
mod registers;
mod text;
mod told;
mod tree;
mod types;
mod wait;
mod words;

pub use places::{OwnerAt, WaitPlaces, Waitable};
pub use registers::futex_of;
pub use text::push_waits;
pub use told::{InterpreterWaits, ThreadWait};
pub use tree::waits_value;
pub use types::read_places;
pub use wait::{LockRange, Wait, read_lock_range, read_wait};
