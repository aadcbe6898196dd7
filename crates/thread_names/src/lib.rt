//! A section of what is told of a process: the names of an interpreter's threads, as its own module `threading` keeps
//! them.
//!
//! They are read by the interpreter, not along its chain of threads or of frames: so a chain that is broken or long
//! takes no name away, and one interpreter's names are never another's. What can't be read of one thread costs no other
//! one its name.
#![tactic(auto)]

mod active;
mod keys;
mod lookup;
mod names;
mod own;
mod tree;

pub use lookup::{name_of, threads_named};
pub use names::{InterpreterNames, ThreadName, read_thread_names};
pub use own::DictRule;
pub use tree::{fault_word, names_value, thread_fault_word};
