//! The threads of a process as the status records of its core tell them: the id that the system gave each, its
//! registers by name, and which of the Python threads that are known it is.
//!
//! A thread that is none of Python's is told too. Registers are those of x86-64 and of aarch64; of a record that is too
//! short for them, and of another machine, none are told. A call takes memory for one thread a status record.
#![tactic(auto)]

mod names;
mod reading;
mod registers;
mod text;
mod threads;
mod tree;

pub use reading::read_threads;
pub use text::push_threads;
pub use threads::{PythonMatch, PythonThread, Register, ThreadRegisters, Whose};
pub use tree::threads_value;
