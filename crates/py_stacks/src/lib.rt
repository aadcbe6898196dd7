//! Threads and frames of an interpreter, read from a process's memory.
//!
//! An interpreter names its first thread, each thread the next one and its newest frame, and each frame
//! the one that called it. The walks go to null; where a record is not in memory, or a chain goes on past
//! its limit, they answer so, and no part of a stack. The lock's holder is named by a word or by a record
//! of the lock's own, at an address that the caller has.
#![tactic(auto)]

mod asked;
mod config;
mod detail;
mod error;
mod frames;
mod holder;
mod interpreter;
mod lines;
mod locals;
mod members;
mod named_stacks;
mod records;
mod stacks;
mod stacks_over;
mod threads;
mod trace;
mod values;

pub use asked::{Asked, LineNo};
pub use config::Config;
pub use error::StackError;
pub use frames::share_texts;
pub use holder::get_gil_threadid;
pub use interpreter::{get_first_thread, is_interpreter, is_interpreter_from};
pub use lines::{first_line, offset_of, read_line};
pub use locals::read_locals;
pub use members::{is_entered, is_hidden};
pub use py_names::{NamesError, thread_names_from_interpreter};
pub use records::{Records, read_records};
pub use stacks::{get_stack_trace, get_stack_traces};
pub use stacks_over::get_stack_over;
pub use threads::{first_frame, native_id};
pub use trace::{Addresses, Frame, LocalVariable, StackTrace};
