//! Names of an interpreter's threads, read from a process's memory.
//!
//! The module `threading` keeps its threads in a dict, and each of them its name in its own: the names are four
//! searches over the slots of dicts, and so many slots are looked at in all, at most.
#![tactic(auto)]

mod names;
mod names_error;
mod search;
mod typed;

pub use names::thread_names_from_interpreter;
pub use names_error::NamesError;
pub use search::{Looked, find_in};
pub use typed::word_beside;
