//! What is left of a process's stacks, as values of JSON.
#![tactic(auto)]

mod kind;
mod member;
mod salvaged;
mod thread;

pub use salvaged::{ended_value, interpreters_value, process_value, signal_value};
