//! The text of one stack of each thread: its Python frames and its native ones, as they were paired.
//!
//! Each frame has one line, the newest first; a native one ends in ` [C]`, which no line of Python's does.
#![tactic(auto)]

mod fronts;
mod items;
mod stacks;

pub use stacks::push_stacks;
