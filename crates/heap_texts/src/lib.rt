//! A section of what is told of a process: the objects of its heap, by class, as text and as JSON.
//!
//! Names come out of a process's memory: what they hold of control characters and quotes is escaped, and each stands at
//! the end of its line, so that none forges one.
#![tactic(auto)]

mod firsts;
mod lines;
mod text;
mod tree;

pub use text::push_heaps;
pub use tree::heaps_value;
