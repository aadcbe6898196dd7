//! What objects lead to: every object of a process that can be reached from some addresses.
//!
//! An object's children are the items of a list or a tuple, and the keys and values of a dict; no other object has
//! any. A search goes along them, meets each object once, and ends on cycles.
#![tactic(auto)]

mod contents;
mod objects;
mod parts;
mod reached;
mod search;

pub use reached::{ReachError, ReachObject};
pub use search::reach;
