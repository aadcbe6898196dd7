//! Which native frame of each thread runs which of its Python frames: one stack of both, by the core and the files that
//! it mapped alone.
//!
//! What one call of the interpreter's loop executes is a run (`py_runs`), and that call is a native frame. From 3.11 on
//! the border of a run lies in the part of the stack of that frame; up to 3.10 each call executes one frame, and both
//! are taken in their order. Where the numbers don't allow it the two stacks stand one below the other
//! (`native_pairs`).
#![tactic(auto)]

mod code;
mod frames;
mod laid;
mod runs;
mod stack;
mod starts;
mod tree;
mod walked;

pub use code::{CodeRange, OwnCode};
pub use frames::frames_of;
pub use laid::Pairing;
pub use stack::{PairedStack, pair_stacks};
pub use starts::starts_of;
pub use tree::paired_value;
