//! What the frames of coroutines show, and where their parts stand by a layout and its records.
#![tactic(auto)]

mod described;
mod frame;

pub use described::{family_of, places_of};
pub use frame::{CoroutineFrame, read_frame};
