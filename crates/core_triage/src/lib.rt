//! Cores grouped by their stacks: the key of a core's stacks, and which keys are equal.
#![tactic(auto)]

mod groups;
mod key;

pub use groups::group;
pub use key::{FrameKey, StackKey, key_of};
