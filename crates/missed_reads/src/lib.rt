//! A memory that keeps which of its reads were refused.
//!
//! A reader over a part of a process's memory meets ranges that the part has not. Which these were is kept
//! here, whoever asked for them, by blocks of 64 KiB, so that a larger part can be handed over.
#![tactic(auto)]

mod missed;
mod misses;
mod told;

pub use missed::Missed;
pub use misses::{BLOCK, LIMIT, Misses};
pub use told::{MissedBlocks, missed_blocks, missed_value};
