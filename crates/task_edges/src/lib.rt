//! Which tasks of asyncio wait for which: what completes what, followed backwards from what a task waits for.
#![tactic(auto)]

mod edges;
mod search;
mod waits;

pub use edges::Edge;
pub use waits::{Waiting, Waits, waits_of};
