//! Tables of ranges of addresses, and memory whose bytes stand in files by such a table.
//!
//! Ranges are in an order of preference: what stands at an address is found by the first range that holds it.
//! Nothing here knows what a range is of, as of a segment, nor what a file is.
#![tactic(auto)]

mod lookup;
mod overlay;
mod stored;
mod table;

pub use stored::{Stored, piece_of, rest_of, run_of};
pub use table::{FileRange, FileRun, PieceTable};
