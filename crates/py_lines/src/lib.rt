//! Line tables of CPython's code objects: which line stands at which offset into the code.
//!
//! A table is read by the grammar of its family, entry by entry. What it says is a list of ranges of the
//! code, each with a line or with none.
#![tactic(auto)]

mod encoding;
mod entry;
mod error;
mod lines;
mod runs;
mod varint;

pub use encoding::encode;
pub use error::EncodeError;
pub use lines::{LineFamily, LineRange, line_at, ranges};
