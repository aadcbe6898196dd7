//! The memory of a process, and readers over it.
//!
//! A `ProcessMemory` is a list of pieces; the byte at an address is that of the first piece that holds
//! it. Everything above reads through this trait alone: what a reader answers is a definition over the
//! memory, the same over each memory that agrees with this one and holds what was read. Where the memory
//! comes from, as from a core dump, is not known here.
#![tactic(auto)]

mod counted;
mod memory;
mod part;
mod pieces;
mod readers;
mod recorder;

pub use counted::Counted;
pub use memory::{ProcessMemory, ReadFault, Span};
pub use part::{Part, Piece};
pub use pieces::{Pieces, copy_pieces, read_pieces};
pub use readers::{record, record_in, record_wide, word, word_past, word_wide};
pub use recorder::Recorder;
