//! The search for interpreters in the memory of a process that is of no file.
//!
//! A core that was cut may lack all that leads to an interpreter: the runtime's record, and the words of a bss. The
//! threads of an interpreter name it, and they lie in the process's heap. So its words are looked at, as many as a
//! bound allows, and what one of them leads to is taken only where it is known as the process's own.
#![tactic(auto)]

mod known;
mod pieces;
mod salvaged;
mod search;

pub use pieces::{HeapPiece, heap_pieces};
pub use salvaged::salvage_or_search;
pub use search::{HeapSearch, search_heap};
