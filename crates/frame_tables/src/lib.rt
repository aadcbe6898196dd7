//! What an ELF file says of the call frames of its functions: its table of entries, the entry that covers an address,
//! and the row of rules there.
//!
//! The table is `.eh_frame_hdr`, which the program header PT_GNU_EH_FRAME names; its entries, and the records that they
//! share, are those of `.eh_frame`, by the LSB's page on exception frames and DWARF 5, section 6.4. All addresses are
//! those of the file's own program headers. The crate knows no core and no process, and takes no memory.
#![tactic(auto)]

mod augmentation;
mod common;
mod field;
mod flaw;
mod header;
mod part;
mod record;
mod table;

pub use flaw::{RecordError, RecordFlaw, TableError};
pub use part::Part;
pub use record::Entry;
pub use table::{Room, Table};
