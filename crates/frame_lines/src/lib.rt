//! The line of a frame by a line table of any length, and by the steps of its version: what is shown of a process that
//! is salvaged.
//!
//! A table may have up to 2^24 bytes, which are read by ranges. The steps of pairs are unsigned where the version is
//! older than 3.6. (`py_lines` has the tables that `pystacks` reads, of fewer than 65536 bytes and with signed steps.)
#![tactic(auto)]

mod entry;
mod form;
mod table;
mod walk;

pub use form::{TableForm, form_of};
pub use table::read_table;
pub use walk::line_at;
