//! The text of `/proc/PID/maps`: one entry a line, with its range, its permissions and its path.
//!
//! The text is what a kernel writes (`proc_pid_maps(5)`): white space parts the fields, and numbers are
//! hexadecimal.
#![tactic(auto)]

mod entry;
mod error;
mod fields;
mod filter;
mod line;
mod lines;
mod path;
mod perm;

pub use entry::{EntryPath, MapsEntry, PathName};
pub use error::MapsError;
pub use fields::number_in;
pub use filter::{FilteredEntries, filter_relevant};
pub use lines::{MapsEntryIter, first_line, parse_file};
pub use perm::Perm;
