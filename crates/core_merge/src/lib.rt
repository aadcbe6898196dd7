//! The frames of a thread of a core, merged with native addresses.
//!
//! The addresses come as a text, one a line. They are looked up by the core's own maps, each a file at an offset, and
//! by the images of these files; Python frames stand in the place of the interpreter's steps.
#![tactic(auto)]

mod addresses;
mod entries;
mod error;
mod thread;

pub use addresses::addresses_in;
pub use entries::core_entries;
pub use error::CoreMergeError;
pub use thread::merge_thread;
