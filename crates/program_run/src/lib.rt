//! What the runs of two programs share: the words of a command line, reading the files that words name, and how a run
//! ends, with its text or its line, and its status.
//!
//! A program is told of by its causes (`RunCause`), and by what its commands come to, which its own specs say
//! (`Program` of the specs).
#![tactic(auto)]

mod cause;
mod core_files;
mod ending;
mod reading;
mod trouble;
mod words;

pub use cause::RunCause;
pub use core_files::CoreFiles;
pub use ending::finish;
pub use reading::{read_file, read_images};
pub use trouble::{FileTrouble, Trouble};
pub use words::command_words;
