//! The words of `pysalvage`, by clap.
#![tactic(auto)]

mod asked;
mod limit;
mod taken;

pub use asked::{Asked, SalvageWords, Sections, read_words};
pub use core_words::ArgsError;
