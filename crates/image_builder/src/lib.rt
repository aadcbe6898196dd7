//! Cores and images of programs of Python: which can be written, their bytes, and a program for each seed.
#![tactic(auto)]

mod admission;
mod building;
mod core_file;
mod covered;
mod elf_records;
mod error;
mod image_file;
mod records;
mod room;
mod runtime_words;
mod seeded;

pub use building::{Built, build};
pub use error::BuildError;
pub use memory_builder::{
    Program, ProgramFrame, ProgramItem, ProgramLocal, ProgramThread, ProgramValue,
};
pub use room::{has_room, has_word_room};
pub use seeded::generate;
