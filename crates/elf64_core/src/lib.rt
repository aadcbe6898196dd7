//! The ELF64 format: headers, segments, sections, symbols and notes of a file's bytes, names and texts.
//!
//! Everything that is handed out is a part of the file's bytes, or a number that stands there. A core
//! dump and the binaries that it mapped are read through this crate. The rules are those of the
//! System V gABI for 64-bit little-endian files.
#![tactic(auto)]

mod build_id;
mod error;
mod fields;
mod header;
mod name;
mod note;
mod nul;
mod offsets;
mod section;
mod section_table;
mod segment;
mod span_table;
mod steps;
mod string_table;
mod symbol;
mod text;

pub use build_id::{BuildId, read_build_id, read_elf_build_id};
pub use error::ElfError;
pub use fields::{u16_in, u32_in, u64_in};
pub use header::{Elf64, Machine};
pub use name::Name;
pub use note::Note;
pub use nul::{first_nul, string_at, until_nul};
pub use section::{Section, Sections};
pub use segment::{LOAD, NOTE, Segment, Segments};
pub use span_table::{SpanTable, TableEntry};
pub use steps::Steps;
pub use string_table::{StringTable, string_in};
pub use symbol::{Symbol, SymbolKind};
pub use text::Text;
