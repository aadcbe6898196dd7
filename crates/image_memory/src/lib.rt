//! The memory of a process, as its core dump holds it.
//!
//! A core dump is seen as the bytes of its file, and its memory as one piece for each load segment. What
//! reads over a memory, and the files and streams of the outside, stand in the crates below, whose names
//! are named on.
#![tactic(auto)]

mod backed_dump;
mod contents;
mod core_dump;
mod dump_error;
mod file_table;
mod images;
mod map_table;
mod maps;
mod mmap;
mod notes;
mod places;
mod records;
mod subrange;
mod view;

pub use backed_dump::BackedDump;
pub use core_dump::CoreDump;
pub use dump_error::DumpError;
pub use file_table::FilePlace;
pub use images::Images;
pub use map_table::MapTable;
pub use maps::{ContainsAddr, CoreMapRange};
pub use mmap::{Mmap, read_elf_build_id_from_mmap};
pub use notes::first_desc;
pub use outside::{
    FileFault, Files, MemoryFiles, MemorySink, RealFiles, RealSink, Sink, SinkFault,
};
pub use process_memory::{
    Counted, Part, Piece, ProcessMemory, ReadFault, Recorder, Span, record, record_in, record_wide,
    word, word_past, word_wide,
};
pub use records::{
    NT_AUXV, NT_FILE, NT_PRPSINFO, NT_PRSTATUS, NT_SIGINFO, elf_prpsinfo, elf_prstatus,
};
pub use subrange::is_subrange;
pub use view::{BackedView, View, ViewOf};
