//! The outside: files by name, and streams of bytes out.
//!
//! What a call means is said of every object of a trait, by what it tells of itself: of files the names
//! with their bytes, where they are told, and which names failed; of a stream the bytes written so far,
//! where they are told, and how many calls failed. Two objects are in memory, and tell all; two are the
//! system's, and tell nothing of the bytes.
#![tactic(auto)]

mod faults;
mod files;
mod memory_files;
mod memory_sink;
mod real_files;
mod real_sink;
mod sink;

pub use faults::{FileFault, SinkFault};
pub use files::Files;
pub use memory_files::MemoryFiles;
pub use memory_sink::MemorySink;
pub use real_files::RealFiles;
pub use real_sink::RealSink;
pub use sink::Sink;
