//! Native frames: what they show, and native stacks merged with Python frames.
//!
//! A native address shows frames by a symbolicator: here by the images of a process's files, or by answers in memory.
//! Python frames stand in the place of the interpreter's steps on a native stack.
//!
//! Cython turns Python code into C. Its functions have names that it has made longer, and its C files tell in
//! comments which line of a `.pyx` file each piece comes from. Here the names are cut back to what was written, and
//! frames of such C files are put where Cython's code stands.
#![tactic(auto)]

mod copies;
mod cython;
mod cython_file;
mod digits;
mod error;
mod fault;
mod frame_copies;
mod function_kind;
mod gathered;
mod image_symbolicator;
mod memory_sources;
mod memory_symbols;
mod merge;
mod merge_error;
mod native_frame;
mod native_stack;
mod natives_shown;
mod paths;
mod read_images;
mod source_line;
mod source_map;
mod source_maps;
mod sources;
mod stack_steps;
mod symbol_cache;
mod symbol_fault;
mod symbolicator;
mod translation;

pub use cython::{demangle, ignore_frame};
pub use error::SourceMapError;
pub use fault::SourceFault;
pub use image_symbolicator::ImageSymbolicator;
pub use memory_sources::MemorySources;
pub use memory_symbols::MemorySymbols;
pub use merge_error::MergeError;
pub use native_frame::NativeFrame;
pub use native_stack::NativeStack;
pub use paths::resolve_filename;
pub use source_map::SourceMap;
pub use source_maps::SourceMaps;
pub use sources::{NoSources, Sources};
pub use symbol_fault::SymbolFault;
pub use symbolicator::Symbolicator;
