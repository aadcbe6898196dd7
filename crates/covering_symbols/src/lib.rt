//! The functions of an ELF file: which of them covers an address; and the address of a place in the file.
#![tactic(auto)]

mod function_key;
mod function_table;
mod images;
mod segment_table;

pub use function_key::FunctionKey;
pub use function_table::FunctionTable;
pub use images::image_symbols;
pub use segment_table::SegmentTable;
