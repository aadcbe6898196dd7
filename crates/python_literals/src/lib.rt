//! Texts and bytes as Python writes them in code: `repr` of `str`, `bytes` and their like, and the grammar by which
//! such a literal is read, which has one reading.
#![tactic(auto)]

mod floats;
mod integers;
mod quotes;

pub use floats::{push_complex, push_float};
pub use integers::push_integer;
pub use quotes::{Style, is_printable, push_quoted};
