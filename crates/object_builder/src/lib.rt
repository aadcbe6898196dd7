//! Objects of Python as bytes in memory: bytes of a stated length with fields at offsets, and text objects of each
//! kind. Each begins at a multiple of 16 bytes. Nothing here knows of programs, threads or frames.
#![tactic(auto)]

mod object;
mod sizes;
mod texts;

pub use object::{Value, Write, add_aligned, add_object, optional_write};
pub use sizes::{rounded, text_len};
pub use texts::add_text;
