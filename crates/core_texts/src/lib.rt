//! Texts of stack traces, and texts of parts.
//!
//! A text is made as a whole, by one call for each command. A text of parts is data, written to a stream part by part,
//! so that it takes no memory.
#![tactic(auto)]

mod as_json;
mod frame;
mod line;
mod part;
mod part_text;
mod print_error;
mod text;
mod trace;

pub use as_json::report_json;
pub use frame::frames_text;
pub use line::write_parts;
pub use part::{Part, Parts, parts};
pub use part_text::push_parts;
pub use print_error::PrintError;
pub use text::{report_text, walk_text};
pub use trace::write_trace;
