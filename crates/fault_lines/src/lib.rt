//! What is said of each fault of a file, of a layout file and of a core: the parts of its line, as tables, and the
//! line.
//!
//! Both programs say these. What stands before the parts, a program's name, is its own, and so is the status.
#![tactic(auto)]

mod core_faults;
mod file_faults;
mod line;

pub use core_faults::core_parts;
pub use file_faults::{file_parts, layout_parts, text_part};
pub use line::say_line;
