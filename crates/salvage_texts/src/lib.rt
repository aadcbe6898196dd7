//! The text of fronts: the interpreters of a process, their threads and frames, as far as their chains go, and how each
//! of these ends.
//!
//! Names come out of a broken memory: what they hold of control characters and quotes is escaped, so that none forges a
//! line; and a frame's line ends in a parenthesis, as no line does that says what is missing.
#![tactic(auto)]

mod ends;
mod escape;
mod interpreter;
mod line;
mod salvaged;
mod standing;
mod thread;

pub use escape::push_escaped;
pub use salvaged::salvaged_text;
pub use standing::push_standing_line;
