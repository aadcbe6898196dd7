//! A section of what is told of a process: the exceptions of each thread, and the last one that no code handled, as
//! Python shows them, and as JSON.
//!
//! Names and messages come out of a process's memory: what they hold of control characters and quotes is escaped, so
//! that none forges a line; a frame's line ends in a parenthesis, as no mark's line does.
#![tactic(auto)]

mod class;
mod frames;
mod known;
mod last_text;
mod last_tree;
mod plan;
mod roots;
mod said;
mod text;
mod thread_tree;
mod told;
mod tree;
mod unicode;
mod values;

pub use class::push_named;
pub use last_text::push_exceptions;
pub use last_tree::exceptions_value;
pub use told::{ExceptionsOf, InterpreterExceptions, ThreadTold};
