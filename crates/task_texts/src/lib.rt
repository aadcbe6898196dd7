//! A section of what is told of a process: the tasks of asyncio, of each interpreter, as text and as JSON.
//!
//! Names come out of a process's memory: what they hold of control characters and quotes is escaped, so that none
//! forges a line; and a frame's line ends in a parenthesis, as no line does that says how a chain breaks off.
#![tactic(auto)]

mod counts;
mod heads;
mod members;
mod text;
mod told;
mod tree;
mod words;

pub use text::push_tasks;
pub use told::InterpreterTasks;
pub use tree::tasks_value;
