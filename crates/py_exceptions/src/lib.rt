//! What is said of the exceptions of a thread: their classes, their messages, their tracebacks and their notes.
//!
//! Which exceptions there are is told by `thread_exceptions`. Here each of them is told once, in the order of its
//! discovery. What can't be read costs what it breaks: each part has a mark of its own.
#![tactic(auto)]

mod described;
mod dict;
mod entry;
mod exception;
mod fault;
mod last;
mod name;
mod notes;
mod owner;
mod rule;
mod said;
mod thread;
mod traceback;
mod unicode;
mod unit;
mod value;
mod values;

pub use described::{Described, class_of, places_of};
pub use entry::{CalledFrame, Entry, TracebackPlaces};
pub use exception::ToldException;
pub use last::{LastException, LastFound, LastName, key_of, read_last};
pub use name::{ClassName, ClassPlaces, read_class};
pub use notes::Notes;
pub use rule::{FieldPlaces, Rule};
pub use said::Said;
pub use thread::{RaisedParts, ToldThread, read_exceptions};
pub use thread_exceptions::ExceptionsError;
pub use traceback::Traceback;
pub use unicode::InvalidData;
pub use unit::Unit;
pub use value::Value;
pub use values::Values;
