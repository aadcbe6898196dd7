//! The exceptions of a thread: which one is raised, which are handled, and all that these lead to.
//!
//! A thread names the exception that C code has set and Python has not yet seen, and the newest of a chain of items,
//! each of which holds an exception that is handled. An exception names its cause, its context and, where it is a
//! group, its members; each is told once, by its address. What can't be read on keeps what came before, and says so.
#![tactic(auto)]

mod described;
mod discovery;
mod error;
mod exception;
mod groups;
mod links;
mod places;
mod thread;

pub use described::places_of;
pub use discovery::{Met, read_closure};
pub use error::ExceptionsError;
pub use exception::{Parts, What};
pub use groups::{Group, Members};
pub use links::{LinkEnd, Links, Lost, read_links};
pub use places::{ExceptionPlaces, GroupPlaces, Places, RaisedPlaces, is_sound};
pub use thread::{Handled, Owner, Raised, ThreadExceptions, Value, read_thread};
