//! Values of a process as Python shows them: from memory to a tree.
//!
//! The tree is a total function of memory: what can't be read is a part of the answer, and costs what it breaks. How
//! much is shown of a value is bounded by numbers that are handed in, and what is left out is told with how much it is.
//! An object of another type has the attributes of its own dict, where it is said how instances have theirs. A coroutine
//! has its name and how far it has come, where it is said how it stands. Nothing is shown within a dict whose keys other
//! dicts share, and of Python 2's sets, ranges and their likes; functions and modules are told by their types alone. The
//! text of a tree is another crate's.
#![tactic(auto)]

mod attributes;
mod coroutines;
mod error;
mod fronts;
mod kinds;
mod levels;
mod limits;
mod names;
mod numbers;
mod places;
mod repr;
mod slots;
mod texts;
mod values;

pub use attributes::InstanceRule;
pub use coroutines::{CoroutineForm, CoroutineRule, CoroutineState};
pub use error::ReprError;
pub use kinds::{Kind, ReprTypes};
pub use limits::Limits;
pub use repr::{BytesForm, IntegerForm, ItemsForm, Repr, TextForm};
pub use values::read_repr;
