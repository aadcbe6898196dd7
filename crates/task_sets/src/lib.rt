//! The objects that asyncio has registered as its tasks, in an interpreter: the members of sets, what weak references
//! lead to, and attributes by their names.
#![tactic(auto)]

mod named;
mod once;
mod places;
mod registered;
mod roots;
mod sets;
mod tables;

pub use named::read_attribute;
pub use places::{RootPlaces, SetPlaces, places_of};
pub use registered::read_registered;
pub use roots::{Roots, read_roots};
