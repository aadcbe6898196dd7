//! At which addresses the built-in types of a Python process stand, and whether an object is of one that has no place.
//!
//! A type is told by its address, never by its name alone: a program's own class may have any name. Each place says how
//! it was found: by an exported symbol, by the classes of a frame's code, or as an entry of the type's own module, and
//! then only where its instances have as many bytes as those of the type that is looked for.
#![tactic(auto)]

mod classes;
mod code_types;
mod holders;
mod module_types;
mod places;

pub use classes::{TypeFields, class_of, is_type};
pub use code_types::{CoreTypes, core_types};
pub use holders::{Holder, is_holder};
pub use module_types::module_type;
pub use places::{Found, TypePlace, by_symbol};
