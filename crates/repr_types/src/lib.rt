//! The types by which values are told, in a process: found by the symbols of its images.
//!
//! A symbol names a type, or an object of the one that has no symbol of its own, as `None`. What is told is told by
//! such a symbol, never by a type's name; a type that no symbol gives is not known.
#![tactic(auto)]

mod found;
mod symbols;

pub use symbols::find_repr_types;

#[cfg(test)]
mod tests;
