//! Values as text, in the manner of Python's `repr`: a function of their trees but for floats, whose texts read back.
#![tactic(auto)]

mod coroutines;
mod identifiers;
mod leaves;
mod names;
mod text;

pub use text::push_repr;
