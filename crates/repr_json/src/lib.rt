//! Values as JSON: a function of their trees but for the decimals of floats, which read back.
#![tactic(auto)]

mod leaves;
mod numbers;
mod shown;
mod value;

pub use shown::ShownValues;
pub use value::repr_value;
