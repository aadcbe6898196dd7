//! Whether a layout is that of the Python which died, by what its own process tells.
//!
//! Each built-in type names its members in memory, with their places and widths, and how many bytes an instance has;
//! 3.13 begins its runtime record with a table of places. What they tell is compared with the layout, number by
//! number. Beside it stands how many known answers are right of those that the layout's numbers lead to: they decide
//! nothing alone. A number that nothing tells, or whose words are not in memory, is not told: never another one.
#![tactic(auto)]

mod checking;
mod classes;
mod contents;
mod keys;
mod members;
mod questions;
mod rows;
mod telling;
mod text;
mod threads;
mod tree;
mod trusting;
mod walking;

pub use checking::{KeyTold, LayoutCheck, Verdict, check_layout};
pub use telling::{Release, Types};
pub use text::push_check;
pub use tree::check_value;
pub use trusting::Build;
pub use walking::ThreadPlace;
