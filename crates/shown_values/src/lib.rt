//! The values of the locals of a broken process, as they are shown: of each its text, and its JSON where that is asked
//! for; and how many are left out.
#![tactic(auto)]

mod left_out;
mod shown;

pub use left_out::{push_left_out, put_left_out};
pub use shown::shown_values;
