//! Slim cores: some ranges of a core's memory, and all that its notes say, as a core of its own.
#![tactic(auto)]

mod error;
mod headers;
mod joined;
mod slimming;
mod writing;

pub use error::SlimError;
pub use slimming::slim;
