//! The stacks of a core, from its bytes.
#![tactic(auto)]

mod core_walk;
mod finding;
mod found;
mod named;
mod notes;
mod printing;
mod process;
mod programs;
mod python_core;
mod reporting;
mod slimmed_error;
mod stacks_in;

pub use core_walk::walk;
pub use finding::process_info;
pub use found::PythonBinaries;
pub use named::named_version;
pub use notes::Notes;
pub use process::{Process, open, open_named};
pub use python_core::PythonCoreDump;
pub use reporting::{Loaded, load, report, report_counted, report_over};
pub use slimmed_error::SlimmedError;
