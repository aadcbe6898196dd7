//! The report of a program whose core and image are written: it shows that program, and nothing else.
#![tactic(auto)]

mod reporting;
mod sample;

pub use image_builder::{
    BuildError, Program, ProgramFrame, ProgramItem, ProgramLocal, ProgramThread, ProgramValue,
};
pub use py_process::{CoreError, Report};
pub use reporting::report_of_program;
pub use sample::{sample_core, sample_text};
