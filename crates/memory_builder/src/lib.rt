//! Programs of Python, as objects in memory: what the threads of a process are to show, which of that can be
//! written, and how much memory it takes.
#![tactic(auto)]

mod frames;
mod locals;
mod parts;
mod program;
mod sizes;
mod threads;
mod validity;
mod values;

pub use parts::{Program, ProgramFrame, ProgramItem, ProgramLocal, ProgramThread, ProgramValue};
pub use program::{holder_place, laid_program, lock_record_place};
pub use sizes::{family_of, objects_size};
pub use validity::{FramePlace, first_invalid};
