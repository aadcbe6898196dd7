//! How the signal came about that ended a process, as the note `NT_SIGINFO` of its core tells it: Linux' `siginfo_t`,
//! by its code first. Who sent it, the address that was wrong and in which way, or the call that a filter refused.
//!
//! What the note can't tell is data too, with its cause. The layout is the same on x86-64 and aarch64.
#![tactic(auto)]

mod reading;
mod tables;
mod text;
mod told;
mod tree;

pub use reading::read_signal;
pub use tables::{meaning_of, name_of};
pub use text::push_signal;
pub use told::{Cause, CrashSignal, Untold};
pub use tree::signal_value;
