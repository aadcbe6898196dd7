//! The words of a command line: which command they ask for, and which files it names.
#![tactic(auto)]

mod args_error;
mod arguments;
mod command;
mod dump;
mod found;
mod locate;
mod merge;
mod numbers;
mod reach;
mod sample;
mod slim;
mod taken;
mod triage;
mod walk;

pub use args_error::ArgsError;
pub use arguments::{flag, images_arg, locals_arg, matches_in, wanted};
pub use command::{Command, read_words};
pub use dump::{DumpWords, config_from_args};
pub use found::{images_given, is_set, option_value_of};
pub use locate::LocateWords;
pub use merge::MergeWords;
pub use numbers::{Release, digits_in};
pub use reach::ReachWords;
pub use sample::SampleWords;
pub use slim::SlimWords;
pub use triage::TriageWords;
pub use walk::{LayoutSource, WalkWords};
