//! The top call: from the words of a command line to a text.
//!
//! `run` reads the files that the words name, does the command's work over their contents, and writes one
//! text or one line why there is none. A command has its words in `core_words`, what it comes to in the
//! specs here, and a function over the contents of its files; `run` and its contract are the same for all.
#![tactic(auto)]

mod cause;
mod command;
mod dump_command;
mod judged;
mod layouts;
mod lines;
mod locate_command;
mod merge_command;
mod opened;
mod reach_command;
mod sample_command;
mod slim_command;
mod triage_command;
mod walk_command;

pub use command::run;
pub use core_stacks::{PythonCoreDump, report, report_counted, walk};
pub use core_texts::{PrintError, write_trace};
pub use core_words::{ArgsError, DumpWords, config_from_args};
pub use py_process::{CoreError, Report};
