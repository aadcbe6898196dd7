//! A Python process: what its binaries say, which version runs in it, where its interpreter is, and why a core of
//! one gives no stacks.
#![tactic(auto)]

mod binary;
mod binary_error;
mod candidates;
mod core_error;
mod file_version;
mod head;
mod interpreter;
mod library;
mod lock;
mod lock_error;
mod named_image;
mod named_version;
mod process_info;
mod python_version;
mod ranges;
mod report;
mod search_error;
mod symbols;
mod version_error;

pub use binary::{BinaryInfo, parse_binary};
pub use binary_error::BinaryError;
pub use core_error::CoreError;
pub use head::{read_head, read_head_from};
pub use interpreter::get_interpreter_address;
pub use library::is_python_lib;
pub use lock::get_threadstate_address;
pub use lock_error::LockError;
pub use named_version::version_of_names;
pub use process_info::PythonProcessInfo;
pub use python_version::get_python_version;
pub use report::Report;
pub use search_error::SearchError;
pub use version_error::VersionError;
