//! What a core tells of a Python process.
use elf64_core::Text;
use py_fields::Version;
use py_stacks::StackTrace;

/// What a core tells of a Python process: how it ended, and the stacks of its threads.
#[derive(Debug, Drop)]
pub struct Report {
    /// The signal of the core's first status record, where it has one.
    pub signal: Option<i16>,
    /// The process's id, and its arguments up to the first nul with what is no UTF-8 replaced, of the core's last
    /// process record, where it has one.
    pub process: Option<(i32, Text)>,
    /// The version of Python that ran.
    pub version: Version,
    /// The stacks of the interpreter's threads, in the order of their chain.
    pub traces: Vec<StackTrace>,
}
