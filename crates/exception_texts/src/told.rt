//! What a section tells of exceptions.

use py_exceptions::{LastException, ToldThread};

/// The exceptions of a thread.
#[derive(Drop)]
pub struct ThreadTold {
    /// Its id, as Python has it.
    pub thread_id: u64,
    /// What it raises and handles, and all that this leads to.
    pub told: ToldThread,
}

/// The exceptions of an interpreter's threads.
#[derive(Drop)]
pub enum ExceptionsOf {
    /// Where exceptions stand is not described for its version.
    NotDescribed,
    /// Those of each thread that is shown, in order.
    Read(Vec<ThreadTold>),
}

/// The exceptions of an interpreter, as a section tells them.
#[derive(Drop)]
pub struct InterpreterExceptions {
    /// The address of the interpreter.
    pub interpreter: u64,
    /// Its threads' exceptions, or that they are not described.
    pub exceptions: ExceptionsOf,
    /// The last exception that no code handled; none where it is not described.
    pub last: Option<LastException>,
}
