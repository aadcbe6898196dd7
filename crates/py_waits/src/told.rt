//! What is told of an interpreter's threads that wait.
use crate::wait::Wait;

/// A thread, and what it waits for.
#[derive(Debug, Drop, PartialEq, Eq)]
pub struct ThreadWait {
    /// The id that the interpreter gave.
    pub thread_id: u64,
    /// What it waits for, where that is known.
    pub wait: Option<Wait>,
}

/// What the threads of an interpreter wait for, in the order of their chain.
#[derive(Debug, Drop)]
pub struct InterpreterWaits {
    /// The interpreter's address.
    pub interpreter: u64,
    pub threads: Vec<ThreadWait>,
}
