//! The tasks of an interpreter, as a section tells them.

use py_tasks::{Frameworks, TasksOf};

/// The tasks of an interpreter.
#[derive(Debug, Drop)]
pub struct InterpreterTasks {
    /// The address of the interpreter.
    pub interpreter: u64,
    /// Its tasks, or why none are told.
    pub tasks: TasksOf,
    /// Which other frameworks it has, whose tasks are not read; none where its modules can't be read.
    pub frameworks: Option<Frameworks>,
}
