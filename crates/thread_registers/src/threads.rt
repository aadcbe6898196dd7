//! What is told of threads.

/// A thread that Python knows.
#[derive(Clone, Copy, Debug, PartialEq, Eq)]
pub struct PythonThread {
    /// The id that the interpreter gave: on x86-64 the thread pointer.
    pub thread_id: u64,
    /// The id that the system gave, where Python's record has it (from 3.11 on).
    pub native_id: Option<u64>,
}

/// Which of some Python threads a thread is.
#[derive(Clone, Copy, Debug, PartialEq, Eq)]
pub struct PythonMatch {
    /// Its index among them.
    pub index: usize,
    /// The id that the interpreter gave it.
    pub thread_id: u64,
}

/// Whose thread it is.
#[derive(Clone, Copy, Debug, PartialEq, Eq)]
pub enum Whose {
    /// This one of some Python threads.
    Python(PythonMatch),
    /// None of them.
    Other,
    /// That is not told: it would be by the system's id, and not all of them have one.
    Untold,
}

/// A register.
#[derive(Clone, Copy, Debug)]
pub struct Register {
    /// Its name, as Linux' headers have it.
    pub name: &'static str,
    /// What it held.
    pub value: u64,
}

/// A thread of a process, by its status record.
#[derive(Debug, Drop)]
pub struct ThreadRegisters {
    /// The id that the system gave (`pr_pid`).
    pub system_id: u32,
    /// Whose it is.
    pub whose: Whose,
    /// Its registers in the record's order; none where the record is too short for them, or of a machine whose
    /// registers are not known.
    pub registers: Option<Vec<Register>>,
}
