//! What is told of native stacks.
use elf64_core::Name;
use native_frames::ThreadStack;
use thread_registers::Whose;

/// A thread of a status record.
#[derive(Debug, Drop)]
pub struct NativeThread {
    /// The id that the system gave it.
    pub system_id: u32,
    /// Which of the Python threads that are known it is.
    pub whose: Whose,
    /// Whether it got the signal of the process: its record is the first one, and names a signal.
    pub is_crashed: bool,
    /// Its stack; none where the record does not tell where it stands.
    pub stack: Option<ThreadStack>,
    /// What follows that by a guess: where the thread jumped to no code, the stack of who may have called.
    pub guessed: Option<ThreadStack>,
}

/// The native stacks of a process.
#[derive(Debug, Drop)]
pub struct NativeStacks {
    /// The paths of the files that were mapped, by the numbers that frames have for them: one for each entry of the
    /// file tables. The last one may be the vdso, under `[vdso]`.
    pub files: Vec<Name>,
    /// The threads, in the order of their records.
    pub threads: Vec<NativeThread>,
}
