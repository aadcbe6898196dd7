//! What is told of a native stack.
use core_unwind::{End, Frame, Mark};
use elf64_core::Name;

/// The function in which a frame stands.
#[derive(Debug, Drop)]
pub struct Function {
    /// Its name, as the file has it.
    pub name: Name,
    /// How many bytes behind its start the frame's address stands.
    pub offset: u64,
}

/// A frame, and its function.
#[derive(Debug, Drop)]
pub struct NativeFrame {
    pub frame: Frame,
    /// The function, where its file is at hand, and one of its symbols covers the address.
    pub function: Option<Function>,
}

/// Frames, each with its caller behind it, and how they end.
#[derive(Debug, Drop)]
pub struct ThreadStack {
    pub frames: Vec<NativeFrame>,
    pub end: End,
    /// The number of the file that was not at hand, where the stack ends there.
    pub missing: Option<usize>,
    /// By what its newest frame was guessed; none of a thread's own stack.
    pub guess: Option<Mark>,
}
