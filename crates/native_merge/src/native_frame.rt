//! Frames of native code.
use elf64_core::Text;

/// A frame of native code, as a symbolicator gives it.
#[derive(Debug, Drop)]
pub struct NativeFrame {
    /// The address that was asked for.
    pub addr: u64,
    /// The name of its function, where that is known.
    pub function: Option<Text>,
    /// The source file as the debug information names it, where that is known.
    pub filename: Option<Text>,
    /// The path of the file that is mapped at the address.
    pub module: Text,
    /// The line in the source file, from 1 on, where it is known.
    pub line: Option<u32>,
}
