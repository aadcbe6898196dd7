//! The part of a stack that a native frame has.

/// A native frame, as far as it tells which of Python's frames it runs.
#[derive(Clone, Copy, Debug, PartialEq, Eq)]
pub struct Part {
    /// Whether its code is of one of Python's own two files.
    pub is_own: bool,
    /// Its stack pointer, where its part of the stack begins, if that is known.
    pub from: Option<u64>,
    /// Its canonical frame address, behind the last byte of its part, if that is known.
    pub to: Option<u64>,
}
