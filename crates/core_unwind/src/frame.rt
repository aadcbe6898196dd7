//! Frames, and what follows them.
use crate::end::End;
use crate::mark::Mark;
use crate::place::CodePlace;
use crate::state::State;

/// A frame.
#[derive(Clone, Copy, Debug, PartialEq, Eq)]
pub struct Frame {
    /// The address of the code: of the instruction that was to run next, or behind the call.
    pub pc: u64,
    /// Whether it is that of an instruction that was to run next: the thread's newest frame, and one that a signal
    /// interrupted. Else it is a return address, and the call stands before it.
    pub is_exact: bool,
    /// Where the code stands, where its file is at hand: by the address itself where it is exact, else by the one
    /// before it.
    pub place: Option<CodePlace>,
    /// Its canonical frame address, the stack pointer that its caller has, where it is known.
    pub cfa: Option<u64>,
    /// Whether its function is the one to which a handler of a signal returns.
    pub is_signal: bool,
    /// By what else than tables its caller was found; none where tables alone say how the stack goes on, or ends.
    pub mark: Option<Mark>,
}

/// What follows a frame.
#[derive(Clone, Copy, Debug, PartialEq, Eq)]
pub enum Next {
    /// Its caller.
    Caller(State),
    /// Nothing: the stack ends.
    Stops(End),
}

/// A frame, and what follows it.
#[derive(Clone, Copy, Debug, PartialEq, Eq)]
pub struct Turn {
    pub frame: Frame,
    pub next: Next,
}
