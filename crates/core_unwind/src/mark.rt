//! How a stack goes on where no table says it.
use crate::state::State;
use frame_rows::Machine;

/// By what a caller was found where no table covers its callee. What the first two say follows from the machine's own
/// instructions; the others are guesses.
#[derive(Clone, Copy, Debug, PartialEq, Eq)]
pub enum Mark {
    /// The two instructions to which a handler of a signal returns.
    Trampoline,
    /// The instructions that stand before a return.
    Epilogue,
    /// A guess: what the register of the frame pointer points to.
    FramePointer,
    /// A guess: the thread called what is no code.
    Jump,
}

/// How steps are made.
#[derive(Clone, Copy, Debug)]
pub struct Manner {
    /// The machine.
    pub machine: Machine,
    /// Which bits of a signed return address are those of the address.
    pub code_bits: u64,
    /// Whether frame pointers may be guessed.
    pub guesses: bool,
}

/// How a frame goes on of which no table speaks.
#[derive(Clone, Copy)]
pub(crate) struct Going {
    /// Its canonical frame address.
    pub(crate) cfa: u64,
    /// Whether it is that of a signal.
    pub(crate) is_signal: bool,
    /// By what that was found.
    pub(crate) mark: Mark,
    /// Its caller.
    pub(crate) caller: State,
}
