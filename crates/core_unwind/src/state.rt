//! Where a thread stands.
ghost use Rattle.std.specs.Prelude.{◌≡◌};
ghost use Rattle.core_unwind.specs.States.{here};

/// Where a thread stands, or stood when it called: what one step begins with.
#[derive(Clone, Copy, Debug, PartialEq, Eq)]
pub struct State {
    /// The address of the code.
    pub pc: u64,
    /// Whether it is that of an instruction that was to run next, and not a return address.
    pub is_exact: bool,
    /// The registers by their DWARF numbers, each where it is known: on x86-64 0 to 15, and 16 for the return address;
    /// on aarch64 x0 to x30, and 31 for the stack pointer.
    pub registers: [Option<u64>; 32],
    /// The least CFA that its frame may have. It may be past 2^64 - 1.
    pub least: u128,
    /// How many more frames of signals there may be.
    pub signals: u32,
    /// How many more bytes of instructions may be read.
    pub bytes: u128,
}

impl State {
    /// The address of the instruction: of a return address that of the last byte of the call.
    pub(crate) fn here(&self) -> u64
        ensures { result ≡ here self.now }
    {
        if self.is_exact {
            self.pc
        } else {
            self.pc.saturating_sub(1)
        }
    }
}
