//! How the front of a chain ends.

/// How the front of a chain ends.
#[derive(Clone, Copy, Debug, PartialEq, Eq)]
pub enum ChainEnd {
    /// At null: these are all members of the chain.
    Whole,
    /// Before a further member, of which only the address is known: no more may be met.
    Cut,
    /// Before a range that is not in memory: `len` bytes at `addr`. A range whose address was computed outside 0 to
    /// 2^64 - 1 has the address 2^64 - 1.
    Unreadable { addr: u64, len: u64 },
    /// Before a thread whose record names another interpreter, the one at this address.
    Stray { interpreter: u64 },
}
