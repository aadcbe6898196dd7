//! What a process's memory is to its readers.
ghost use Rattle.std.specs.Prelude.{◌≡◌, length, OnErr, IsErrOf, IsTrue};
ghost use Rattle.process_memory.specs.Seen.{Seen, OneRead, HoldsRange, with_bytes, items_of};

use std::alloc::Global;
use thiserror::Error;

/// Why a range was not read.
#[derive(Debug, Drop, Error, PartialEq, Eq)]
pub enum ReadFault {
    /// A byte of the range that was asked for is not in memory. `addr` and `len`, in bytes, are the
    /// range; a range whose address was computed outside 0 to 2^64 - 1 has the address 2^64 - 1.
    #[error("{len} bytes at {addr:#x} are not in memory")]
    Unreadable { addr: u64, len: u64 },
    /// There was no memory left.
    #[error("out of memory")]
    OutOfMemory,
}

/// A range of addresses: `len` bytes from `start` on.
#[derive(Debug, Clone, Copy, Drop, PartialEq, Eq)]
pub struct Span {
    pub start: u64,
    pub len: u64,
}

/// The memory of a process.
///
/// It means a list of pieces; the byte at an address is that of the first piece that holds it, and from
/// 2^64 - 1 on no address has a byte. No call changes the memory. A read of no bytes is Ok at every
/// address.
pub trait ProcessMemory {
    /// The pieces, how many reads were counted, the ranges that were read with Ok where they are kept,
    /// the counter where there is one, and whether `read` may want memory at all.
    ghost seen: { Self → Seen };

    /// Fills the buffer with the bytes from `addr` on. Ok exactly where every byte is in memory; else
    /// `Unreadable` names the range, and the buffer is as it was.
    fn read(&mut self, addr: u64, buf: &mut [u8]) -> Result<(), ReadFault>
        ensures law { OneRead (seen self.old) (seen self.new) addr (length buf.old) (with_bytes buf.new result) }
        ensures left { OnErr result (buf.new ≡ buf.old) }
        ensures memory { IsErrOf result ReadFault.OutOfMemory → IsTrue (seen self.old).may_want_memory };

    /// A copy of the `len` bytes from `addr` on. Ok exactly where every byte is in memory; else
    /// `Unreadable` names the range. Memory is wanted only where the whole range is in memory: so a range
    /// that isn't there is refused, however long it is.
    fn copy(&mut self, alloc: Global, addr: u64, len: u64) -> Result<Vec<u8>, ReadFault>
        ensures law { OneRead (seen self.old) (seen self.new) addr len (items_of result) }
        ensures held { IsErrOf result ReadFault.OutOfMemory → HoldsRange (seen self.old) addr len };
}

impl<P: ProcessMemory> ProcessMemory for &mut P {
    ghost seen = { λ p. P.seen p.now };

    fn read(&mut self, addr: u64, buf: &mut [u8]) -> Result<(), ReadFault> {
        (**self).read(addr, buf)
    }

    fn copy(&mut self, alloc: Global, addr: u64, len: u64) -> Result<Vec<u8>, ReadFault> {
        (**self).copy(alloc, addr, len)
    }
}
