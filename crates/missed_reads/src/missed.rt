//! A memory that keeps the ranges that it refused.
ghost use Rattle.std.specs.Prelude.{◌≡◌, length, OnErr, IsErrOf, IsTrue};
ghost use Rattle.process_memory.specs.Seen.{OneRead, HoldsRange, with_bytes, items_of};
ghost use Rattle.missed_reads.specs.Refused.{Keeps};

use crate::Misses;
use process_memory::{ProcessMemory, ReadFault};
use std::alloc::Global;

/// A memory, and where the ranges are kept that are asked of it and refused: of each `read` and each `copy` that is
/// refused the range is added there. What it answers is what the memory answers.
#[derive(Drop)]
pub struct Missed<'m, P> {
    inner: P,
    misses: &'m mut Misses,
}

impl<'m, P: ProcessMemory> Missed<'m, P> {
    /// Over a memory, with where refused ranges are kept. What is there stays.
    pub fn new(inner: P, misses: &'m mut Misses) -> Missed<'m, P>
        ensures { ⟦<Missed<'m, P> as ProcessMemory>⟧.seen result ≡ P.seen inner }
    {
        Missed { inner, misses }
    }
}

impl<'m, P: ProcessMemory> ProcessMemory for Missed<'m, P> {
    ghost seen = { λ s. P.seen s.inner };

    fn read(&mut self, addr: u64, buf: &mut [u8]) -> Result<(), ReadFault>
        ensures law { OneRead (P.seen self.old.inner) (P.seen self.new.inner) addr (length buf.old)
            (with_bytes buf.new result) }
        ensures left { OnErr result (buf.new ≡ buf.old) }
        ensures memory { IsErrOf result ReadFault.OutOfMemory → IsTrue (P.seen self.old.inner).may_want_memory }
        ensures kept { Keeps self.old.misses.now self.new.misses.now addr (length buf.old) result }
    {
        let answer = self.inner.read(addr, buf);
        if let Err(ReadFault::Unreadable { .. }) = &answer {
            self.misses.add(addr, buf.len() as u64);
        }
        answer
    }

    fn copy(&mut self, alloc: Global, addr: u64, len: u64) -> Result<Vec<u8>, ReadFault>
        ensures law { OneRead (P.seen self.old.inner) (P.seen self.new.inner) addr len (items_of result) }
        ensures held { IsErrOf result ReadFault.OutOfMemory → HoldsRange (P.seen self.old.inner) addr len }
        ensures kept { Keeps self.old.misses.now self.new.misses.now addr len result }
    {
        let answer = self.inner.copy(alloc, addr, len);
        if let Err(ReadFault::Unreadable { .. }) = &answer {
            self.misses.add(addr, len);
        }
        answer
    }
}
