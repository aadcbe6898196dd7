//! A memory whose reads are counted.
ghost use Rattle.std.specs.Prelude.{◌≡◌, ◌+◌, ◌<◌, length, OnErr, IsErrOf, IsTrue};
ghost use Rattle.process_memory.specs.Seen.{OneRead, HoldsRange, with_bytes, items_of};
ghost use Rattle.process_memory.specs.Layers.{counted};

use crate::{ProcessMemory, ReadFault};
use elf64_core::Steps;
use std::alloc::Global;
use std::sync::ledger::Ledger;

/// A memory, and the counter of its reads.
#[derive(Drop)]
pub struct Counted<'s, P, L: Ledger> {
    inner: P,
    steps: &'s mut Steps<L>,
}

impl<'s, P: ProcessMemory, L: Ledger> Counted<'s, P, L> {
    /// Over a memory, counting on a counter. Each `read` and each `copy` ticks once.
    pub fn new(inner: P, steps: &'s mut Steps<L>) -> Counted<'s, P, L>
        ensures { ⟦<Counted<'s, P, L> as ProcessMemory>⟧.seen result
            ≡ counted (P.seen inner) steps.old steps.entry.ghost_name }
    {
        Counted { inner, steps }
    }
}

impl<'s, P: ProcessMemory, L: Ledger> ProcessMemory for Counted<'s, P, L> {
    ghost seen = { λ s. counted (P.seen s.inner) s.steps.now s.steps.ghost_name };

    fn read(&mut self, addr: u64, buf: &mut [u8]) -> Result<(), ReadFault>
        ensures law { OneRead (counted (P.seen self.old.inner) self.old.steps.now self.old.steps.ghost_name)
            (counted (P.seen self.new.inner) self.new.steps.now self.new.steps.ghost_name) addr (length buf.old)
            (with_bytes buf.new result) }
        ensures left { OnErr result (buf.new ≡ buf.old) }
        ensures memory { IsErrOf result ReadFault.OutOfMemory → IsTrue (P.seen self.old.inner).may_want_memory }
        ensures ticks { self.new.steps.now ≡ self.old.steps.now + 1 }
    {
        self.steps.tick();
        self.inner.read(addr, buf)
    }

    fn copy(&mut self, alloc: Global, addr: u64, len: u64) -> Result<Vec<u8>, ReadFault>
        ensures law { OneRead (counted (P.seen self.old.inner) self.old.steps.now self.old.steps.ghost_name)
            (counted (P.seen self.new.inner) self.new.steps.now self.new.steps.ghost_name) addr len (items_of result) }
        ensures held { IsErrOf result ReadFault.OutOfMemory → HoldsRange (P.seen self.old.inner) addr len }
        ensures ticks { self.new.steps.now ≡ self.old.steps.now + 1 }
    {
        self.steps.tick(); // A copy is one read too.
        self.inner.copy(alloc, addr, len)
    }
}
