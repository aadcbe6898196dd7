//! The memory of a core and its images, of which refused reads are kept.
ghost use Rattle.std.specs.Prelude.{◌≡◌};

use image_memory::BackedView;
use missed_reads::{Missed, Misses};
use process_memory::{ProcessMemory, ReadFault};
use std::alloc::Global;

/// That memory: one type for both, under one lifetime.
#[derive(Drop)]
pub(crate) struct Keeping<'a> {
    inner: Missed<'a, BackedView<'a>>,
}

impl<'a> Keeping<'a> {
    /// Over a memory, with where refused ranges are kept.
    pub(crate) fn new(view: BackedView<'a>, misses: &'a mut Misses) -> Keeping<'a>
        ensures { ⟦<Keeping<'a> as ProcessMemory>⟧.seen result
            ≡ ⟦<BackedView<'a> as ProcessMemory>⟧.seen view.entry }
    {
        Keeping {
            inner: Missed::new(view, misses),
        }
    }
}

impl<'a> ProcessMemory for Keeping<'a> {
    ghost seen = { λ k. ⟦<Missed<'a, BackedView<'a>> as ProcessMemory>⟧.seen k.inner };

    fn read(&mut self, addr: u64, buf: &mut [u8]) -> Result<(), ReadFault> {
        self.inner.read(addr, buf)
    }

    fn copy(&mut self, alloc: Global, addr: u64, len: u64) -> Result<Vec<u8>, ReadFault> {
        self.inner.copy(alloc, addr, len)
    }
}
