//! The memory of a core, over its bytes, and with the images that it mapped.
ghost use Rattle.std.specs.Prelude.{◌≡◌};

use crate::{BackedDump, CoreDump};
use process_memory::{Pieces, ProcessMemory, ReadFault, copy_pieces, read_pieces};
use std::alloc::Global;

/// The memory of pieces that something has: a core, or a core with its images.
#[derive(Drop)]
pub struct ViewOf<'a, D> {
    dump: &'a D,
}

/// The memory of a core, over the core's own bytes: one piece for each load segment, in table order.
pub type View<'a> = ViewOf<'a, CoreDump>;

/// The memory of a core and its images: the core's own pieces, and then those that come from images.
pub type BackedView<'a> = ViewOf<'a, BackedDump>;

impl<'a, D: Pieces> ViewOf<'a, D> {
    pub(crate) fn new(dump: &'a D) -> ViewOf<'a, D>
        ensures { result.dump.now ≡ dump.now }
    {
        ViewOf { dump }
    }
}

impl<'a, D: Pieces> ProcessMemory for ViewOf<'a, D> {
    ghost use Rattle.process_memory.specs.Layers.{plain};

    ghost seen = { λ v. plain (D.regions v.dump.now) };

    fn read(&mut self, addr: u64, buf: &mut [u8]) -> Result<(), ReadFault> {
        read_pieces(self.dump, addr, buf)
    }

    fn copy(&mut self, alloc: Global, addr: u64, len: u64) -> Result<Vec<u8>, ReadFault> {
        copy_pieces(alloc, self.dump, addr, len)
    }
}
