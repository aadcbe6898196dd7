//! A memory that keeps the ranges that were read.
ghost use Rattle.std.specs.Prelude.{◌≡◌, [], Some};
ghost use Rattle.process_memory.specs.Layers.{recorded};

use crate::{ProcessMemory, ReadFault, Span};
use std::alloc::Global;

/// A memory, and the ranges that were read from it with Ok, in order. Each read may want memory, for its
/// range; a copy only where the range is in memory.
#[derive(Drop)]
pub struct Recorder<P> {
    inner: P,
    spans: Vec<Span>,
}

impl<P: ProcessMemory> Recorder<P> {
    /// Over a memory, with no ranges so far.
    pub fn new(alloc: Global, inner: P) -> Recorder<P>
        ensures { ⟦<Recorder<P> as ProcessMemory>⟧.seen result ≡ recorded (P.seen inner) [] }
    {
        Recorder {
            inner,
            spans: Vec::new(alloc),
        }
    }

    /// The ranges that were read with Ok, in order.
    pub fn ranges(&self) -> &[Span]
        ensures { (⟦<Recorder<P> as ProcessMemory>⟧.seen self.now).ranges ≡ Some result.now }
    {
        &self.spans
    }
}

impl<P: ProcessMemory> ProcessMemory for Recorder<P> {
    ghost seen = { λ s. recorded (P.seen s.inner) s.spans.items };

    fn read(&mut self, addr: u64, buf: &mut [u8]) -> Result<(), ReadFault> {
        if self.spans.reserve(1).is_err() {
            return Err(ReadFault::OutOfMemory);
        }
        self.inner.read(addr, buf)?;
        let len = buf.len() as u64;
        match self.spans.push(Span { start: addr, len }) {
            Ok(()) => Ok(()),
            Err(_) => unreachable!(),
        }
    }

    fn copy(&mut self, alloc: Global, addr: u64, len: u64) -> Result<Vec<u8>, ReadFault> {
        let bytes = self.inner.copy(alloc, addr, len)?;
        match self.spans.push(Span { start: addr, len }) {
            Ok(()) => Ok(bytes),
            Err(_) => Err(ReadFault::OutOfMemory),
        }
    }
}
