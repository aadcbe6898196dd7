//! A stream into memory.
ghost use Rattle.std.specs.Prelude.{◌≡◌, ◌≤◌, ◌+◌, ◌++◌, ◌↔◌, IsOk, IfOk, Some, OnOk, OnErr, vec_capacity, vec_len};
ghost use Rattle.outside.specs.Counts.{Rose};
ghost use Rattle.outside.specs.Streams.{AppendsFront, Fits, HasWritten, HeldStream, empty_stream, failing_at};
ghost use Rattle.outside.specs.Streams.{stream_seen};

use crate::{Sink, SinkFault};
use std::alloc::{AllocError, Global};
use std::marker::Model;

/// A stream into memory, with calls that are to fail.
///
/// Contracts see its bytes, for how many it has room, the numbers of the calls that are to fail, each with
/// the number of bytes after which it fails, how many calls there were and how many failed. All of it is
/// told. A write takes no memory, since all of the room was taken when the stream was made.
#[derive(Drop)]
pub struct MemorySink {
    bytes: Vec<u8>,
    room: usize,
    failing: Vec<(u64, u64)>,
    calls: u64,
    faults: u64,
}

impl Model for MemorySink {
    ghost Value = { HeldStream };

    ghost view = { λ m. record {
      bytes = m.bytes.items;
      room = m.room;
      failing = m.failing.items;
      calls = m.calls;
      faults = m.faults;
    } };

    ghost invariant = { λ m. (m.room ≤ vec_capacity m.bytes) × (vec_len m.bytes ≤ m.room) };
}

impl MemorySink {
    /// Room for so many bytes, and the numbers of the calls that are to fail, each after so many bytes; the
    /// first entry of a number counts. The one error is out of memory.
    ///
    /// Calls are counted from 0. No call from number 2^64 - 1 on fails by its number.
    pub fn new(alloc: Global, room: u32, failing: Vec<(u64, u64)>) -> Result<MemorySink, AllocError>
        ensures { IfOk result (λ sink. sink ≡ empty_stream room failing.items) }
    {
        let room = room as usize;
        let bytes = Vec::with_capacity(alloc, room)?;
        Ok(MemorySink {
            bytes,
            room,
            failing,
            calls: 0,
            faults: 0,
        })
    }

    /// The bytes written so far.
    pub fn bytes(&self) -> &[u8]
        ensures { result.now ≡ self.now.bytes }
    {
        self.bytes.as_slice()
    }
}

/// After how many bytes the call of this number is to fail.
fn failing_at(failing: &[(u64, u64)], call: u64) -> Option<u64>
    ensures { result ≡ failing_at failing.now call }
{
    if call == u64::MAX {
        return None;
    }
    let mut rest = failing;
    while let [entry, after @ ..] = rest {
        if entry.0 == call {
            return Some(entry.1);
        }
        rest = after;
    }
    None
}

impl Sink for MemorySink {
    ghost seen = { stream_seen };

    fn write(&mut self, bytes: &[u8]) -> Result<(), SinkFault>
        ensures later { self.old.faults ≤ self.new.faults }
        ensures added { OnOk result (self.new.bytes ≡ self.old.bytes ++ bytes.now) }
        ensures front { OnErr result (AppendsFront (Some self.old.bytes) (Some self.new.bytes) bytes.now) }
        ensures cause { OnErr result (Rose self.old.faults self.new.faults) }

        // all that changes, and exactly when the call succeeds
        ensures after { HasWritten self.old bytes.now result self.new }
        ensures fits { IsOk result ↔ Fits self.old bytes.now }
    {
        let call = self.calls;
        self.calls = call.saturating_add(1);
        let listed = failing_at(&self.failing, call);
        let most = match listed {
            Some(most) => most as usize,
            None => bytes.len(),
        };
        let count = bytes.len().min(most).min(self.room - self.bytes.len());
        let added = self.bytes.extend_from_slice(&bytes[..count]);
        if added.is_ok() && listed.is_none() && count == bytes.len() {
            return Ok(());
        }
        self.faults = self.faults.saturating_add(1);
        Err(SinkFault::Failed)
    }
}
