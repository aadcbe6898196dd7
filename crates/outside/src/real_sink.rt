//! A stream of the system.
ghost use Rattle.std.specs.Prelude.{◌≡◌, MatchBool};
ghost use Rattle.std.specs.Io.KnownBytes.{Appends};
ghost use Rattle.outside.specs.Streams.{AppendsFront, SinkSeen, opened_stream};

use crate::{Sink, SinkFault};
use std::io::{ErrorKind, Write};
use std::marker::Model;

/// A stream of the system, or any other writer of std's.
///
/// A piece is written by as many calls as it takes. A call that takes nothing of what is left is a fault,
/// and so is an error that is no interruption. Contracts see the bytes that the writer holds, where it
/// tells them, as those of the system don't, and how many calls failed.
#[derive(Drop)]
pub struct RealSink<W: Write> {
    stream: W,
    faults: u64,
}

impl<W: Write> Model for RealSink<W> {
    ghost Value = { SinkSeen };

    ghost view = { λ s. record { written = W.contents s.stream; faults = s.faults } };
}

impl<W: Write> RealSink<W> {
    /// The stream, of which no call failed yet.
    pub fn new(stream: W) -> RealSink<W>
        ensures { result ≡ opened_stream (W.contents stream) }
    {
        RealSink { stream, faults: 0 }
    }
}

/// Writes all of it; false where a write fails, or takes nothing.
fn pour<W: Write>(stream: &mut W, bytes: &[u8]) -> bool
    ensures { MatchBool result (Appends (W.contents stream.old) (W.contents stream.new) bytes.now)
        (AppendsFront (W.contents stream.old) (W.contents stream.new) bytes.now) }
{
    let mut rest = bytes;
    for _ in 0..u64::MAX {
        if rest.is_empty() {
            return true;
        }
        match stream.write(rest) {
            Ok(0) => return false,
            Ok(count) => rest = &rest[count..],
            Err(error) => {
                if error.kind() != ErrorKind::Interrupted {
                    return false;
                }
            }
        }
    }
    false
}

impl<W: Write> Sink for RealSink<W> {
    ghost seen = { λ s. s };

    fn write(&mut self, bytes: &[u8]) -> Result<(), SinkFault> {
        if pour(&mut self.stream, bytes) {
            return Ok(());
        }
        self.faults = self.faults.saturating_add(1);
        Err(SinkFault::Failed)
    }
}
