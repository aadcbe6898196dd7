//! A stream of bytes out.
ghost use Rattle.std.specs.Prelude.{◌≤◌, OnOk, OnErr};
ghost use Rattle.std.specs.Io.KnownBytes.{Appends};
ghost use Rattle.outside.specs.Counts.{Rose};
ghost use Rattle.outside.specs.Streams.{AppendsFront, SinkSeen};

use crate::SinkFault;

/// A stream that bytes are written to, piece by piece.
///
/// An object means, where it tells it, the bytes written so far, and always a count of the calls that
/// failed, in a `u64` that stays at its last number.
pub trait Sink {
    /// The bytes written so far, where they are told, and how many calls failed, which never falls.
    ghost seen: { Self → SinkSeen };

    /// Writes the whole piece.
    ///
    /// `Failed` where the stream failed: the count of faults rose, and a front of the piece was written,
    /// which may be none of it or all of it.
    fn write(&mut self, bytes: &[u8]) -> Result<(), SinkFault>
        ensures later { (seen self.old).faults ≤ (seen self.new).faults }
        ensures added { OnOk result (Appends (seen self.old).written (seen self.new).written bytes.now) }
        ensures front { OnErr result (AppendsFront (seen self.old).written (seen self.new).written bytes.now) }
        ensures cause { OnErr result (Rose (seen self.old).faults (seen self.new).faults) };
}
