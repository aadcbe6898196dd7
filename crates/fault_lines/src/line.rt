//! A line on the stream of errors.
ghost use Rattle.core_texts.specs.Parts.{said};
ghost use Rattle.core_texts.specs.Says.{IsWritten, Says};
ghost use Rattle.fault_lines.specs.Lines.{line_of};

use core_texts::{Part, write_parts};
use outside::{Sink, SinkFault};

/// Writes one piece.
fn write_piece<S: Sink>(sink: &mut S, piece: &[u8]) -> Result<(), SinkFault>
    ensures { IsWritten (S.seen sink.old) (S.seen sink.new) piece.now result }
{
    sink.write(piece)
}

/// Writes a line, up to the first piece that fails.
fn write_line<S: Sink>(sink: &mut S, front: &[u8], parts: &[Part<'_>]) -> Result<(), SinkFault>
    ensures { IsWritten (S.seen sink.old) (S.seen sink.new) (line_of front.now (said parts.now)) result }
{
    write_piece(sink, front)?;
    write_parts(sink, parts)?;
    write_piece(sink, b"\n")
}

/// Writes a line: its front, as `pystacks: `, the parts, and a line feed. Where the stream fails, no more is written.
pub fn say_line<E: Sink>(err: &mut E, front: &[u8], parts: &[Part<'_>])
    ensures { Says (E.seen err.old) (E.seen err.new) (line_of front.now (said parts.now)) }
{
    let _ = write_line(err, front, parts);
}
