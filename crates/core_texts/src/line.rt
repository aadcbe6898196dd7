//! Parts, written to a stream one after another.
ghost use Rattle.std.specs.Prelude.{◌<◌, ◌≡◌, drop, false};
ghost use Rattle.std.specs.Fmt.{digits, digit_glyph};
ghost use Rattle.core_texts.specs.Parts.{address_text, part_bytes, said};
ghost use Rattle.core_texts.specs.Says.{IsWritten};

use crate::part::Part;
use itoa::Buffer;
use outside::{Sink, SinkFault};

/// Writes the hexadecimal digits of a number at the end of the buffer, and answers where they begin.
pub(crate) fn hex(n: u64, buf: &mut [u8; 16]) -> usize
    ensures within { result < 16 }
    ensures digits { drop result buf.new ≡ digits 16 false n }
{
    let mut rest = n;
    let mut at = 15;
    buf[at] = glyph((rest % 16) as u8);
    while rest >= 16 {
        rest /= 16;
        at -= 1;
        buf[at] = glyph((rest % 16) as u8);
    }
    at
}

fn glyph(digit: u8) -> u8
    requires { digit < 16 }
    ensures { result ≡ digit_glyph false digit }
{
    if digit < 10 {
        b'0' + digit
    } else {
        b'a' - 10 + digit
    }
}

/// Writes one piece.
fn write_piece<S: Sink>(sink: &mut S, piece: &[u8]) -> Result<(), SinkFault>
    ensures { IsWritten (S.seen sink.old) (S.seen sink.new) piece.now result }
{
    sink.write(piece)
}

/// Writes an address.
fn write_address<S: Sink>(sink: &mut S, address: u64) -> Result<(), SinkFault>
    ensures { IsWritten (S.seen sink.old) (S.seen sink.new) (address_text address) result }
{
    let mut digits = [0; 16];
    let at = hex(address, &mut digits);
    write_piece(sink, b"0x")?;
    write_piece(sink, &digits[at..])
}

/// Writes one part.
fn write_part<S: Sink>(sink: &mut S, part: &Part<'_>) -> Result<(), SinkFault>
    ensures { IsWritten (S.seen sink.old) (S.seen sink.new) (part_bytes part.now) result }
{
    let mut buffer = Buffer::new();
    match part {
        Part::Text(text) => write_piece(sink, text.as_bytes()),
        Part::Bytes(bytes) => write_piece(sink, bytes),
        Part::Address(address) => write_address(sink, *address),
        Part::Decimal(n) => write_piece(sink, buffer.format(*n).as_bytes()),
        Part::Signed(n) => {
            let n = *n;
            write_piece(sink, buffer.format(n).as_bytes())
        }
    }
}

/// Writes the parts, up to the first that fails.
///
/// `Failed` where the stream failed: its count of faults rose, and a front of the parts was written.
pub fn write_parts<S: Sink>(sink: &mut S, parts: &[Part<'_>]) -> Result<(), SinkFault>
    ensures { IsWritten (S.seen sink.old) (S.seen sink.new) (said parts.now) result }
{
    for part in parts {
        write_part(sink, part)?;
    }
    Ok(())
}
