//! Parts of a line, within a text.
ghost use Rattle.std.specs.Prelude.{◌≡◌, ◌++◌, OnOk};
ghost use Rattle.core_texts.specs.Parts.{address_text, part_bytes, said};

use crate::line::hex;
use crate::part::Part;
use itoa::Buffer;
use std::alloc::AllocError;

/// Appends an address.
fn push_address(text: &mut Vec<u8>, address: u64) -> Result<(), AllocError>
    ensures { OnOk result (text.new.items ≡ text.old.items ++ address_text address) }
{
    let mut digits = [0; 16];
    let at = hex(address, &mut digits);
    text.extend_from_slice(b"0x")?;
    text.extend_from_slice(&digits[at..])
}

/// Appends the bytes of one part.
fn push_part(text: &mut Vec<u8>, part: &Part<'_>) -> Result<(), AllocError>
    ensures { OnOk result (text.new.items ≡ text.old.items ++ part_bytes part.now) }
{
    let mut buffer = Buffer::new();
    match part {
        Part::Text(part) => text.extend_from_slice(part.as_bytes()),
        Part::Bytes(bytes) => text.extend_from_slice(bytes),
        Part::Address(address) => push_address(text, *address),
        Part::Decimal(n) => text.extend_from_slice(buffer.format(*n).as_bytes()),
        Part::Signed(n) => {
            let n = *n;
            text.extend_from_slice(buffer.format(n).as_bytes())
        }
    }
}

/// Appends the bytes of the parts to a text, as `write_parts` writes them to a stream. The one error is out of memory.
pub fn push_parts(text: &mut Vec<u8>, parts: &[Part<'_>]) -> Result<(), AllocError>
    ensures { OnOk result (text.new.items ≡ text.old.items ++ said parts.now) }
{
    for part in parts {
        push_part(text, part)?;
    }
    Ok(())
}
