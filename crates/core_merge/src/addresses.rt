//! Addresses as a text: one a line.
ghost use Rattle.std.specs.Prelude.{◌≡◌, ◌⊎◌, true, false, IsErrOf, MatchOption};
ghost use Rattle.core_merge.specs.Addresses.{AddressesSay, address_of_line, is_address_line, numbers_in};

use crate::CoreMergeError;
use maps_text::{first_line, number_in};
use std::alloc::Global;

/// The number of a line that is `0x` and 1 to 16 hexadecimal digits of either case.
fn address_of_line(line: &[u8]) -> Option<u64>
    ensures { MatchOption result (is_address_line line.now ≡ false)
        (λ addr. (is_address_line line.now ≡ true) × (addr ≡ address_of_line line.now)) }
{
    number_in(line.strip_prefix(b"0x")?)
}

/// The addresses of a text's lines, in order.
///
/// A line is `0x` and 1 to 16 hexadecimal digits of either case, and ends with a newline, which the last one need not
/// have; a text of no bytes has no line. `BadLine` exactly where a line is none, with the number of the first such,
/// counted from 1. `OutOfMemory` may come in place of any other answer.
pub fn addresses_in(alloc: Global, text: &[u8]) -> Result<Vec<u64>, CoreMergeError>
    ensures right { IsErrOf result CoreMergeError.OutOfMemory ⊎ AddressesSay text.now (numbers_in result) }
{
    let mut addresses = Vec::new(alloc);
    let mut rest = text;
    while !rest.is_empty() {
        let (line, behind) = first_line(rest);
        let Some(address) = address_of_line(line) else {
            let line = addresses.len() as u64 + 1;
            return Err(CoreMergeError::BadLine { line });
        };
        addresses.push(address)?;
        rest = behind;
    }
    Ok(addresses)
}
