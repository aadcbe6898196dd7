//! The entries of line tables, one by one.
ghost use Rattle.std.specs.Prelude.{◌≡◌, ◌+◌, ◌*◌, ◌≤◌, ◌<◌, ◌^◌, ℕ, pos, negsuc, ◌≤ℤ◌, length, IfSome};
ghost use Rattle.py_lines.specs.Varint.{signed_of};
ghost use Rattle.frame_lines.specs.Entries.{HasRoom, IsSmall, IsStep, first_entry, location_entry, location_step};
ghost use Rattle.frame_lines.specs.Entries.{number_within, pair_entry, pair_step, tail_len};

use crate::form::TableForm;

/// An entry of a table.
#[derive(Clone, Copy)]
pub(crate) struct Entry {
    /// How many bytes of the table it has.
    pub(crate) size: usize,
    /// How many bytes of code it covers.
    pub(crate) covers: u64,
    /// By how much it moves the line; None where the code that it covers has no line.
    pub(crate) delta: Option<i64>,
}

/// The most bytes that a number has.
const MOST: u32 = 6;

/// The entry that a table begins with, if it begins with a whole one.
#[tactic(auto, unfolding(crate::specs::Entries::first_entry))]
pub(crate) fn first_entry(form: TableForm, table: &[u8]) -> Option<Entry>
    ensures value { result ≡ first_entry form table.now }
    ensures size { IfSome result (HasRoom (length table.now)) }
    ensures small { IfSome result IsSmall }
{
    match form {
        TableForm::UnsignedPairs | TableForm::Pairs | TableForm::Ranges => pair_entry(form, table),
        TableForm::Locations => location_entry(table),
    }
}

/// The step of a pair, by its byte.
fn pair_step(form: TableForm, byte: u8) -> Option<i64>
    ensures value { result ≡ pair_step form byte }
    ensures step { IsStep result }
{
    match form {
        TableForm::UnsignedPairs => Some(i64::from(byte)),
        TableForm::Ranges if byte == 128 => None,
        TableForm::Pairs | TableForm::Ranges | TableForm::Locations => {
            Some(i64::from(byte.cast_signed()))
        }
    }
}

/// Two bytes: how many bytes of code, and by how much the line moves.
fn pair_entry(form: TableForm, table: &[u8]) -> Option<Entry>
    ensures value { result ≡ pair_entry form table.now }
    ensures size { IfSome result (HasRoom (length table.now)) }
    ensures small { IfSome result IsSmall }
{
    if table.len() < 2 {
        return None;
    }
    Some(Entry {
        size: 2,
        covers: u64::from(table[0]),
        delta: pair_step(form, table[1]),
    })
}

/// How many bytes have no bit 7, up to the first that has it.
fn tail_len(bytes: &[u8]) -> usize
    ensures value { result ≡ tail_len bytes.now }
    ensures whole { result ≤ length bytes.now }
{
    for (i, byte) in bytes.iter().enumerate() {
        if *byte >= 128 {
            return i;
        }
    }
    bytes.len()
}

/// The number that the bytes begin with, if it ends within so many: six bits of each, the lowest first, and bit 6 in
/// each but the last.
fn number_within(most: u32, bytes: &[u8]) -> Option<u64>
    requires { most ≤ 6 }
    ensures value { result ≡ number_within most bytes.now }
    ensures small { IfSome result (λ n. n < 64 ^ most) }
{
    if most == 0 || bytes.is_empty() {
        return None;
    }
    let low = u64::from(bytes[0] % 64);
    if bytes[0] >> 6 & 1 == 0 {
        return Some(low);
    }
    let high = number_within(most - 1, &bytes[1..])?;
    Some(low + 64 * high)
}

/// A signed number: twice the magnitude, and one more where it is negative.
fn signed(number: u64) -> i64
    requires { number < 2 ^ 36 }
    ensures value { result ≡ signed_of number }
    ensures step { IsStep (Some result) }
{
    let magnitude = (number / 2) as i64;
    if number % 2 == 1 {
        -magnitude
    } else {
        magnitude
    }
}

/// By how much a location moves the line, by its code and the bytes behind its first: by a number for 13 and 14, and by
/// nothing up to 9. There is no line for 15; a number that is cut is no step.
fn location_step(code: u8, tail: &[u8]) -> Option<Option<i64>>
    requires { code < 16 }
    ensures value { result ≡ location_step code tail.now }
    ensures step { IfSome result IsStep }
{
    match code {
        15 => Some(None),
        13 | 14 => {
            let number = number_within(MOST, tail)?;
            Some(Some(signed(number)))
        }
        10..=12 => Some(Some(i64::from(code - 10))),
        _ => Some(Some(0)),
    }
}

/// A byte with bit 7, a code in bits 3 to 6 and the number of units of 2 bytes of code less one in bits 0 to 2; and all
/// bytes behind it that have no bit 7.
fn location_entry(table: &[u8]) -> Option<Entry>
    ensures value { result ≡ location_entry table.now }
    ensures size { IfSome result (HasRoom (length table.now)) }
    ensures small { IfSome result IsSmall }
{
    if table.is_empty() || table[0] < 128 {
        return None;
    }
    let rest = &table[1..];
    let len = tail_len(rest);
    let delta = location_step(table[0] >> 3 & 15, &rest[..len])?;
    Some(Entry {
        size: 1 + len,
        covers: 2 * (u64::from(table[0] % 8) + 1),
        delta,
    })
}
