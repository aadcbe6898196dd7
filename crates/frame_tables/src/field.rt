//! Fields of a record, by where they begin in it.
ghost use Rattle.std.specs.Prelude.{◌≡◌, ◌≤◌, ◌<◌, ◌+◌, length, IfOk};
ghost use Rattle.frame_tables.specs.Fields.{extended, relative, record_flaw, byte_at, u32_at, unsigned_at, signed_at};
ghost use Rattle.frame_tables.specs.Fields.{block_at};
ghost use Rattle.frame_tables.specs.Parts.{IsWithin};

use crate::flaw::RecordFlaw;
use crate::part::Part;
use elf64_core::u32_in;
use frame_rows::{Flaw, signed, unsigned};

/// A number without a sign, and where the next field begins.
#[derive(Clone, Copy)]
pub(crate) struct Field {
    pub(crate) value: u64,
    pub(crate) next: usize,
}

/// A number with a sign, and where the next field begins.
#[derive(Clone, Copy)]
pub(crate) struct SignedField {
    pub(crate) value: i64,
    pub(crate) next: usize,
}

/// A number of four bytes with a sign, as a word.
fn extended(number: u32) -> u64
    ensures { result ≡ extended number }
{
    if number < 0x8000_0000 {
        u64::from(number)
    } else {
        u64::from(number) + 0xffff_ffff_0000_0000
    }
}

/// The address that is so far from another one, modulo 2^64.
pub(crate) fn relative(base: u64, number: u32) -> u64
    ensures { result ≡ relative base number }
{
    base.wrapping_add(extended(number))
}

/// What a flaw of a number is in a record.
fn record_flaw(flaw: Flaw) -> RecordFlaw
    ensures { result ≡ record_flaw flaw }
{
    match flaw {
        Flaw::Cut => RecordFlaw::Cut,
        _ => RecordFlaw::LongNumber,
    }
}

/// The byte there.
pub(crate) fn byte_at(body: &[u8], at: usize) -> Result<u8, RecordFlaw>
    ensures value { result ≡ byte_at body.now at }
    ensures whole { IfOk result (λ byte. at < length body.now) }
{
    if body.len() <= at {
        return Err(RecordFlaw::Cut);
    }
    Ok(body[at])
}

/// The number of four bytes there.
pub(crate) fn u32_at(body: &[u8], at: usize) -> Result<u32, RecordFlaw>
    requires { at ≤ 8 }
    ensures value { result ≡ u32_at body.now at }
    ensures whole { IfOk result (λ number. at + 4 ≤ length body.now) }
{
    if body.len() < at + 4 {
        return Err(RecordFlaw::Cut);
    }
    Ok(u32_in(body, at))
}

/// The ULEB128 number there.
pub(crate) fn unsigned_at(body: &[u8], at: usize) -> Result<Field, RecordFlaw>
    requires { at ≤ length body.now }
    ensures value { result ≡ unsigned_at body.now at }
    ensures whole { IfOk result (λ field. field.next ≤ length body.now) }
{
    match unsigned(&body[at..]) {
        Ok(number) => Ok(Field {
            value: number.value,
            next: at + number.size,
        }),
        Err(flaw) => Err(record_flaw(flaw)),
    }
}

/// The SLEB128 number there.
pub(crate) fn signed_at(body: &[u8], at: usize) -> Result<SignedField, RecordFlaw>
    requires { at ≤ length body.now }
    ensures value { result ≡ signed_at body.now at }
    ensures whole { IfOk result (λ field. field.next ≤ length body.now) }
{
    match signed(&body[at..]) {
        Ok(number) => Ok(SignedField {
            value: number.value,
            next: at + number.size,
        }),
        Err(flaw) => Err(record_flaw(flaw)),
    }
}

/// A ULEB128 number there, which says how many bytes there are behind it: these.
pub(crate) fn block_at(body: &[u8], at: usize) -> Result<Part, RecordFlaw>
    requires { at ≤ length body.now }
    ensures value { result ≡ block_at body.now at }
    ensures whole { IfOk result (IsWithin (length body.now)) }
{
    let size = unsigned_at(body, at)?;
    if size.value > (body.len() - size.next) as u64 {
        return Err(RecordFlaw::Cut);
    }
    Ok(Part {
        start: size.next,
        end: size.next + size.value as usize,
    })
}
