//! The common information entry, which entries of functions share.
ghost use Rattle.std.specs.Prelude.{◌≡◌, ◌≤◌, ◌<◌, ◌+◌, length, IfOk};
ghost use Rattle.frame_tables.specs.Commons.{version_in, text_end, sizes_behind, register_at, factors_at};
ghost use Rattle.frame_tables.specs.Commons.{admitted, common_behind, common_in};

use crate::augmentation::{Augmentation, augmentation_at};
use crate::field::{Field, byte_at, signed_at, u32_at, unsigned_at};
use crate::flaw::RecordFlaw;
use elf64_core::first_nul;

/// The numbers of a common information entry.
#[derive(Clone, Copy)]
pub(crate) struct Factors {
    /// The code alignment.
    pub(crate) code: u64,
    /// The data alignment.
    pub(crate) factor: i64,
    /// The register of the return address.
    pub(crate) register: u64,
    /// Where the augmentation's data begin.
    pub(crate) next: usize,
}

/// What a common information entry says.
#[derive(Clone, Copy)]
pub(crate) struct Common {
    pub(crate) factors: Factors,
    pub(crate) said: Augmentation,
}

/// The version, of a record that is a common information entry.
fn version_in(body: &[u8]) -> Result<u8, RecordFlaw>
    ensures value { result ≡ version_in body.now }
    ensures whole { IfOk result (λ version. 5 ≤ length body.now) }
{
    let id = u32_at(body, 0)?;
    if id != 0 {
        return Err(RecordFlaw::NotCommon);
    }
    let version = byte_at(body, 4)?;
    match version {
        1 | 3 | 4 => Ok(version),
        _ => Err(RecordFlaw::Version(version)),
    }
}

/// Where the nul stands that ends the augmentation's text, which begins behind the version.
fn text_end(body: &[u8]) -> Result<usize, RecordFlaw>
    requires { 5 ≤ length body.now }
    ensures value { result ≡ text_end body.now }
    ensures begins { IfOk result (λ end. 5 ≤ end) }
    ensures whole { IfOk result (λ end. end < length body.now) }
{
    match first_nul(&body[5..]) {
        Some(size) => Ok(5 + size),
        None => Err(RecordFlaw::Cut),
    }
}

/// What stands behind the sizes of addresses and segments, which version 4 has.
fn sizes_behind(body: &[u8], version: u8, at: usize) -> Result<usize, RecordFlaw>
    requires { at ≤ length body.now }
    ensures value { result ≡ sizes_behind body.now version at }
    ensures whole { IfOk result (λ next. next ≤ length body.now) }
{
    if version < 4 {
        return Ok(at);
    }
    let address = byte_at(body, at)?;
    if address != 8 {
        return Err(RecordFlaw::AddressSize(address));
    }
    let segment = byte_at(body, at + 1)?;
    if segment != 0 {
        return Err(RecordFlaw::SegmentSize(segment));
    }
    Ok(at + 2)
}

/// The register of the return address: a byte in version 1.
fn register_at(body: &[u8], version: u8, at: usize) -> Result<Field, RecordFlaw>
    requires { at ≤ length body.now }
    ensures value { result ≡ register_at body.now version at }
    ensures whole { IfOk result (λ field. field.next ≤ length body.now) }
{
    if version > 1 {
        return unsigned_at(body, at);
    }
    let register = byte_at(body, at)?;
    Ok(Field {
        value: u64::from(register),
        next: at + 1,
    })
}

/// The numbers that begin at a place.
fn factors_at(body: &[u8], version: u8, at: usize) -> Result<Factors, RecordFlaw>
    requires { at ≤ length body.now }
    ensures value { result ≡ factors_at body.now version at }
    ensures whole { IfOk result (λ factors. factors.next ≤ length body.now) }
{
    let code = unsigned_at(body, at)?;
    let factor = signed_at(body, code.next)?;
    let register = register_at(body, version, factor.next)?;
    Ok(Factors {
        code: code.value,
        factor: factor.value,
        register: register.value,
        next: register.next,
    })
}

/// What is said, where the encoding of the addresses of entries is one that is read.
fn admitted(factors: Factors, said: Augmentation) -> Result<Common, RecordFlaw>
    ensures { result ≡ admitted factors said }
{
    match said.encoding {
        0x03 | 0x1b => Ok(Common { factors, said }),
        _ => Err(RecordFlaw::Encoding(said.encoding)),
    }
}

/// What stands behind the text of the augmentation, which ends at `end`.
fn common_behind(body: &[u8], version: u8, end: usize) -> Result<Common, RecordFlaw>
    requires begins { 5 ≤ end }
    requires ends { end < length body.now }
    ensures value { result ≡ common_behind body.now version end }
    ensures whole { IfOk result (λ common. common.said.end ≤ length body.now) }
{
    let at = sizes_behind(body, version, end + 1)?;
    let factors = factors_at(body, version, at)?;
    let said = augmentation_at(body, &body[5..end], factors.next)?;
    admitted(factors, said)
}

/// The common information entry of a record.
pub(crate) fn common_in(body: &[u8]) -> Result<Common, RecordFlaw>
    ensures value { result ≡ common_in body.now }
    ensures whole { IfOk result (λ common. common.said.end ≤ length body.now) }
{
    let version = version_in(body)?;
    let end = text_end(body)?;
    common_behind(body, version, end)
}
