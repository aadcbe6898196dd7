//! Records of `.eh_frame`: entries of functions, and the common information entries that they name.
ghost use Rattle.std.specs.Prelude.{◌≡◌, ◌≤◌, ◌+◌, length, IfOk};
ghost use Rattle.elf64_core.specs.Header.{segments_of};
ghost use Rattle.frame_tables.specs.Parts.{IsWithin};
ghost use Rattle.frame_tables.specs.Records.{sized, body_in, record_at, located, common_at, own_start, extent_in};
ghost use Rattle.frame_tables.specs.Records.{entry_in, id_in, entry_at, Fits};

use crate::common::{Common, common_in};
use crate::field::{block_at, relative, u32_at};
use crate::flaw::{RecordError, RecordFlaw};
use crate::part::{Part, part_at};
use elf64_core::{Elf64, u32_in};
use frame_rows::{Convention, Machine};

/// The entry of a function: the addresses that it covers, and what its rows are made by.
#[derive(Clone, Copy, Debug, PartialEq, Eq)]
pub struct Entry {
    /// The address of its record.
    pub at: u64,
    /// The first address that it covers.
    pub begin: u64,
    /// How many addresses it covers.
    pub size: u64,
    /// What its instructions are read by.
    pub convention: Convention,
    /// The register of the return address.
    pub return_register: u64,
    /// Whether the function is called by the system, as a handler of signals returns to it: its caller's instruction
    /// was interrupted, and called nothing.
    pub is_signal: bool,
    /// The initial instructions, which entries share: a part of the file.
    pub initial: Part,
    /// Its own instructions: a part of the file.
    pub own: Part,
}

/// What a common information entry says, and where it stands.
#[derive(Clone, Copy)]
pub(crate) struct Placed {
    pub(crate) common: Common,
    /// Its initial instructions: a part of the file.
    pub(crate) initial: Part,
}

/// The addresses that an entry covers, and where its instructions begin in the record.
#[derive(Clone, Copy)]
pub(crate) struct Extent {
    pub(crate) begin: u64,
    pub(crate) size: u64,
    pub(crate) start: usize,
}

/// The bytes behind the length of a record, which has so many.
fn sized(part: Part, size: u32) -> Result<Part, RecordFlaw>
    requires { part.start + 4 ≤ part.end }
    ensures { result ≡ sized part size }
{
    if size == 0 {
        return Err(RecordFlaw::Terminator);
    }
    if size >= 0xffff_fff0 {
        return Err(RecordFlaw::Wide);
    }
    if size > 0x10_0000 {
        return Err(RecordFlaw::Long);
    }
    let start = part.start + 4;
    if part.end - start < size as usize {
        return Err(RecordFlaw::Cut);
    }
    Ok(Part {
        start,
        end: start + size as usize,
    })
}

/// The bytes behind the length of a record that begins a part of the file.
fn body_in(file: &[u8], part: Part) -> Result<Part, RecordFlaw>
    requires { IsWithin (length file.now) part }
    ensures value { result ≡ body_in file.now part }
    ensures whole { IfOk result (IsWithin (length file.now)) }
{
    if part.end - part.start < 4 {
        return Err(RecordFlaw::Cut);
    }
    let size = u32_in(file, part.start);
    sized(part, size)
}

/// The bytes behind the length of the record at an address.
fn record_at(elf: &Elf64<'_>, file: &[u8], address: u64) -> Result<Part, RecordFlaw>
    requires { elf.now ≡ file.now }
    ensures value { result ≡ record_at file.now address }
    ensures whole { IfOk result (IsWithin (length file.now)) }
{
    match part_at(elf, file, address) {
        Some(part) => body_in(file, part),
        None => Err(RecordFlaw::NotInFile),
    }
}

/// A flaw of the record at an address.
fn located<T: Drop>(at: u64, read: Result<T, RecordFlaw>) -> Result<T, RecordError>
    ensures { result ≡ located at read }
{
    match read {
        Ok(value) => Ok(value),
        Err(flaw) => Err(RecordError { at, flaw }),
    }
}

/// The common information entry at an address.
fn common_at(elf: &Elf64<'_>, file: &[u8], address: u64) -> Result<Placed, RecordFlaw>
    requires { elf.now ≡ file.now }
    ensures value { result ≡ common_at file.now address }
    ensures whole { IfOk result (λ placed. IsWithin (length file.now) placed.initial) }
{
    let body = record_at(elf, file, address)?;
    let common = common_in(&file[body.start..body.end])?;
    Ok(Placed {
        common,
        initial: Part {
            start: body.start + common.said.end,
            end: body.end,
        },
    })
}

/// Where an entry's own instructions begin, behind the addresses that it covers.
fn own_start(body: &[u8], is_sized: bool) -> Result<usize, RecordFlaw>
    requires { 12 ≤ length body.now }
    ensures value { result ≡ own_start body.now is_sized }
    ensures whole { IfOk result (λ start. start ≤ length body.now) }
{
    if !is_sized {
        return Ok(12);
    }
    let block = block_at(body, 12)?;
    Ok(block.end)
}

/// The addresses that the entry at an address covers.
fn extent_in(body: &[u8], at: u64, common: &Common) -> Result<Extent, RecordFlaw>
    ensures value { result ≡ extent_in body.now at common.now }
    ensures whole { IfOk result (λ extent. extent.start ≤ length body.now) }
{
    let first = u32_at(body, 4)?;
    let size = u32_at(body, 8)?;
    let start = own_start(body, common.said.is_sized)?;
    let begin = if common.said.encoding == 0x1b {
        relative(at.wrapping_add(8), first)
    } else {
        u64::from(first)
    };
    Ok(Extent {
        begin,
        size: u64::from(size),
        start,
    })
}

/// The entry of a record, whose common information entry is at hand.
fn entry_in(
    file: &[u8],
    machine: Machine,
    at: u64,
    body: Part,
    placed: &Placed,
) -> Result<Entry, RecordFlaw>
    requires body { IsWithin (length file.now) body }
    requires initial { IsWithin (length file.now) placed.now.initial }
    ensures value { result ≡ entry_in file.now machine at body placed.now }
    ensures whole { IfOk result (Fits (length file.now)) }
{
    let factors = placed.common.factors;
    let extent = extent_in(&file[body.start..body.end], at, &placed.common)?;
    Ok(Entry {
        at,
        begin: extent.begin,
        size: extent.size,
        convention: Convention {
            machine,
            code: factors.code,
            factor: factors.factor,
        },
        return_register: factors.register,
        is_signal: placed.common.said.is_signal,
        initial: placed.initial,
        own: Part {
            start: body.start + extent.start,
            end: body.end,
        },
    })
}

/// The id of a record that is the entry of a function.
fn id_in(body: &[u8]) -> Result<u32, RecordFlaw>
    ensures { result ≡ id_in body.now }
{
    let id = u32_at(body, 0)?;
    if id == 0 {
        return Err(RecordFlaw::NoEntry);
    }
    Ok(id)
}

/// The entry of a function at an address.
pub(crate) fn entry_at(
    elf: &Elf64<'_>,
    file: &[u8],
    machine: Machine,
    at: u64,
) -> Result<Entry, RecordError>
    requires { elf.now ≡ file.now }
    ensures value { result ≡ entry_at file.now machine at }
    ensures whole { IfOk result (Fits (length file.now)) }
{
    let body = located(at, record_at(elf, file, at))?;
    let id = located(at, id_in(&file[body.start..body.end]))?;
    let common = at.wrapping_add(4).wrapping_sub(u64::from(id));
    let shared = located(common, common_at(elf, file, common))?;
    located(at, entry_in(file, machine, at, body, &shared))
}
