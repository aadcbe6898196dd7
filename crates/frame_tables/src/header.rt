//! The header of a table of entries: `.eh_frame_hdr`.
ghost use Rattle.std.specs.Prelude.{◌≡◌, ◌≤◌, ◌<◌, ◌+◌, ◌*◌, IfOk, length};
ghost use Rattle.std.specs.List.{find};
ghost use Rattle.elf64_core.specs.Header.{segments_of};
ghost use Rattle.elf64_core.specs.Rest.{segments_left};
ghost use Rattle.frame_tables.specs.Parts.{IsWithin};
ghost use Rattle.frame_tables.specs.Pairs.{IsBehind};
ghost use Rattle.frame_tables.specs.Headers.{frame_machine, is_header, coded, heading_in, heading_of, pair_at};
ghost use Rattle.frame_tables.specs.Headers.{HasPairs};

use crate::field::relative;
use crate::flaw::TableError;
use crate::part::{Part, part_at};
use elf64_core::{Elf64, Segment, Segments, u32_in};
use frame_rows::Machine;

/// The kind of the segment that is the table: PT_GNU_EH_FRAME.
const HEADER: u32 = 0x6474_e550;

/// What the header of a table says.
#[derive(Clone, Copy)]
pub(crate) struct Heading {
    /// The machine that the file is for.
    pub(crate) machine: Machine,
    /// The address of the header.
    pub(crate) address: u64,
    /// Where the pairs begin in the file.
    pub(crate) pairs: usize,
    /// How many there are.
    pub(crate) count: usize,
}

/// A pair of the table.
#[derive(Clone, Copy)]
pub(crate) struct Pair {
    /// The first address of an entry.
    pub(crate) first: u64,
    /// The address of the entry's record.
    pub(crate) place: u64,
}

/// The machine of a file, if its frames are read here.
fn machine_of(elf: &Elf64<'_>) -> Option<Machine>
    ensures { result ≡ frame_machine elf.now }
{
    match elf.machine() {
        elf64_core::Machine::X86_64 => Some(Machine::X86_64),
        elf64_core::Machine::Aarch64 => Some(Machine::Aarch64),
        elf64_core::Machine::Other => None,
    }
}

fn is_header(segment: &Segment) -> bool
    ensures { result ≡ is_header segment.now }
{
    segment.kind == HEADER
}

/// The first segment that is a table.
fn header_in(segments: Segments<'_>) -> Option<Segment>
    ensures { result ≡ find is_header (segments_left segments.entry) }
{
    for segment in segments {
        if is_header(&segment) {
            return Some(segment);
        }
    }
    None
}

/// What is wrong with the version and the encodings of a header, which begins at a place; none if they are those of
/// pairs of four bytes with signs, relative to the header.
fn coded(file: &[u8], at: usize) -> Result<(), TableError>
    requires { at + 4 ≤ length file.now }
    ensures { result ≡ coded file.now at }
{
    if file[at] != 1 {
        return Err(TableError::Version(file[at]));
    }
    if file[at + 1] != 0x1b {
        return Err(TableError::FrameEncoding(file[at + 1]));
    }
    if file[at + 2] != 0x03 {
        return Err(TableError::CountEncoding(file[at + 2]));
    }
    if file[at + 3] != 0x3b {
        return Err(TableError::PairEncoding(file[at + 3]));
    }
    Ok(())
}

/// What the header says that begins a part of the file.
fn heading_in(
    file: &[u8],
    machine: Machine,
    address: u64,
    part: Part,
) -> Result<Heading, TableError>
    requires { IsWithin (length file.now) part }
    ensures value { result ≡ heading_in file.now machine address part }
    ensures whole { IfOk result (HasPairs (length file.now)) }
{
    if part.end - part.start < 12 {
        return Err(TableError::Cut);
    }
    coded(file, part.start)?;
    let pairs = part.start + 12;
    let count = u32_in(file, part.start + 8) as usize;
    if part.end - pairs < 8 * count {
        return Err(TableError::Cut);
    }
    Ok(Heading {
        machine,
        address,
        pairs,
        count,
    })
}

/// What the header of a file says.
pub(crate) fn heading_of(elf: &Elf64<'_>, file: &[u8]) -> Result<Heading, TableError>
    requires { elf.now ≡ file.now }
    ensures value { result ≡ heading_of file.now }
    ensures whole { IfOk result (HasPairs (length file.now)) }
{
    let Some(machine) = machine_of(elf) else {
        return Err(TableError::OtherMachine);
    };
    let Some(header) = header_in(elf.segments()) else {
        return Err(TableError::NoHeader);
    };
    let Some(part) = part_at(elf, file, header.addr) else {
        return Err(TableError::NotInFile);
    };
    heading_in(file, machine, header.addr, part)
}

impl Heading {
    /// The pair of a number.
    pub(crate) fn pair_at(&self, file: &[u8], number: usize) -> Pair
        requires number { number < self.now.count }
        requires pairs { HasPairs (length file.now) self.now }
        ensures { result ≡ pair_at file.now self.now number }
    {
        let at = self.pairs + 8 * number;
        Pair {
            first: relative(self.address, u32_in(file, at)),
            place: relative(self.address, u32_in(file, at + 4)),
        }
    }
    /// By halving, a number of pairs of which the last has a first address that is at most the address, and behind
    /// which the next one's is past it.
    pub(crate) fn pairs_to(&self, file: &[u8], address: u64) -> usize
        requires { HasPairs (length file.now) self.now }
        ensures { IsBehind file.now self.now address result }
    {
        let mut low = 0;
        let mut high = self.count;
        'halves: while low < high {
            let middle = low + (high - low) / 2;
            if self.pair_at(file, middle).first <= address {
                low = middle + 1;
            } else {
                high = middle;
            }
        }
        low
    }
}
