//! Where an address stands: in which file, and at which of the file's own addresses.
ghost use Rattle.std.specs.Prelude.{◌≡◌, ◌≤◌, ◌<◌, ◌+◌, ◌-◌, IfSome, IsTrue, option_copied};
ghost use Rattle.std.specs.List.{find};
ghost use Rattle.elf64_core.specs.Header.{segments_of};
ghost use Rattle.elf64_core.specs.Rest.{segments_left};
ghost use Rattle.core_unwind.specs.Places.{holds, holds_code, IsCodeAddress, IsOpened, IsSpot, moved};
ghost use Rattle.core_unwind.specs.Places.{spot_of};

use crate::code_map::CodeMap;
use crate::end::End;
use elf64_core::{Elf64, ElfError, LOAD, Segment, Segments};

/// A range of addresses at which a file is mapped, or the vdso, whose bytes are the core's own: it is mapped from its
/// first byte on.
#[derive(Clone, Copy, Debug)]
pub struct Mapping<'a> {
    /// The first address.
    pub start: u64,
    /// The address behind the last one.
    pub end: u64,
    /// Which byte of the file stands at the first address.
    pub offset: u64,
    /// The number by which frames name the file.
    pub file: usize,
    /// The file's bytes, where it is at hand.
    pub bytes: Option<&'a [u8]>,
}

/// A place in a file's code.
#[derive(Clone, Copy, Debug, PartialEq, Eq)]
pub struct CodePlace {
    /// The number of the file.
    pub file: usize,
    /// The address there, by the file's own program headers.
    pub address: u64,
}

/// Where an address stands, and the bytes of the file.
#[derive(Clone, Copy)]
pub(crate) struct Spot<'a> {
    pub(crate) place: CodePlace,
    pub(crate) bytes: &'a [u8],
}

/// Whether a mapping holds an address.
pub(crate) fn holds(mapping: &Mapping<'_>, address: u64) -> bool
    ensures is { result ≡ holds address mapping.now }
    ensures begins { IsTrue result → mapping.now.start ≤ address }
{
    mapping.start <= address && address < mapping.end
}

/// Whether the file bytes of a segment of code hold a place.
fn holds_code(segment: &Segment, place: u64) -> bool
    ensures is { result ≡ holds_code place segment.now }
    ensures starts { IsTrue result → segment.now.offset ≤ place }
{
    segment.kind == LOAD
        && segment.flags % 2 == 1
        && segment.offset <= place
        && place - segment.offset < segment.file_size
}

/// The first segment of code whose file bytes hold a place.
fn segment_at(segments: Segments<'_>, place: u64) -> Option<Segment>
    ensures first { result ≡ find (holds_code place) (segments_left segments.entry) }
    ensures starts { IfSome result (λ segment. segment.offset ≤ place) }
{
    for segment in segments {
        if holds_code(&segment, place) {
            return Some(segment);
        }
    }
    None
}

/// The address of a place in a segment that holds it.
fn moved(segment: &Segment, place: u64) -> Option<u64>
    requires { segment.now.offset ≤ place }
    ensures { result ≡ moved place segment.now }
{
    segment.addr.checked_add(place - segment.offset)
}

/// The file as ELF.
fn opened(file: &[u8]) -> Option<Elf64<'_>>
    ensures { IsOpened file.now result }
{
    match Elf64::parse(file) {
        Ok(elf) => Some(elf),
        Err(ElfError::NotElf64) => None,
        Err(ElfError::BadHeader) => None,
        Err(ElfError::BadNote) => None,
        Err(ElfError::OutOfMemory) => None,
    }
}

/// The address of a place in a file that is code.
fn code_address(file: &[u8], place: u64) -> Option<u64>
    ensures { IsCodeAddress file.now place result }
{
    let elf = opened(file)?;
    let segment = segment_at(elf.segments(), place)?;
    moved(&segment, place)
}

/// Where an address stands, by the first mapping that holds it: in code of the file that is mapped there.
pub(crate) fn spot_at<'a>(mappings: &CodeMap<'a>, at: u64) -> Result<Spot<'a>, End>
    ensures { IsSpot mappings.now at (spot_of result) }
{
    let Some(mapping) = mappings.mapping_at(at) else {
        return Err(End::NoFile { at });
    };
    let Some(bytes) = mapping.bytes else {
        return Err(End::NoFile { at });
    };
    let Some(offset) = mapping.offset.checked_add(at - mapping.start) else {
        return Err(End::NoTable { at });
    };
    let Some(address) = code_address(bytes, offset) else {
        return Err(End::NoTable { at });
    };
    let file = mapping.file;
    Ok(Spot {
        place: CodePlace { file, address },
        bytes,
    })
}
