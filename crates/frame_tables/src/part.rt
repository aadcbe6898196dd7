//! Where the bytes of an address stand in a file.
ghost use Rattle.std.specs.Prelude.{◌≡◌, ◌≤◌, ◌<◌, ◌-◌, IfSome, IsTrue, length};
ghost use Rattle.std.specs.List.{find};
ghost use Rattle.elf64_core.specs.Header.{segments_of};
ghost use Rattle.elf64_core.specs.Rest.{segments_left};
ghost use Rattle.frame_tables.specs.Parts.{holds_address, part_at, part_in, IsWithin};

use elf64_core::{Elf64, LOAD, Segment, Segments};

/// A part of a file: the bytes from `start` up to `end`.
#[derive(Clone, Copy, Debug, PartialEq, Eq)]
pub struct Part {
    pub start: usize,
    pub end: usize,
}

/// Whether a load segment's bytes in the file hold an address.
fn holds_address(segment: &Segment, address: u64) -> bool
    ensures is { result ≡ holds_address address segment.now }
    ensures begins { IsTrue result → segment.now.addr ≤ address }
    ensures ends { IsTrue result → address - segment.now.addr < segment.now.file_size }
{
    segment.kind == LOAD && segment.addr <= address && address - segment.addr < segment.file_size
}

/// The first load segment whose bytes in the file hold an address.
fn segment_at(segments: Segments<'_>, address: u64) -> Option<Segment>
    ensures first { result ≡ find (holds_address address) (segments_left segments.entry) }
    ensures begins { IfSome result (λ segment. segment.addr ≤ address) }
    ensures ends { IfSome result (λ segment. address - segment.addr < segment.file_size) }
{
    for segment in segments {
        if holds_address(&segment, address) {
            return Some(segment);
        }
    }
    None
}

/// The part of a file that a segment has from an address on.
fn part_in(segment: &Segment, file: &[u8], address: u64) -> Option<Part>
    requires begins { segment.now.addr ≤ address }
    requires ends { address - segment.now.addr < segment.now.file_size }
    ensures is { result ≡ part_in (length file.now) address segment.now }
    ensures whole { IfSome result (IsWithin (length file.now)) }
{
    let end = segment.offset.checked_add(segment.file_size)?;
    if end > file.len() as u64 {
        return None;
    }
    let start = segment.offset + (address - segment.addr);
    Some(Part {
        start: start as usize,
        end: end as usize,
    })
}

/// Where the bytes of an address stand: from there to the end of the first segment that holds it.
pub(crate) fn part_at(elf: &Elf64<'_>, file: &[u8], address: u64) -> Option<Part>
    requires { elf.now ≡ file.now }
    ensures is { result ≡ part_at file.now address }
    ensures whole { IfSome result (IsWithin (length file.now)) }
{
    let segment = segment_at(elf.segments(), address)?;
    part_in(&segment, file, address)
}
