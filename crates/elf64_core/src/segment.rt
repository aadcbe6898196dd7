//! Segments: what the program headers describe.
ghost use Rattle.std.specs.Prelude.{◌≡◌, ◌+◌, ◌*◌, ◌≤◌, ◌↔◌, IsTrue, length};
ghost use Rattle.std.specs.Iterator.{YieldsFirst, item_count};
ghost use Rattle.elf64_core.specs.Header.{segment_in, segments_from, IsInside, FitsFile};

use crate::fields::{u32_in, u64_in};
use crate::offsets::{P_FILESZ, P_FLAGS, P_MEMSZ, P_OFFSET, P_VADDR};

/// The length of a program header, in bytes.
pub(crate) const ENTRY_SIZE: usize = 56;

/// A segment is loaded into memory.
pub const LOAD: u32 = 1;

/// A segment has notes.
pub const NOTE: u32 = 4;

/// A segment, as its program header describes it.
#[derive(Clone, Copy, Debug, PartialEq, Eq)]
pub struct Segment {
    /// What it is: `LOAD`, `NOTE` or another kind.
    pub kind: u32,
    /// 1: executable, 2: writable, 4: readable; in sum.
    pub flags: u32,
    /// Where its bytes begin in the file.
    pub offset: u64,
    /// The address at which it begins in memory.
    pub addr: u64,
    /// How many bytes it has in the file.
    pub file_size: u64,
    /// How many bytes it has in memory.
    pub mem_size: u64,
}

/// The segment that the program header at an offset describes.
#[tactic(auto, unfolding(crate::specs::Header::segment_in))]
fn segment_in(bytes: &[u8], at: usize) -> Segment
    requires { at + 56 ≤ length bytes.now }
    ensures { result ≡ segment_in bytes.now at }
{
    Segment {
        kind: u32_in(bytes, at),
        flags: u32_in(bytes, at + P_FLAGS),
        offset: u64_in(bytes, at + P_OFFSET),
        addr: u64_in(bytes, at + P_VADDR),
        file_size: u64_in(bytes, at + P_FILESZ),
        mem_size: u64_in(bytes, at + P_MEMSZ),
    }
}

/// Whether a range of the file lies in it. One of no bytes does wherever it begins.
pub(crate) fn is_inside(bytes: &[u8], start: u64, size: u64) -> bool
    ensures { IsTrue result ↔ IsInside bytes.now start size }
{
    size == 0
        || match start.checked_add(size) {
            Some(end) => end <= bytes.len() as u64,
            None => false,
        }
}

/// Whether the bytes of a load or note segment lie in the file, and a load segment's memory ends at
/// 2^64 - 1 at most.
pub(crate) fn fits_file(bytes: &[u8], segment: &Segment) -> bool
    ensures { IsTrue result ↔ FitsFile bytes.now segment.now }
{
    match segment.kind {
        LOAD => {
            is_inside(bytes, segment.offset, segment.file_size)
                && segment.addr.checked_add(segment.mem_size).is_some()
        }
        NOTE => is_inside(bytes, segment.offset, segment.file_size),
        _ => true,
    }
}

/// The segments of a file, in table order.
#[derive(Drop)]
pub struct Segments<'a> {
    bytes: &'a [u8],
    at: usize,
    left: usize,
    ghost inside: { at + 56 * left ≤ length bytes.now },
}

impl<'a> Segments<'a> {
    /// Those of so many program headers from an offset on.
    pub(crate) fn new(bytes: &'a [u8], at: usize, left: usize) -> Segments<'a>
        requires { at + 56 * left ≤ length bytes.now }
        ensures bytes { result.bytes.now ≡ bytes.now }
        ensures at { result.at ≡ at }
        ensures left { result.left ≡ left }
    {
        Segments { bytes, at, left }
    }
}

impl<'a> Iterator for Segments<'a> {
    ghost use Rattle.elf64_core.specs.Rest.{segments_left};

    type Item = Segment;

    ghost next_gives = { YieldsFirst segments_left };

    ghost remaining = { item_count segments_left };

    #[tactic(auto, unfolding(crate::specs::Header::segments_from))]
    fn next(&mut self) -> Option<Segment> {
        if self.left == 0 {
            return None;
        }
        let segment = segment_in(self.bytes, self.at);
        self.at += ENTRY_SIZE;
        self.left -= 1;
        Some(segment)
    }
}
