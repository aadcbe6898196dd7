//! Segments by the places of their bytes in the file.
ghost use Rattle.std.specs.Prelude.{◌≡◌, ◌+◌, ◌<◌, ◌≤◌, ◌^◌, ◌-◌, All, IfOk, IsTrue, option_copied, slice_get};
ghost use Rattle.std.specs.List.{find};
ghost use Rattle.elf64_core.specs.Header.{segments_of};
ghost use Rattle.piece_table.specs.Places.{IsBounded};
ghost use Rattle.covering_symbols.specs.Covering.{address_by, address_of_place, holds_place};
ghost use Rattle.covering_symbols.specs.SegmentTables.{bytes_held, range_of_segment, segment_ranges};

use elf64_core::{Elf64, LOAD, Segment, TableEntry};
use piece_table::{FileRange, PieceTable};
use std::alloc::{AllocError, Global};
use std::marker::Model;

/// The segments of a file. A place in the file is looked up by halving.
///
/// Contracts see the segments, in table order.
#[derive(Debug, Drop)]
pub struct SegmentTable {
    segments: Vec<Segment>,
    table: PieceTable,
}

impl Model for SegmentTable {
    ghost use Rattle.std.specs.Prelude.{List, ◌≡◌};
    ghost use Rattle.elf64_core.specs.declared.segment.Segment.{Segment};
    ghost use Rattle.covering_symbols.specs.SegmentTables.{segment_ranges};

    ghost Value = { List Segment };

    ghost view = { λ t. t.segments.items };

    ghost invariant = { λ t. t.table ≡ segment_ranges 0 t.segments.items };
}

/// The segments of a file, in table order.
fn segments_in(alloc: Global, elf: &Elf64<'_>) -> Result<Vec<Segment>, AllocError>
    ensures { IfOk result (λ segments. segments.items ≡ segments_of elf.now) }
{
    let mut segments = Vec::new(alloc);
    for segment in elf.segments() {
        segments.push(segment)?;
    }
    Ok(segments)
}

/// How many bytes a segment has in the file at places below 2^64 - 1, where it is a load segment.
fn bytes_held(segment: &Segment) -> u64
    ensures is { result ≡ bytes_held segment.now }
    ensures bounded { segment.now.offset + result ≤ 2 ^ 64 - 1 }
{
    let room = u64::MAX - segment.offset;
    if segment.kind == LOAD {
        segment.file_size.min(room)
    } else {
        0
    }
}

/// The places of a segment's bytes in the file, under its number.
fn range_of_segment(number: usize, segment: &Segment) -> FileRange
    ensures is { result ≡ range_of_segment (number, segment.now) }
    ensures bounded { IsBounded result }
{
    FileRange {
        range: TableEntry {
            start: segment.offset,
            len: bytes_held(segment),
            offset: 0,
        },
        file: number,
    }
}

/// Those of all segments.
fn ranges_of(alloc: Global, segments: &[Segment]) -> Result<Vec<FileRange>, AllocError>
    ensures are { IfOk result (λ ranges. ranges.items ≡ segment_ranges 0 segments.now) }
    ensures bounded { IfOk result (λ ranges. All IsBounded ranges.items) }
{
    let mut ranges = Vec::with_capacity(alloc, segments.len())?;
    for (number, segment) in segments.iter().enumerate() {
        ranges.push(range_of_segment(number, segment))?;
    }
    Ok(ranges)
}

/// Whether a load segment's bytes hold a place.
fn holds_place(segment: &Segment, place: u64) -> bool
    ensures { result ≡ holds_place place segment.now }
{
    segment.kind == LOAD && segment.offset <= place && place - segment.offset < segment.file_size
}

/// The address of a place that a segment's bytes hold.
fn address_by(segment: &Segment, place: u64) -> u128
    requires { IsTrue (holds_place place segment.now) }
    ensures { result ≡ address_by place segment.now }
{
    u128::from(segment.addr) + u128::from(place - segment.offset)
}

/// The first of some segments whose file bytes hold a place.
fn first_holding(segments: &[Segment], place: u64) -> Option<&Segment>
    ensures { option_copied result ≡ find (holds_place place) segments.now }
{
    segments.iter().find(|segment| holds_place(segment, place))
}

/// The segment of a number, from 0 on.
fn numbered(segments: &[Segment], number: usize) -> Option<&Segment>
    ensures { option_copied result ≡ slice_get segments.now number }
{
    segments.get(number)
}

impl SegmentTable {
    /// The segments of a file. The one error is out of memory.
    pub fn of(alloc: Global, elf: &Elf64<'_>) -> Result<SegmentTable, AllocError>
        ensures { IfOk result (λ table. table ≡ segments_of elf.now) }
    {
        let segments = segments_in(alloc, elf)?;
        let ranges = ranges_of(alloc, &segments)?;
        let table = PieceTable::of(alloc, ranges)?;
        Ok(SegmentTable { segments, table })
    }

    /// The first load segment whose file bytes hold a place.
    fn holding(&self, place: u64) -> Option<&Segment>
        ensures { option_copied result ≡ find (holds_place place) self.now }
    {
        if place < u64::MAX {
            return self.holding_below(place);
        }
        first_holding(&self.segments, place)
    }

    /// The same for a place below 2^64 - 1.
    fn holding_below(&self, place: u64) -> Option<&Segment>
        requires { place < 2 ^ 64 - 1 }
        ensures { option_copied result ≡ find (holds_place place) self.now }
    {
        let piece = self.table.at(place)?;
        numbered(&self.segments, piece.file)
    }

    /// The address of a place in the file, in bytes from its start: by the first load segment whose file bytes hold
    /// it, and none exactly where none does. It may pass 2^64 - 1, where a segment has more bytes in the file than in
    /// memory. It takes no memory.
    pub fn address_of(&self, place: u64) -> Option<u128>
        ensures { result ≡ address_of_place self.now place }
    {
        let segment = self.holding(place)?;
        Some(address_by(segment, place))
    }
}
