//! Where the bytes of a core's memory stand in its file.
ghost use Rattle.std.specs.Prelude.{◌≡◌, All, IfOk, map};
ghost use Rattle.image_memory.specs.Pieces.{core_range};
ghost use Rattle.piece_table.specs.Places.{IsBounded};

use elf64_core::{Segment, TableEntry};
use piece_table::{FileRange, PieceTable};
use std::alloc::{AllocError, Global};

/// The number of the core's own file.
pub(crate) const CORE: usize = 0;

/// The addresses of a load segment that have its bytes, and where these stand in the core's file.
fn core_range(segment: &Segment) -> FileRange
    ensures { result ≡ core_range segment.now }
{
    FileRange {
        range: TableEntry {
            start: segment.addr,
            len: segment.file_size.min(segment.mem_size),
            offset: segment.offset,
        },
        file: CORE,
    }
}

/// Those of some load segments, in order.
fn core_ranges(alloc: Global, loads: &[Segment]) -> Result<Vec<FileRange>, AllocError>
    ensures { IfOk result (λ ranges. ranges.items ≡ map core_range loads.now) }
{
    loads.iter().map(core_range).collect(alloc)
}

/// The table of where the bytes of load segments stand, of which an earlier one wins.
pub(crate) fn table_of(alloc: Global, loads: &[Segment]) -> Result<PieceTable, AllocError>
    requires { All IsBounded (map core_range loads.now) }
    ensures { IfOk result (λ table. table ≡ map core_range loads.now) }
{
    let ranges = core_ranges(alloc, loads)?;
    PieceTable::of(alloc, ranges)
}
