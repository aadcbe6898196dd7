//! A core of some ranges of another one's memory.
ghost use Rattle.std.specs.Prelude.{◌≡◌, ◌≤◌, ℕ, All, Err, IfOk, length};
ghost use Rattle.image_memory.specs.Cores.{IsCore};
ghost use Rattle.image_memory.specs.Backed.{regions_of};
ghost use Rattle.process_memory.specs.Memory.{byte_at};
ghost use Rattle.process_memory.specs.Seen.{HoldsSpan, items_of};
ghost use Rattle.core_slim.specs.Slim.{IsSlimmed, IsSoleSlim, Keeps, slim_core};
ghost use Rattle.core_slim.specs.declared.error.SlimError.TheVariants.{TooManyPieces};

use crate::SlimError;
use crate::headers::{add_headers, contents_start};
use crate::joined::joined_pieces;
use crate::writing::{add_pieces, filled_notes, slim_segments};
use image_memory::BackedDump;
use process_memory::Span;
use std::alloc::{AllocError, Global};

/// How many pieces a header can count: the number 65535 is kept for counts that stand elsewhere, and one segment is
/// that of the notes.
const MOST_PIECES: usize = 65533;

/// The slim core of pieces that are wholly in memory. The one error is out of memory.
fn slim_of(alloc: Global, dump: &BackedDump, pieces: &[Span]) -> Result<Vec<u8>, AllocError>
    requires held { All (HoldsSpan (byte_at (regions_of dump.now))) pieces.now }
    requires few { length pieces.now ≤ 65533 }
    ensures bytes { IfOk result (λ bytes.
        bytes.items ≡ slim_core dump.now.core (byte_at (regions_of dump.now)) pieces.now) }
    ensures core { IsCore dump.now.core }
{
    let core = dump.core();
    let notes = filled_notes(alloc, core)?;
    let start = contents_start(pieces.len() + 1);
    let segments = slim_segments(alloc, pieces, start, notes.len() as u64)?;
    let mut bytes = Vec::new(alloc);
    add_headers(&mut bytes, core.machine(), &segments)?;
    add_pieces(&mut bytes, dump, pieces)?;
    bytes.extend_from_slice(&notes)?;
    Ok(bytes)
}

/// A core of some ranges of a dump's memory alone, each of which is wholly in memory, and of all that the notes of the
/// dump's core say: the bytes of its file.
///
/// It has one load segment for each piece of the ranges, in ascending order, readable and writable, and then one
/// segment of notes, which has the bytes of the core's own note segments, in order, each filled with zero bytes to a
/// multiple of 4. A piece is a longest interval of addresses that all lie in some range, whichever segments or images
/// have their bytes: ranges that touch or overlap are one piece, and a range of no bytes has none. The header and the
/// program headers stand in front of the segments' bytes, and nothing stands between these. Fields that say none of
/// this are 0, so that a file's type tells of no core; `CoreDump::new` doesn't look at it.
///
/// What is read of it: the machine, the status records and the last process record of the core, and a memory that has
/// a byte at exactly the addresses of the ranges, which is the byte of the dump's memory there.
///
/// `TooManyPieces` comes exactly where the ranges have more than 65533 pieces, which it counts, out of memory aside;
/// so never where there are no more than 65533 ranges.
/// Else the one error is out of memory. It takes the time of a sort of the ranges, and each byte is copied once.
pub fn slim(alloc: Global, dump: &BackedDump, ranges: &[Span]) -> Result<Vec<u8>, SlimError>
    requires held { All (HoldsSpan (byte_at (regions_of dump.now))) ranges.now }
    ensures right { IsSlimmed dump.now.core (byte_at (regions_of dump.now)) ranges.now (items_of result) }
    // what is right is the answer, out of memory aside
    ensures only { IsSoleSlim dump.now.core (byte_at (regions_of dump.now)) ranges.now (items_of result) }
    // there are no more pieces than ranges
    ensures few { (count : ℕ) → items_of result ≡ Err (TooManyPieces count) → count ≤ length ranges.now }
    // what is read of it
    ensures keeps { IfOk result (λ bytes.
        Keeps dump.now.core (byte_at (regions_of dump.now)) ranges.now bytes.items) }
{
    let pieces = joined_pieces(alloc, ranges)?;
    if pieces.len() > MOST_PIECES {
        return Err(SlimError::TooManyPieces {
            count: pieces.len() as u64,
        });
    }
    let bytes = slim_of(alloc, dump, &pieces)?;
    Ok(bytes)
}
