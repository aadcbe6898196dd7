//! The parts of a slim core.
ghost use Rattle.std.specs.Prelude.{◌≡◌, ◌+◌, ◌*◌, ◌++◌, ◌<◌, ◌≤◌, ◌^◌, All, IfOk, length};
ghost use Rattle.std.specs.List.{flat_map};
ghost use Rattle.elf64_core.specs.Notes.{padded};
ghost use Rattle.image_memory.specs.Backed.{regions_of};
ghost use Rattle.image_memory.specs.Notes.{note_bytes};
ghost use Rattle.process_memory.specs.Memory.{byte_at};
ghost use Rattle.process_memory.specs.Seen.{HoldsSpan};
ghost use Rattle.core_slim.specs.Files.{contents_start};
ghost use Rattle.core_slim.specs.Slim.{filled, piece_bytes, slim_segments};

use elf64_core::{LOAD, NOTE, Segment};
use image_memory::{BackedDump, CoreDump};
use process_memory::Span;
use std::alloc::{AllocError, Global};

/// A segment that can be read and written.
const READ_WRITE: u32 = 6;

/// The segments of pieces whose bytes follow each other in a file from an offset on, and behind them the segment of
/// so many bytes of notes. The one error is out of memory: no file is longer than 2^64 - 1 bytes.
pub(crate) fn slim_segments(
    alloc: Global,
    pieces: &[Span],
    start: u64,
    notes_size: u64,
) -> Result<Vec<Segment>, AllocError>
    ensures { IfOk result (λ segments. segments.items ≡ slim_segments start notes_size pieces.now) }
{
    let mut segments = Vec::new(alloc);
    let mut offset = start;
    for piece in pieces {
        segments.push(Segment {
            kind: LOAD,
            flags: READ_WRITE,
            offset,
            addr: piece.start,
            file_size: piece.len,
            mem_size: piece.len,
        })?;
        offset = match offset.checked_add(piece.len) {
            Some(next) => next,
            None => return Err(AllocError),
        };
    }
    segments.push(Segment {
        kind: NOTE,
        flags: 0,
        offset,
        addr: 0,
        file_size: notes_size,
        mem_size: 0,
    })?;
    Ok(segments)
}

/// Adds the bytes of a piece that is wholly in memory, run by run.
fn add_piece(bytes: &mut Vec<u8>, dump: &BackedDump, piece: Span) -> Result<(), AllocError>
    requires { HoldsSpan (byte_at (regions_of dump.now)) piece }
    ensures { IfOk result (λ _. bytes.new.items
        ≡ bytes.old.items ++ piece_bytes (byte_at (regions_of dump.now)) piece) }
{
    let mut done = 0;
    while done < piece.len {
        match dump.piece(piece.start + done, piece.len - done) {
            Some(found) => {
                bytes.extend_from_slice(found)?;
                done += found.len() as u64;
            }
            None => unreachable!(),
        }
    }
    Ok(())
}

/// Adds the bytes of pieces that are wholly in memory, in order.
pub(crate) fn add_pieces(
    bytes: &mut Vec<u8>,
    dump: &BackedDump,
    pieces: &[Span],
) -> Result<(), AllocError>
    requires { All (HoldsSpan (byte_at (regions_of dump.now))) pieces.now }
    ensures { IfOk result (λ _. bytes.new.items
        ≡ bytes.old.items ++ flat_map (piece_bytes (byte_at (regions_of dump.now))) pieces.now) }
{
    for piece in pieces {
        add_piece(bytes, dump, *piece)?;
    }
    Ok(())
}

/// Adds some notes, filled with zero bytes to a multiple of 4.
fn add_filled(bytes: &mut Vec<u8>, notes: &[u8]) -> Result<(), AllocError>
    ensures { IfOk result (λ _. bytes.new.items ≡ bytes.old.items ++ filled notes.now) }
{
    let missing = (4 - notes.len() % 4) % 4;
    bytes.extend_from_slice(notes)?;
    bytes.extend_from_slice(&[0; 3][..missing])?;
    Ok(())
}

/// The note segments of a core, in order, each filled with zero bytes to a multiple of 4. The one error is want of
/// memory: no header counts as many as 65535 segments.
pub(crate) fn filled_notes(alloc: Global, core: &CoreDump) -> Result<Vec<u8>, AllocError>
    ensures { IfOk result (λ bytes. bytes.items ≡ flat_map filled (note_bytes core.now)) }
{
    let mut bytes = Vec::new(alloc);
    for index in 0..u16::MAX {
        match core.note_segment(u32::from(index)) {
            Some(notes) => add_filled(&mut bytes, notes)?,
            None => return Ok(bytes),
        }
    }
    Err(AllocError)
}
