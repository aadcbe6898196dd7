//! The pieces of a process's memory that are of no file and that it may write.
ghost use Rattle.std.specs.Prelude.{◌≡◌, ◌≤◌, ◌++◌, All, IfOk, OnOk, map};
ghost use Rattle.heap_search.specs.Pieces.{IsPiece, heap_pieces, is_cut, is_heap, pieces_from, share, words_of};

use image_memory::CoreMapRange;
use std::alloc::{AllocFailed, Global};

/// How many words are looked at at most.
const WORDS: u64 = 16_777_216;

/// How many words a piece has at most.
const PIECE: u64 = 512;

/// How many pieces a segment has at most.
const PIECES: u32 = 32_768;

/// Some words of a process's memory, one behind the other.
#[derive(Clone, Copy, Debug, PartialEq, Eq)]
pub struct HeapPiece {
    /// The address of the first of them, in bytes. It may lie behind the last address.
    pub at: u128,
    /// How many words of 8 bytes they are, from 1 to 512.
    pub count: u64,
}

/// Whether a segment is of no file, and its flag PF_W (2) is set.
fn is_heap(segment: &CoreMapRange) -> bool
    ensures { result ≡ is_heap segment.now }
{
    segment.segment.flags / 2 % 2 == 1 && segment.pathname.is_none()
}

/// How many whole words of a segment the core has, if it is one of those.
fn words_of(segment: &CoreMapRange) -> u64
    ensures { result ≡ words_of segment.now }
{
    if is_heap(segment) {
        return segment.segment.file_size / 8;
    }
    0
}

/// Adds so many words from an address on, in pieces of 512 but for the last.
fn add_pieces(
    pieces: &mut Vec<HeapPiece>,
    addr: u64,
    words: u64,
) -> Result<(), AllocFailed<HeapPiece>>
    ensures added { OnOk result (pieces.new.items ≡ pieces.old.items ++ pieces_from 32768 addr words) }
    ensures each { All IsPiece (pieces_from 32768 addr words) }
{
    let mut at = addr as u128;
    let mut left = words;
    let mut turns = PIECES;
    while turns != 0 {
        if left == 0 {
            return Ok(());
        }
        let count = left.min(PIECE);
        pieces.push(HeapPiece { at, count })?;
        at += 4096;
        left -= count;
        turns -= 1;
    }
    Ok(())
}

/// The pieces of the memory of a process that is of no file and that it may write: the first 16,777,216 words that the
/// core has of its load segments whose flag PF_W is set and to which it gives no name, in their order. The one error is
/// out of memory.
pub fn heap_pieces(
    alloc: Global,
    maps: &[CoreMapRange],
) -> Result<Vec<HeapPiece>, AllocFailed<HeapPiece>>
    ensures answer { IfOk result (λ pieces. pieces.items ≡ heap_pieces 16777216 maps.now) }
    ensures each { IfOk result (λ pieces. All IsPiece pieces.items) }
{
    let mut pieces = Vec::new(alloc);
    let mut left = WORDS;
    for segment in maps {
        let words = words_of(segment).min(left);
        add_pieces(&mut pieces, segment.segment.addr, words)?;
        left -= words;
    }
    Ok(pieces)
}

/// Whether there are more words than are looked at.
pub(crate) fn is_cut(maps: &[CoreMapRange]) -> bool
    ensures { result ≡ is_cut 16777216 maps.now }
{
    let mut left = WORDS;
    for segment in maps {
        let all = words_of(segment);
        let words = all.min(left);
        if words < all {
            return true;
        }
        left -= words;
    }
    false
}
