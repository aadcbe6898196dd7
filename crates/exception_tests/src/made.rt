//! Memories whose words are written out.
use process_memory::{Part, Piece};
use std::alloc::{AllocError, Global};

/// Where words stand, and the words.
pub(crate) type Words<'a> = (u64, &'a [u64]);

pub(crate) fn push_words(bytes: &mut Vec<u8>, words: &[u64]) -> Result<(), AllocError> {
    for word in words {
        bytes.extend_from_slice(&word.to_le_bytes())?;
    }
    Ok(())
}

pub(crate) fn piece(alloc: Global, start: u64, words: &[u64]) -> Result<Piece, AllocError> {
    let mut bytes = Vec::new(alloc);
    push_words(&mut bytes, words)?;
    Ok(Piece { start, bytes })
}

pub(crate) fn pieces_of(alloc: Global, rows: &[Words<'_>]) -> Result<Vec<Piece>, AllocError> {
    let mut pieces = Vec::new(alloc);
    for (start, words) in rows {
        pieces.push(piece(alloc, *start, words)?)?;
    }
    Ok(pieces)
}

pub(crate) fn memory_of(alloc: Global, rows: &[Words<'_>]) -> Result<Part, AllocError> {
    let pieces = pieces_of(alloc, rows)?;
    Ok(Part::of(alloc, pieces))
}
