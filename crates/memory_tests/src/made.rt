//! Files that are written out field by field.
use std::alloc::{AllocError, Global};

/// The kind, flags, offset, address and size in the file and in memory of a segment.
pub(crate) type Row = (u32, u32, u64, u64, u64, u64);

/// The type of the note of a file table.
pub(crate) const FILES: u32 = 0x46494c45;

/// The header of a file for x86-64 whose program headers are behind it, up to their number.
const HEADER: &[u8] =
    b"\x7fELF\x02\x01\0\0\0\0\0\0\0\0\0\0\0\0>\0\0\0\0\0\0\0\0\0\0\0\0\0@\0\0\0\0\0\0\0\0\0\0\0\0\0\0\0\0\0\0\0\0\08\0";

fn push_words(bytes: &mut Vec<u8>, words: &[u64]) -> Result<(), AllocError> {
    for word in words {
        bytes.extend_from_slice(&word.to_le_bytes())?;
    }
    Ok(())
}

fn push_halves(bytes: &mut Vec<u8>, halves: &[u32]) -> Result<(), AllocError> {
    for half in halves {
        bytes.extend_from_slice(&half.to_le_bytes())?;
    }
    Ok(())
}

/// The header, the program headers of at most 65,534 segments, and what they hold.
pub(crate) fn file_of(alloc: Global, segments: &[Row], held: &[u8]) -> Result<Vec<u8>, AllocError> {
    let mut bytes = HEADER.to_vec(alloc)?;
    push_halves(&mut bytes, &[segments.len().min(65_534) as u32, 0])?;
    for (kind, flags, offset, addr, file_size, mem_size) in segments {
        push_halves(&mut bytes, &[*kind, *flags])?;
        push_words(&mut bytes, &[*offset, *addr, 0, *file_size, *mem_size, 0])?;
    }
    bytes.extend_from_slice(held)?;
    Ok(bytes)
}

/// A note of a type, of at most 65,535 bytes, up to a multiple of 4.
pub(crate) fn add_note(area: &mut Vec<u8>, kind: u32, desc: &[u8]) -> Result<(), AllocError> {
    push_halves(area, &[5, desc.len().min(65_535) as u32, kind])?;
    area.extend_from_slice(b"CORE\0\0\0\0")?;
    area.extend_from_slice(desc)?;
    let padding = (4 - desc.len() % 4) % 4;
    area.extend_from_slice(&[0; 3][..padding])
}

/// A file table: the size of a page, where each entry starts and ends and at which page of its file, and names, each
/// ended by a nul.
pub(crate) fn file_table(
    alloc: Global,
    page_size: u64,
    entries: &[(u64, u64, u64)],
    names: &[u8],
) -> Result<Vec<u8>, AllocError> {
    let mut bytes = Vec::new(alloc);
    push_words(&mut bytes, &[entries.len() as u64, page_size])?;
    for (start, end, pages) in entries {
        push_words(&mut bytes, &[*start, *end, *pages])?;
    }
    bytes.extend_from_slice(names)?;
    Ok(bytes)
}
