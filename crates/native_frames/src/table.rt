//! File tables: which files a process had mapped, and where.
ghost use Rattle.std.specs.Prelude.{◌≡◌, ◌+◌, ◌*◌, ◌≤◌, IfOk, MatchOption, length, map, position};
ghost use Rattle.elf64_core.specs.Nul.{is_nul};
ghost use Rattle.image_memory.specs.FileTables.{IsFirstName};
ghost use Rattle.native_frames.specs.Tables.{IsRowTable, row_at, row_of};

use elf64_core::{first_nul, u64_in};
use std::alloc::{AllocError, Global};

/// An entry of a file table.
#[derive(Clone, Copy)]
pub(crate) struct FileRow<'a> {
    /// The address at which the mapping starts, and the one behind its end.
    pub(crate) start: u64,
    pub(crate) end: u64,
    /// Where it begins in the file, in bytes.
    pub(crate) offset: u64,
    /// The file's path.
    pub(crate) name: &'a [u8],
}

/// How many bytes stand before the numbers of the first entry.
const HEADER_SIZE: usize = 16;

/// How many bytes the numbers of an entry have.
const ENTRY_SIZE: usize = 24;

/// The name at the front of some bytes, up to the first nul, and what follows that; none where there is no nul.
fn first_name(bytes: &[u8]) -> Option<(&[u8], &[u8])>
    ensures { MatchOption result (position is_nul bytes.now ≡ None)
        (λ parts. IsFirstName bytes.now parts.0.now parts.1.now) }
{
    match first_nul(bytes) {
        Some(size) => Some((&bytes[..size], &bytes[size + 1..])),
        None => None,
    }
}

/// The entry of a number, with its name.
fn row_at<'a>(table: &[u8], number: usize, name: &'a [u8]) -> FileRow<'a>
    requires { 40 + 24 * number ≤ length table.now }
    ensures { row_of result ≡ row_at table.now number name.now }
{
    let at = HEADER_SIZE + ENTRY_SIZE * number;
    let pages = u64_in(table, at + 16);
    FileRow {
        start: u64_in(table, at),
        end: u64_in(table, at + 8),
        offset: pages.saturating_mul(u64_in(table, 8)),
        name,
    }
}

/// The entries of a file table. The error is out of memory, or that the bytes are none.
pub(crate) fn table_rows(alloc: Global, table: &[u8]) -> Result<Vec<FileRow<'_>>, AllocError>
    ensures { IfOk result (λ rows. IsRowTable table.now (map row_of rows.items)) }
{
    if table.len() < HEADER_SIZE {
        return Err(AllocError);
    }
    let count = u64_in(table, 0);
    let room = (table.len() - HEADER_SIZE) / ENTRY_SIZE;
    if count > room as u64 {
        return Err(AllocError);
    }
    let mut rest = &table[HEADER_SIZE + ENTRY_SIZE * count as usize..];
    let mut rows = Vec::new(alloc);
    for number in 0..count as usize {
        let Some((name, after)) = first_name(rest) else {
            return Err(AllocError);
        };
        rows.push(row_at(table, number, name))?;
        rest = after;
    }
    Ok(rows)
}
