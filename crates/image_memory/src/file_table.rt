//! File tables: which files a process had mapped.
ghost use Rattle.std.specs.Prelude.{◌≡◌, ◌⊎◌, ◌+◌, ◌*◌, ◌<◌, ◌≤◌, IfOk, IfErr, IsErrOf, IfSome, MatchOption, length};
ghost use Rattle.std.specs.Prelude.{map, position};
ghost use Rattle.elf64_core.specs.Nul.{is_nul};
ghost use Rattle.image_memory.specs.FileTables.{IsFileTable, IsFirstName, IsNoFileTable, entry_at, file_entry_of};

use crate::DumpError;
use elf64_core::{first_nul, u64_in};
use std::alloc::Global;

/// Where a mapping begins in its file, as Linux's file tables tell it.
#[derive(Clone, Copy, Debug, PartialEq, Eq)]
pub struct FilePlace {
    /// In pages.
    pub pages: u64,
    /// The size of a page, in bytes.
    pub page_size: u64,
}

/// An entry of a file table.
#[derive(Clone, Copy)]
pub(crate) struct FileEntry<'a> {
    /// The address at which the mapping starts.
    pub(crate) start: u64,
    /// Where it begins in the file.
    pub(crate) place: FilePlace,
    /// The file's name.
    pub(crate) name: &'a [u8],
}

/// How many bytes stand before the numbers of the first entry.
const HEADER_SIZE: usize = 16;

/// How many bytes the numbers of an entry have.
const ENTRY_SIZE: usize = 24;

/// The name at the front of some bytes, up to the first nul, and what follows that; none where there is no nul.
fn first_name(bytes: &[u8]) -> Option<(&[u8], &[u8])>
    ensures { MatchOption result (position is_nul bytes.now ≡ None)
        (λ parts. IsFirstName bytes.now parts.0.now parts.1.now) }
{
    match first_nul(bytes) {
        Some(size) => Some((&bytes[..size], &bytes[size + 1..])),
        None => None,
    }
}

/// The entry of a number, with its name.
fn entry_at<'a>(table: &[u8], number: usize, name: &'a [u8]) -> FileEntry<'a>
    requires { 40 + 24 * number ≤ length table.now }
    ensures { file_entry_of result ≡ entry_at table.now number name.now }
{
    let at = HEADER_SIZE + ENTRY_SIZE * number;
    FileEntry {
        start: u64_in(table, at),
        place: FilePlace {
            pages: u64_in(table, at + 16),
            page_size: u64_in(table, 8),
        },
        name,
    }
}

/// The entries of a file table.
///
/// `BadNote` comes only where the bytes are no file table: they end before its numbers do, or fewer names
/// that are ended by a nul follow than it says; there no other error comes but out of memory. Else the one
/// error is out of memory.
pub(crate) fn table_entries(alloc: Global, table: &[u8]) -> Result<Vec<FileEntry<'_>>, DumpError>
    ensures bad { IsErrOf result DumpError.BadNote → IsNoFileTable table.now }
    ensures only { IfErr result (λ error. (error ≡ DumpError.BadNote) ⊎ (error ≡ DumpError.OutOfMemory)) }
    ensures entries { IfOk result (λ entries. IsFileTable table.now (map file_entry_of entries.items)) }
{
    if table.len() < HEADER_SIZE {
        return Err(DumpError::BadNote);
    }
    let count = u64_in(table, 0);
    let room = (table.len() - HEADER_SIZE) / ENTRY_SIZE;
    if count > room as u64 {
        return Err(DumpError::BadNote);
    }
    let mut rest = &table[HEADER_SIZE + ENTRY_SIZE * count as usize..];
    let mut entries = Vec::new(alloc);
    for number in 0..count as usize {
        let Some((name, after)) = first_name(rest) else {
            return Err(DumpError::BadNote);
        };
        entries.push(entry_at(table, number, name))?;
        rest = after;
    }
    Ok(entries)
}
