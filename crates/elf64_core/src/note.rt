//! Notes: small records that a file carries.
ghost use Rattle.std.specs.Prelude.{◌≡◌, ◌≢◌, ◌↔◌, ◌⊎◌, List, ℕ, IfOk, IfErr, IsErr, IsErrOf, map, MatchOption};
ghost use Rattle.elf64_core.specs.Header.{IsInside};
ghost use Rattle.elf64_core.specs.Notes.{IsNote, BeginsNoNote, AreNotes, AreNoNotes, AreNotesOnce, IsBadRange};
ghost use Rattle.elf64_core.specs.Notes.{bytes_of_range, noted, padded};

use crate::fields::u32_in;
use crate::offsets::{N_DESCSZ, N_TYPE};
use crate::section_table::range_at;
use crate::{Elf64, ElfError};
use std::alloc::Global;

/// The length of a note's header, in bytes.
pub(crate) const HEADER_SIZE: usize = 12;

/// A note: its type and its descriptor. Its owner is not looked at.
#[derive(Clone, Copy, Debug, PartialEq, Eq)]
pub struct Note<'a> {
    /// Its type, which says what the descriptor is.
    pub kind: u32,
    /// The descriptor, without its padding.
    pub desc: &'a [u8],
}

/// A size padded to 4 bytes.
fn padded(size: u32) -> usize
    ensures { result ≡ padded size }
{
    (size as usize + 3) / 4 * 4
}

/// The note at the front of some bytes, and what follows it; none where no note stands there.
pub(crate) fn first_note(bytes: &[u8]) -> Option<(Note<'_>, &[u8])>
    ensures { MatchOption result (BeginsNoNote bytes.now) (λ parts. IsNote bytes.now parts.1.now (noted parts.0)) }
{
    if bytes.len() < HEADER_SIZE {
        return None;
    }
    let start = HEADER_SIZE + padded(u32_in(bytes, 0));
    let size = u32_in(bytes, N_DESCSZ);
    let end = start + size as usize;
    if bytes.len() < end {
        return None;
    }
    let note = Note {
        kind: u32_in(bytes, N_TYPE),
        desc: &bytes[start..end],
    };
    let after = bytes.len().min(start + padded(size));
    Some((note, &bytes[after..]))
}

/// The notes that some bytes are.
fn notes_in(alloc: Global, bytes: &[u8]) -> Result<Vec<Note<'_>>, ElfError>
    ensures bad { IsErrOf result ElfError.BadNote → AreNoNotes bytes.now }
    ensures only { IfErr result (λ error. (error ≡ ElfError.BadNote) ⊎ (error ≡ ElfError.OutOfMemory)) }
    ensures notes { IfOk result (λ notes. AreNotes bytes.now (map noted notes.items)) }
{
    let mut notes = Vec::new(alloc);
    let mut rest = bytes;
    while !rest.is_empty() {
        let Some((note, after)) = first_note(rest) else {
            return Err(ElfError::BadNote);
        };
        notes.push(note)?;
        rest = after;
    }
    Ok(notes)
}

impl<'a> Elf64<'a> {
    /// The notes that the bytes of a range of the file are together, in order. A note is a header of 12
    /// bytes, its owner's name and its descriptor, each padded to 4 bytes; of the padding after the last
    /// descriptor some or all may be missing.
    ///
    /// `BadHeader` comes exactly where the range does not lie in the file. `BadNote` comes only where it does
    /// and no list of notes has these bytes: a name or a descriptor passes their end, or 1 to 11 bytes are
    /// left; there no other error comes but out of memory. Else the one error is out of memory.
    /// Descriptors are parts of the file.
    pub fn notes(&self, alloc: Global, start: u64, len: u64) -> Result<Vec<Note<'a>>, ElfError>
        ensures outside { IsErrOf result ElfError.BadHeader ↔ (¬ IsInside self.now start len) }
        ensures bad { IsErrOf result ElfError.BadNote → IsBadRange self.now start len }
        ensures refused { IsBadRange self.now start len → IsErr result }
        ensures only { IfErr result (λ error. error ≢ ElfError.NotElf64) }
        ensures notes { IfOk result (λ notes. AreNotes (bytes_of_range self.now start len) (map noted notes.items)) }
        ensures once { AreNotesOnce (bytes_of_range self.now start len) }
    {
        let Some(range) = range_at(self.bytes(), start, len) else {
            return Err(ElfError::BadHeader);
        };
        notes_in(alloc, range)
    }
}
