//! The notes of a core.
ghost use Rattle.std.specs.Prelude.{◌≡◌, ◌⊎◌, ◌↔◌, List, IfOk, IfErr, IsErrOf, IsTrue, All, filter, filter_map, find};
ghost use Rattle.std.specs.Prelude.{map, nat_eq, option_and_then, option_copied, reverse};
ghost use Rattle.elf64_core.specs.Header.{IsAccepted};
ghost use Rattle.elf64_core.specs.Notes.{Noted, noted};
ghost use Rattle.image_memory.specs.FileTables.{Entry, file_entry_of};
ghost use Rattle.image_memory.specs.Notes.{NotesOf, TablesSay, IsWhole, desc_of, is_table, note_segments, process_kind};
ghost use Rattle.image_memory.specs.Notes.{process_of, status_noted};

use crate::file_table::{FileEntry, table_entries};
use crate::records::{
    NT_FILE, NT_PRPSINFO, NT_PRSTATUS, PROCESS_SIZE, STATUS_SIZE, process_of, status_noted,
};
use crate::{DumpError, elf_prpsinfo, elf_prstatus};
use elf64_core::{Elf64, NOTE, Note};
use std::alloc::{AllocError, Global};

/// The notes of the note segments, in table order.
///
/// `BadNote` comes exactly where the bytes of one of these segments are no notes together. Else the one error
/// is out of memory, as which more notes than there is room for count.
pub(crate) fn core_notes<'a>(
    alloc: Global,
    elf: &Elf64<'a>,
    room: usize,
) -> Result<Vec<Note<'a>>, DumpError>
    requires { IsAccepted elf.now }
    ensures bad { IsErrOf result DumpError.BadNote
        → (notes : List Noted) → NotesOf elf.now (note_segments elf.now) notes → ⊥ }
    ensures only { IfErr result (λ error. (error ≡ DumpError.BadNote) ⊎ (error ≡ DumpError.OutOfMemory)) }
    ensures notes { IfOk result (λ notes. NotesOf elf.now (note_segments elf.now) (map noted notes.items)) }
{
    let mut all = Vec::new(alloc);
    for segment in elf.segments() {
        if segment.kind == NOTE {
            let notes = elf.notes(alloc, segment.offset, segment.file_size)?;
            all.extend_from_slice(&notes)?;
            if all.len() > room {
                return Err(DumpError::OutOfMemory);
            }
        }
    }
    Ok(all)
}

/// The first of some notes that has a type.
fn first_of_kind<'m, 'a>(notes: &'m [Note<'a>], kind: u32) -> Option<&'m Note<'a>>
    ensures { option_copied result ≡ find (λ note. nat_eq note.kind kind) notes.now }
{
    notes.iter().find(|note| note.kind == kind)
}

/// The descriptor of the first of some notes that has a type, if one has it.
pub fn first_desc<'a>(notes: &[Note<'a>], kind: u32) -> Option<&'a [u8]>
    ensures { option_copied result ≡ desc_of kind (map noted notes.now) }
{
    match first_of_kind(notes, kind) {
        Some(note) => Some(note.desc),
        None => None,
    }
}

/// Whether a note, if it is a status or a process record, is long enough.
fn is_whole(note: &Note) -> bool
    ensures { IsTrue result ↔ IsWhole (noted note.now) }
{
    match note.kind {
        NT_PRSTATUS => note.desc.len() >= STATUS_SIZE,
        NT_PRPSINFO => note.desc.len() >= PROCESS_SIZE,
        _ => true,
    }
}

/// Whether all status and process records among some notes are long enough.
pub(crate) fn are_whole(notes: &[Note]) -> bool
    ensures { IsTrue result ↔ All (λ note. IsWhole (noted note)) notes.now }
{
    notes.iter().all(is_whole)
}

/// What the status records among some notes say, in order.
pub(crate) fn statuses_of(alloc: Global, notes: &[Note]) -> Result<Vec<elf_prstatus>, AllocError>
    ensures { IfOk result (λ statuses. statuses.items ≡ filter_map (λ note. status_noted (noted note)) notes.now) }
{
    notes
        .iter()
        .filter_map(|note| status_noted(note))
        .collect(alloc)
}

/// What the last process record among some notes says, if there is one.
pub(crate) fn last_process(notes: &[Note]) -> Option<elf_prpsinfo>
    ensures { result ≡ option_and_then (λ note. process_of (noted note))
        (find (λ note. nat_eq note.kind process_kind) (reverse notes.now)) }
{
    let mut last = None;
    for note in notes.iter().copied() {
        if note.kind == NT_PRPSINFO {
            last = process_of(&note);
        }
    }
    last
}

/// The entries of the file tables among some notes, in order.
///
/// `BadNote` comes exactly where one of the tables is none. Else the one error is out of memory.
pub(crate) fn file_entries<'a>(
    alloc: Global,
    notes: Vec<Note<'a>>,
) -> Result<Vec<FileEntry<'a>>, DumpError>
    ensures bad { IsErrOf result DumpError.BadNote
        → (entries : List Entry) → TablesSay (filter is_table (map noted notes.entry.items)) entries → ⊥ }
    ensures only { IfErr result (λ error. (error ≡ DumpError.BadNote) ⊎ (error ≡ DumpError.OutOfMemory)) }
    ensures entries { IfOk result (λ entries.
        TablesSay (filter is_table (map noted notes.entry.items)) (map file_entry_of entries.items)) }
{
    let mut entries = Vec::new(alloc);
    for note in notes {
        if note.kind == NT_FILE {
            let own = table_entries(alloc, note.desc)?;
            entries.extend_from_slice(&own)?;
        }
    }
    Ok(entries)
}
