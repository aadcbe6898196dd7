//! The notes of a core by which its first thread alone is told.
ghost use Rattle.std.specs.Prelude.{◌≡◌, ◌++◌, ◌&&◌, ◌||◌, IfOk, OnOk, map};
ghost use Rattle.elf64_core.specs.Notes.{noted};
ghost use Rattle.native_stacks.specs.First.{is_status, kept_unless, notes_of_first};

use elf64_core::Note;
use image_memory::NT_PRSTATUS;
use std::alloc::{AllocError, Global};

/// How many bytes a status record has at least.
const STATUS_SIZE: usize = 112;

/// Whether a note is a status record.
fn is_status(note: &Note<'_>) -> bool
    ensures { result ≡ is_status (noted note.now) }
{
    note.kind == NT_PRSTATUS && note.desc.len() >= STATUS_SIZE
}

/// Adds a note, unless it is left out.
fn push_unless<'a>(
    kept: &mut Vec<Note<'a>>,
    is_left_out: bool,
    note: &Note<'a>,
) -> Result<(), AllocError>
    ensures { OnOk result (map noted kept.new.items ≡ map noted kept.old.items ++ kept_unless is_left_out (noted note.now)) }
{
    if is_left_out {
        return Ok(());
    }
    kept.push(*note)?;
    Ok(())
}

/// Whether one of both is so.
fn is_either(one: bool, other: bool) -> bool
    ensures { result ≡ one || other }
{
    one || other
}

/// Whether both are so.
fn are_both(one: bool, other: bool) -> bool
    ensures { result ≡ one && other }
{
    one && other
}

/// Some notes of a core, without the status records behind the first one: that is of the thread that got the signal,
/// where one did. The one error is out of memory.
pub fn notes_of_first<'a>(alloc: Global, notes: &[Note<'a>]) -> Result<Vec<Note<'a>>, AllocError>
    ensures { IfOk result (λ kept. map noted kept.items ≡ notes_of_first (map noted notes.now)) }
{
    let mut kept = Vec::new(alloc);
    let mut is_met = false;
    for note in notes {
        let is_status = is_status(note);
        push_unless(&mut kept, are_both(is_met, is_status), note)?;
        is_met = is_either(is_met, is_status);
    }
    Ok(kept)
}
