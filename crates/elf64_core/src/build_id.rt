//! Build ids: which build a file is from.
ghost use Rattle.std.specs.Prelude.{◌≡◌, ◌⊎◌, List, ℕ, IsErrOf};
ghost use Rattle.elf64_core.specs.BuildIds.{FoundBuildId, found, NotesHoldBuildId, SectionSays, SectionsSay, BuildIdIs};
ghost use Rattle.elf64_core.specs.BuildIds.{FileHoldsBuildId};
ghost use Rattle.elf64_core.specs.Rest.{sections_left};

use crate::note::{HEADER_SIZE, first_note};
use crate::section_table::contents;
use crate::{Elf64, ElfError, Name, Section, Sections};
use std::alloc::Global;

/// The type of a note whose descriptor is the build id.
const BUILD_ID: u32 = 3;

/// The kind of a section of notes.
const NOTE_SECTION: u32 = 7;

/// A build id: any bytes, mostly 20 of them.
pub type BuildId = Name;

/// The build id in the bytes of a note section.
fn build_id_in(bytes: &[u8]) -> Result<Option<&[u8]>, ElfError>
    ensures { NotesHoldBuildId bytes.now (found result) }
{
    let mut rest = bytes;
    while rest.len() >= HEADER_SIZE {
        let Some((note, after)) = first_note(rest) else {
            return Err(ElfError::BadNote);
        };
        if note.kind == BUILD_ID {
            return Ok(Some(note.desc));
        }
        rest = after;
    }
    Ok(None)
}

/// The build id in a section.
fn section_build_id<'a>(bytes: &'a [u8], section: &Section) -> Result<Option<&'a [u8]>, ElfError>
    ensures { SectionSays bytes.now section.now (found result) }
{
    if section.kind != NOTE_SECTION {
        return Ok(None);
    }
    match contents(bytes, section) {
        Some(notes) => build_id_in(notes),
        None => Err(ElfError::BadHeader),
    }
}

/// The build id in sections, one by one.
fn build_id_among<'a>(bytes: &'a [u8], sections: Sections<'a>) -> Result<Option<&'a [u8]>, ElfError>
    ensures { SectionsSay bytes.now (sections_left sections.entry) (found result) }
{
    for section in sections {
        if let Some(id) = section_build_id(bytes, &section)? {
            return Ok(Some(id));
        }
    }
    Ok(None)
}

/// The build id of a file: the descriptor of the first note of type 3 in its note sections, in table order.
/// None where they have no such note. The id is a part of the file; nothing is copied, and no memory taken.
///
/// `BadHeader` comes exactly where it comes from `sections`, or a note section before that note does not lie
/// in the file. `BadNote` comes exactly where before that note a name or a descriptor passes the end of
/// its section; fewer than 12 bytes that are left end a section. The first that is met comes, and nothing
/// else does.
pub fn read_build_id<'a>(elf: &Elf64<'a>) -> Result<Option<&'a [u8]>, ElfError>
    ensures right { BuildIdIs elf.now (found result) }
    ensures only { (other : FoundBuildId) → BuildIdIs elf.now other → other ≡ found result }
{
    let sections = elf.sections()?;
    build_id_among(elf.bytes(), sections)
}

/// A copy of the build id of a file's bytes.
///
/// It comes, and `NotElf64`, `BadHeader` and `BadNote` come, as from `Elf64::parse` and then
/// `read_build_id`. Else the one error is out of memory.
pub fn read_elf_build_id(alloc: Global, bytes: &[u8]) -> Result<Option<BuildId>, ElfError>
    ensures right { IsErrOf result ElfError.OutOfMemory ⊎ FileHoldsBuildId bytes.now result }
    ensures only { (other : FoundBuildId) → FileHoldsBuildId bytes.now other
        → IsErrOf result ElfError.OutOfMemory ⊎ (other ≡ result) }
{
    let elf = Elf64::parse(bytes)?;
    match read_build_id(&elf)? {
        Some(id) => Ok(Some(Name::of(alloc, id)?)),
        None => Ok(None),
    }
}
