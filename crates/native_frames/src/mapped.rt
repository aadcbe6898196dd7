//! The files that a process had mapped, with their bytes where they are at hand.
ghost use Rattle.std.specs.Prelude.{◌≡◌, ◌++◌, IfOk, OnOk, map, option_copied};
ghost use Rattle.elf64_core.specs.Notes.{noted};
ghost use Rattle.native_frames.specs.Mapped.{AreMapped, bytes_under, mapping_shown, mappings_from, names_of};
ghost use Rattle.native_frames.specs.Mapped.{row_mapping};
ghost use Rattle.native_frames.specs.Mapped.{vdso_mappings, vdso_names};
ghost use Rattle.image_memory.specs.Notes.{is_table};
ghost use Rattle.native_frames.specs.Tables.{AddsRows, RowsSay, row_of};
ghost use Rattle.native_frames.specs.Vdsos.{vdso_shown};

use crate::table::{FileRow, table_rows};
use crate::vdso::{Vdso, vdso_in};
use core_unwind::{CodeMap, Mapping};
use elf64_core::{Name, Note};
use image_memory::{CoreDump, Images, NT_FILE};
use std::alloc::{AllocError, Global};

/// The files that a process had mapped: their paths, and where they were mapped, each under its number.
#[derive(Drop)]
pub struct Mapped<'a> {
    pub files: Vec<Name>,
    pub mappings: CodeMap<'a>,
}

/// Whether a note is a file table.
fn is_table(note: &Note<'_>) -> bool
    ensures { result ≡ is_table (noted note.now) }
{
    note.kind == NT_FILE
}

/// Adds the entries of a note, if it is a file table.
fn add_rows<'a>(
    alloc: Global,
    rows: &mut Vec<FileRow<'a>>,
    note: &Note<'a>,
) -> Result<(), AllocError>
    ensures { OnOk result (AddsRows (is_table (noted note.now)) note.now.desc.now (map row_of rows.old.items)
        (map row_of rows.new.items)) }
{
    if !is_table(note) {
        return Ok(());
    }
    let own = table_rows(alloc, note.desc)?;
    rows.extend_from_slice(&own)?;
    Ok(())
}

/// The entries of the file tables among notes, in order. The error is out of memory, or that one is no file table.
fn rows_in<'a>(alloc: Global, notes: &[Note<'a>]) -> Result<Vec<FileRow<'a>>, AllocError>
    ensures { IfOk result (λ rows. RowsSay (map noted notes.now) (map row_of rows.items)) }
{
    let mut rows = Vec::new(alloc);
    for note in notes {
        add_rows(alloc, &mut rows, note)?;
    }
    Ok(rows)
}

/// The bytes of the file under a path, where it is at hand.
fn bytes_under<'a>(images: &'a Images, path: &[u8]) -> Option<&'a [u8]>
    ensures { option_copied result ≡ bytes_under images.now path.now }
{
    match images.get(path) {
        Some(image) => Some(image.as_slice()),
        None => None,
    }
}

/// The mapping of an entry of a number.
fn row_mapping<'a>(images: &'a Images, number: usize, row: &FileRow<'_>) -> Mapping<'a>
    ensures { mapping_shown result ≡ row_mapping images.now number (row_of row.now) }
{
    Mapping {
        start: row.start,
        end: row.end,
        offset: row.offset,
        file: number,
        bytes: bytes_under(images, row.name),
    }
}

/// The mappings of entries, each under its number.
fn mappings_of<'a>(
    alloc: Global,
    images: &'a Images,
    rows: &[FileRow<'_>],
) -> Result<Vec<Mapping<'a>>, AllocError>
    ensures { IfOk result (λ mappings. map mapping_shown mappings.items
        ≡ mappings_from images.now 0 (map row_of rows.now)) }
{
    let mut mappings = Vec::with_capacity(alloc, rows.len())?;
    for (number, row) in rows.iter().enumerate() {
        mappings.push(row_mapping(images, number, row))?;
    }
    Ok(mappings)
}

/// The paths of entries.
fn names_of(alloc: Global, rows: &[FileRow<'_>]) -> Result<Vec<Name>, AllocError>
    ensures { IfOk result (λ names. names.items ≡ names_of (map row_of rows.now)) }
{
    let mut names = Vec::with_capacity(alloc, rows.len())?;
    for row in rows {
        names.push(Name::of(alloc, row.name)?)?;
    }
    Ok(names)
}

/// Adds the mapping of the vdso, under a number.
fn add_vdso_mapping<'a>(
    mappings: &mut Vec<Mapping<'a>>,
    number: usize,
    vdso: Option<Vdso<'a>>,
) -> Result<(), AllocError>
    ensures { OnOk result (map mapping_shown mappings.new.items
        ≡ map mapping_shown mappings.old.items ++ vdso_mappings number (vdso_shown vdso.entry)) }
{
    if let Some(vdso) = vdso {
        let end = vdso.base.saturating_add(vdso.bytes.len() as u64);
        mappings.push(Mapping {
            start: vdso.base,
            end,
            offset: 0,
            file: number,
            bytes: Some(vdso.bytes),
        })?;
    }
    Ok(())
}

/// Adds the name of the vdso.
fn add_vdso_name(
    alloc: Global,
    names: &mut Vec<Name>,
    vdso: Option<Vdso<'_>>,
) -> Result<(), AllocError>
    ensures { OnOk result (names.new.items ≡ names.old.items ++ vdso_names (vdso_shown vdso.entry)) }
{
    if vdso.is_some() {
        names.push(Name::of(alloc, b"[vdso]")?)?;
    }
    Ok(())
}

/// The files that a process had mapped, by the notes of its core, and the vdso. The error is out of memory, or that a
/// file table is none, which those of a core are not.
pub fn mapped_files<'a>(
    alloc: Global,
    core: &'a CoreDump,
    notes: &[Note<'_>],
    images: &'a Images,
) -> Result<Mapped<'a>, AllocError>
    ensures { IfOk result (λ mapped.
        AreMapped core.now (map noted notes.now) images.now mapped.files.items mapped.mappings) }
{
    let rows = rows_in(alloc, notes)?;
    let vdso = vdso_in(core, notes);
    let mut files = names_of(alloc, &rows)?;
    add_vdso_name(alloc, &mut files, vdso)?;
    let mut mappings = mappings_of(alloc, images, &rows)?;
    add_vdso_mapping(&mut mappings, rows.len(), vdso)?;
    let mappings = CodeMap::of(alloc, mappings)?;
    Ok(Mapped { files, mappings })
}
