//! What is read of a core when it is taken.
ghost use Rattle.std.specs.Prelude.{◌≡◌, ◌≢◌, ◌⊎◌, ◌∷◌, ◌++◌, [], IfOk, IfErr, IsErrOf, map, option_map, ℕ};
ghost use Rattle.std.specs.Bool.{MatchBool};
ghost use Rattle.std.specs.BTreeMap.{get};
ghost use Rattle.std.specs.Option.{option_or};
ghost use Rattle.std.specs.Ordering.{nat_cmp};
ghost use Rattle.elf64_core.specs.Header.{IsAccepted, IsInside};
ghost use Rattle.image_memory.specs.Notes.{note_segments};
ghost use Rattle.image_memory.specs.Contents.{AreContents, AreTold, IsBadSegment, SegmentsSay};
ghost use Rattle.image_memory.specs.Cores.{HasNotes, HasBadNote, IsEarly, RefusesCore};
ghost use Rattle.image_memory.specs.FileTables.{file_entry_of};
ghost use Rattle.image_memory.specs.Maps.{entry_for};
ghost use Rattle.image_memory.specs.Pieces.{loads_of};
ghost use Rattle.image_memory.specs.declared.dump_error.DumpError.{DumpError as Refusal};

use crate::file_table::{FileEntry, FilePlace};
use crate::maps::{add_entries, maps_of, places_of};
use crate::notes::{are_whole, file_entries, last_process, statuses_of};
use crate::places::table_of;
use crate::{CoreMapRange, DumpError, elf_prpsinfo, elf_prstatus};
use elf64_core::{Elf64, LOAD, Machine, NOTE, Segment};
use piece_table::PieceTable;
use std::alloc::{AllocError, Global};
use std::collections::BTreeMap;

/// How many bytes of the file there are at least for each record and each entry that is kept. None of them has fewer,
/// unless segments share their bytes.
const BYTES_FOR_A_RECORD: usize = 16;

/// What is read of a core.
#[derive(Drop)]
pub(crate) struct Contents {
    /// The machine that the header names.
    pub(crate) machine: Machine,
    /// The load segments, in table order.
    pub(crate) loads: Vec<Segment>,
    /// The note segments, in table order.
    pub(crate) notes: Vec<Segment>,
    /// Where their bytes stand in the file.
    pub(crate) table: PieceTable,
    /// The map of each.
    pub(crate) maps: Vec<CoreMapRange>,
    /// Where the file of each map is mapped from.
    pub(crate) places: Vec<Option<FilePlace>>,
    /// The status records, in order.
    pub(crate) statuses: Vec<elf_prstatus>,
    /// The last process record.
    pub(crate) process: Option<elf_prpsinfo>,
}

/// What the notes of a segment say.
#[derive(Drop)]
struct Said<'a> {
    statuses: Vec<elf_prstatus>,
    process: Option<elf_prpsinfo>,
    entries: Vec<FileEntry<'a>>,
}

/// What the notes of the segments so far say.
#[derive(Drop)]
pub(crate) struct Told<'a> {
    pub(crate) statuses: Vec<elf_prstatus>,
    pub(crate) process: Option<elf_prpsinfo>,
    /// The last entry for each address at which one starts.
    pub(crate) last: BTreeMap<u64, FileEntry<'a>>,
}

/// Whether a segment has notes.
fn has_notes(elf: &Elf64) -> bool
    ensures { MatchBool result (note_segments elf.now ≢ []) (note_segments elf.now ≡ []) }
{
    for segment in elf.segments() {
        if segment.kind == NOTE {
            return true;
        }
    }
    false
}

/// The file, if its segments can be read and one of them has notes. It takes no memory.
fn accept(bytes: &[u8]) -> Result<Elf64<'_>, DumpError>
    ensures right { IfErr result (RefusesCore bytes.now) }
    ensures only { IfErr result IsEarly }
    ensures early { (error : Refusal) → IsEarly error → RefusesCore bytes.now error → result ≡ Err error }
    ensures same { IfOk result (λ elf. elf ≡ bytes.now) }
    ensures noted { IfOk result (λ elf. HasNotes bytes.now) }
{
    let elf = Elf64::parse(bytes)?;
    if !has_notes(&elf) {
        return Err(DumpError::NoNotes);
    }
    Ok(elf)
}

/// What the notes of a segment say, which lies in the file.
fn read_segment<'a>(
    alloc: Global,
    elf: &Elf64<'a>,
    segment: &Segment,
) -> Result<Said<'a>, DumpError>
    requires { IsInside elf.now segment.now.offset segment.now.file_size }
    ensures bad { IsErrOf result DumpError.BadNote → IsBadSegment elf.now segment.now }
    ensures only { IfErr result (λ error. (error ≡ DumpError.BadNote) ⊎ (error ≡ DumpError.OutOfMemory)) }
    ensures say { IfOk result (λ said. SegmentsSay elf.now (segment.now ∷ [])
        said.statuses.items said.process (map file_entry_of said.entries.items)) }
{
    let notes = elf.notes(alloc, segment.offset, segment.file_size)?;
    if !are_whole(&notes) {
        return Err(DumpError::BadNote);
    }
    let statuses = statuses_of(alloc, &notes)?;
    let process = last_process(&notes);
    let entries = file_entries(alloc, notes)?;
    Ok(Said {
        statuses,
        process,
        entries,
    })
}

/// What is told with what a further segment says. The one error is out of memory, of which more records than there is
/// room for count.
fn with_said<'a>(told: Told<'a>, said: Said<'a>, room: usize) -> Result<Told<'a>, AllocError>
    ensures statuses { IfOk result (λ all. all.statuses.items
        ≡ told.entry.statuses.items ++ said.entry.statuses.items) }
    ensures process { IfOk result (λ all. all.process ≡ option_or said.entry.process told.entry.process) }
    ensures last { IfOk result (λ all. (addr : ℕ) → option_map file_entry_of (get nat_cmp all.last addr)
        ≡ option_or (entry_for (map file_entry_of said.entry.entries.items) addr)
        (option_map file_entry_of (get nat_cmp told.entry.last addr))) }
{
    let mut all = told;
    all.statuses.extend_from_slice(&said.statuses)?;
    if said.process.is_some() {
        all.process = said.process;
    }
    add_entries(&mut all.last, said.entries)?;
    if all.statuses.len() > room || all.last.len() > room {
        return Err(AllocError);
    }
    Ok(all)
}

/// What the notes of a core say. It takes memory for one segment at a time, and of all of them together for what is
/// kept alone; more of that than there is room for counts as out of memory.
fn read_notes<'a>(alloc: Global, elf: &Elf64<'a>, room: usize) -> Result<Told<'a>, DumpError>
    requires { IsAccepted elf.now }
    ensures bad { IsErrOf result DumpError.BadNote → HasBadNote elf.now }
    ensures only { IfErr result (λ error. (error ≡ DumpError.BadNote) ⊎ (error ≡ DumpError.OutOfMemory)) }
    ensures told { IfOk result (AreTold elf.now (note_segments elf.now)) }
{
    let mut told = Told {
        statuses: Vec::new(alloc),
        process: None,
        last: BTreeMap::new(alloc),
    };
    for segment in elf.segments() {
        if segment.kind == NOTE {
            let said = read_segment(alloc, elf, &segment)?;
            told = with_said(told, said, room)?;
        }
    }
    Ok(told)
}

/// The load segments, in table order.
fn load_segments(alloc: Global, elf: &Elf64) -> Result<Vec<Segment>, AllocError>
    ensures { IfOk result (λ loads. loads.items ≡ loads_of elf.now) }
{
    elf.segments()
        .filter(|segment| segment.kind == LOAD)
        .collect(alloc)
}

/// The note segments, in table order.
fn noted_segments(alloc: Global, elf: &Elf64) -> Result<Vec<Segment>, AllocError>
    ensures { IfOk result (λ notes. notes.items ≡ note_segments elf.now) }
{
    elf.segments()
        .filter(|segment| segment.kind == NOTE)
        .collect(alloc)
}

/// What is read of some bytes, if they are those of a core.
pub(crate) fn read_core(alloc: Global, bytes: &[u8]) -> Result<Contents, DumpError>
    ensures right { IfErr result (RefusesCore bytes.now) }
    ensures early { (error : Refusal) → IsEarly error → RefusesCore bytes.now error → result ≡ Err error }
    ensures are { IfOk result (AreContents bytes.now) }
{
    let elf = accept(bytes)?;
    let told = read_notes(alloc, &elf, bytes.len() / BYTES_FOR_A_RECORD)?;
    let loads = load_segments(alloc, &elf)?;
    let notes = noted_segments(alloc, &elf)?;
    let table = table_of(alloc, &loads)?;
    let maps = maps_of(alloc, &loads, &told.last, bytes.len())?;
    let places = places_of(alloc, &loads, &told.last)?;
    Ok(Contents {
        machine: elf.machine(),
        loads,
        notes,
        table,
        maps,
        places,
        statuses: told.statuses,
        process: told.process,
    })
}
