//! A core dump: the file of a dead process's memory.
ghost use Rattle.std.specs.Prelude.{◌≡◌, ◌⊎◌, ◌↔◌, ◌<◌, ◌≤◌, ◌*◌, List, [], ◌∷◌, ℕ, IfOk, IfErr, IfSome, is_some, Err};
ghost use Rattle.std.specs.Prelude.{None, Option, Some, ◌+◌, length, option_and_then, option_copied, slice_get, map};
ghost use Rattle.std.specs.Prelude.{slice_index, slice_range};
ghost use Rattle.elf64_core.specs.Header.{machine_of};
ghost use Rattle.image_memory.specs.Contents.{AreContents};
ghost use Rattle.image_memory.specs.Cores.{IsCore, IsEarly, RefusesCore};
ghost use Rattle.elf64_core.specs.Header.{HasSegments, IsInside};
ghost use Rattle.image_memory.specs.Maps.{AreMaps, ArePlaces, IsFilePlace, in_core, is_named};
ghost use Rattle.image_memory.specs.declared.file_table.FilePlace.{FilePlace as Place};
ghost use Rattle.image_memory.specs.Notes.{AreNotesOfCore, AreStatuses, IsProcess, note_bytes, segment_bytes};
ghost use Rattle.elf64_core.specs.Notes.{Noted, noted};
ghost use Rattle.image_memory.specs.Pieces.{core_ranges, loads_of, memory_of, ranges_of};
ghost use Rattle.piece_table.specs.Lookups.{HalvesIn};
ghost use Rattle.piece_table.specs.Overlays.{ArePieces};
ghost use Rattle.piece_table.specs.Places.{IsRest, IsRun};
ghost use Rattle.image_memory.specs.declared.dump_error.DumpError.{DumpError as Refusal};
ghost use Rattle.image_memory.specs.declared.maps.CoreMapRange.{CoreMapRange as Map};
ghost use Rattle.image_memory.specs.declared.records.elf_prstatus.{elf_prstatus as Status};
ghost use Rattle.image_memory.specs.declared.records.elf_prpsinfo.{elf_prpsinfo as Process};
ghost use Rattle.elf64_core.specs.declared.span_table.TableEntry.{TableEntry as Entry};
ghost use Rattle.process_memory.specs.Layers.{plain};
ghost use Rattle.process_memory.specs.Memory.{byte_at};

use crate::contents::{Contents, read_core};
use crate::maps::holds_addr;
use crate::notes::core_notes;
use crate::{ContainsAddr, CoreMapRange, DumpError, FilePlace, View, elf_prpsinfo, elf_prstatus};
use elf64_core::{Elf64, Machine, Note, Segment, Steps};
use piece_table::{PieceTable, Stored, piece_of, rest_of, run_of};
use process_memory::{Pieces, ProcessMemory};
use std::alloc::{AllocError, Global};
use std::marker::Model;
use std::sync::ledger::Ledger;

/// How many bytes of the file there are at least for each note that is listed; a note has 12.
const BYTES_FOR_A_NOTE: usize = 4;

/// A core dump. Its bytes exist once; views share them.
///
/// Contracts see it as the list of the file's bytes, which are those of a core.
#[derive(Drop)]
pub struct CoreDump {
    bytes: Vec<u8>,
    contents: Contents,
}

impl Model for CoreDump {
    ghost Value = { List ℕ };

    ghost view = { λ c. c.bytes.items };

    ghost invariant = { λ c. AreContents c.bytes.items c.contents };
}

/// The bytes that a file has of a segment, which lie in it; a segment of none may begin behind its end.
fn bytes_of_segment<'a>(bytes: &'a [u8], segment: &Segment) -> &'a [u8]
    requires { IsInside bytes.now segment.now.offset segment.now.file_size }
    ensures { result.now ≡ segment_bytes bytes.now segment.now }
{
    if segment.file_size == 0 {
        return &[];
    }
    &bytes[segment.offset as usize..(segment.offset + segment.file_size) as usize]
}

/// The place of a number, if there is one.
fn place_at(places: &[Option<FilePlace>], index: usize) -> Option<FilePlace>
    ensures { result ≡ option_and_then (λ place. place) (slice_get places.now index) }
{
    if index < places.len() {
        places[index]
    } else {
        None
    }
}

impl CoreDump {
    /// The core dump of a file's bytes.
    ///
    /// `NotElf64` comes exactly where there are no 64 bytes, or the first six are not 7f 45 4c 46 02 01.
    /// `BadHeader` comes exactly where the header is accepted and the program headers are not: see
    /// `Elf64::parse`. `NoNotes` comes exactly where these are accepted and none is that of a note segment.
    /// Where one of these holds, out of memory never comes in its place. Else `BadNote` comes only where the bytes of
    /// a note segment are no notes, a status record has less than 112 bytes or a process record less than 136, or a
    /// file table is shorter, or has fewer names, than its count says; and there no other error comes but want of
    /// memory. Else the one error is out of memory.
    pub fn new(alloc: Global, bytes: Vec<u8>) -> Result<CoreDump, DumpError>
        ensures right { IfErr result (RefusesCore bytes.items) }
        ensures early { (error : Refusal) → IsEarly error → RefusesCore bytes.items error → result ≡ Err error }
        ensures only { (error : Refusal) → RefusesCore bytes.items error
            → (result ≡ Err error) ⊎ (result ≡ Err DumpError.OutOfMemory) ⊎ (error ≡ DumpError.OutOfMemory) }
        ensures same { IfOk result (λ core. core ≡ bytes.items) }
        ensures core { IfOk result (λ core. IsCore bytes.items) }
    {
        let contents = read_core(alloc, &bytes)?;
        Ok(CoreDump { bytes, contents })
    }

    /// The maps: the load segments in table order, each with the name that the file tables give last for its
    /// start, over all tables in order, if one does. The bytes are those of a core, as `new` saw.
    pub fn maps(&self) -> &Vec<CoreMapRange>
        ensures are { AreMaps self.now result.now.items }
        ensures only { (maps : List Map) → AreMaps self.now maps → maps ≡ result.now.items }
        ensures core { IsCore self.now }
    {
        &self.contents.maps
    }

    /// The last process record, if there is one.
    pub fn psinfo(&self) -> Option<&elf_prpsinfo>
        ensures is { IsProcess self.now (option_copied result) }
        ensures only { (process : Option Process) → IsProcess self.now process → process ≡ option_copied result }
    {
        self.contents.process.as_ref()
    }

    /// The status records, in order.
    pub fn status(&self) -> &[elf_prstatus]
        ensures are { AreStatuses self.now result.now }
        ensures only { (statuses : List Status) → AreStatuses self.now statuses → statuses ≡ result.now }
    {
        &self.contents.statuses
    }

    /// Where the file of the map of a number, from 0 on, is mapped from, by the entry that gives the map its
    /// name: in pages, with the size of a page. None exactly where there is no such map, or it has no name.
    pub fn file_place(&self, index: u32) -> Option<FilePlace>
        ensures is { IsFilePlace self.now index result }
        ensures only { (place : Option Place) → IsFilePlace self.now index place → place ≡ result }
        ensures named { (maps : List Map) → AreMaps self.now maps → is_some result ≡ is_named maps index }
    {
        place_at(&self.contents.places, index as usize)
    }

    /// The same, of all maps in order.
    pub(crate) fn places(&self) -> &[Option<FilePlace>]
        ensures places { ArePlaces self.now result.now }
        ensures held { HasSegments self.now }
    {
        &self.contents.places
    }

    /// The bytes of the note segment of a number, from 0 on, in table order; none exactly where there are not
    /// so many. It takes no memory.
    pub fn note_segment(&self, index: u32) -> Option<&[u8]>
        ensures { option_copied result ≡ slice_get (note_bytes self.now) index }
    {
        let segment = self.contents.notes.get(index as usize)?;
        Some(bytes_of_segment(&self.bytes, segment))
    }

    /// The notes of the note segments, in table order, each with its descriptor, which is a part of the file: status
    /// records, process records, file tables, and what else a core has (`NT_SIGINFO`, `NT_AUXV`). A list of 24 bytes a
    /// note is made each time, and the program headers are gone through. The one error is out of memory, as which more
    /// notes than one for four bytes of the file count: so many there are only where segments share their bytes.
    pub fn notes(&self, alloc: Global) -> Result<Vec<Note<'_>>, AllocError>
        ensures are { IfOk result (λ notes. AreNotesOfCore self.now (map noted notes.items)) }
        ensures only { IfOk result (λ notes. (others : List Noted) → AreNotesOfCore self.now others
            → others ≡ map noted notes.items) }
    {
        let Ok(elf) = Elf64::parse(&self.bytes) else {
            return Err(AllocError);
        };
        match core_notes(alloc, &elf, self.bytes.len() / BYTES_FOR_A_NOTE) {
            Ok(notes) => Ok(notes),
            Err(_) => Err(AllocError),
        }
    }

    /// The machine that the header names.
    pub fn machine(&self) -> Machine
        ensures { result ≡ machine_of self.now }
    {
        self.contents.machine
    }

    /// How many pieces of memory there are: a piece is a longest interval of addresses whose bytes are those
    /// of one load segment. There are at most twice as many as load segments, and no list of such intervals
    /// has another length.
    pub fn pieces(&self) -> u32
        ensures are { (pieces : List Entry) × ArePieces (ranges_of self.now) pieces × (result ≡ length pieces) }
        ensures only { (pieces : List Entry) → ArePieces (ranges_of self.now) pieces → length pieces ≡ result }
        ensures few { result ≤ 2 * length (loads_of self.now) }
    {
        self.contents.table.len()
    }

    /// The bytes from `addr` up to the end of the piece that holds it; none exactly where the address has no
    /// byte. It adds k steps to the counter that is handed in, where 2^k is at most twice the number that
    /// `pieces` gives and one; that nothing is looked up beside these steps no clause says. It takes no memory.
    pub fn find<L: Ledger>(&self, addr: u64, steps: &mut Steps<L>) -> Option<&[u8]>
        ensures none { result ≡ None ↔ byte_at (memory_of self.now) addr ≡ None }
        ensures rest { IfSome result (λ rest. IsRest (ranges_of self.now) addr (length rest.now)) }
        ensures bytes { IfSome result (λ rest. (k : ℕ) → k < length rest.now
            → byte_at (memory_of self.now) (addr + k) ≡ Some (slice_index rest.now k)) }
        ensures steps { (pieces : List Entry) × ArePieces (ranges_of self.now) pieces
            × HalvesIn (length pieces) steps.old steps.new }
    {
        rest_of(self, addr, steps)
    }

    /// The bytes of the longest run of at most `len` addresses from `addr` on that are in memory and whose
    /// bytes follow each other in the file; none exactly where `len` is 0 or the byte at `addr` is not in
    /// memory. They are those of the memory that `view` means. Where the byte at an address stands is as `view`
    /// has it: in the first load segment that holds it. It takes no memory. The pieces are looked up once for
    /// each run of one segment, of which no clause speaks.
    pub fn piece(&self, addr: u64, len: u64) -> Option<&[u8]>
        ensures none { result ≡ None ↔ (len ≡ 0) ⊎ (byte_at (memory_of self.now) addr ≡ None) }
        ensures run { IfSome result (λ piece. (start : ℕ)
            × IsRun (core_ranges self.now) addr len 0 start (length piece.now)
            × (piece.now ≡ slice_range self.now start (start + length piece.now))) }
        ensures bytes { IfSome result (λ piece. (k : ℕ) → k < length piece.now
            → byte_at (memory_of self.now) (addr + k) ≡ Some (slice_index piece.now k)) }
    {
        piece_of(self, addr, len)
    }

    /// The memory of the core: one piece for each load segment, in table order, of the first bytes that
    /// the file has of it, at most as many as it has in memory.
    pub fn view<'a>(&'a self) -> View<'a>
        ensures { ⟦<View<'a> as ProcessMemory>⟧.seen result ≡ plain (memory_of self.now) }
    {
        View::new(self)
    }
}

impl Stored for CoreDump {
    ghost ranges = { core_ranges };

    ghost files = { λ bytes. bytes ∷ [] };

    fn table(&self) -> &PieceTable {
        &self.contents.table
    }

    fn file(&self, _file: usize) -> &[u8] {
        &self.bytes
    }
}

impl Pieces for CoreDump {
    ghost regions = { memory_of };

    fn run(&self, addr: u64) -> Option<&[u8]> {
        run_of(self, addr)
    }
}

/// The addresses that lie in a map, whether or not the core has their bytes.
impl ContainsAddr for CoreDump {
    ghost contains = { in_core };

    fn contains_addr(&self, addr: u64) -> bool {
        self.contents
            .loads
            .iter()
            .any(|segment| holds_addr(segment, addr))
    }
}
