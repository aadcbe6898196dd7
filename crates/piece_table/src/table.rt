//! A table by which what stands at an address is found in a file.
ghost use Rattle.std.specs.Prelude.{◌≡◌, ◌≢◌, ◌⊎◌, ◌↔◌, ◌+◌, ◌-◌, ◌*◌, ◌<◌, ◌≤◌, ◌^◌, ◌++◌, All, IfOk, IfSome, IsTrue};
ghost use Rattle.std.specs.Prelude.{List, None, Some, length, map, option_map, slice_get, slice_index};
ghost use Rattle.elf64_core.specs.declared.span_table.TableEntry.{TableEntry as Entry};
ghost use Rattle.piece_table.specs.Laid.{AreLaid};
ghost use Rattle.piece_table.specs.Lookups.{HalvesIn};
ghost use Rattle.piece_table.specs.Overlays.{ArePieces, spans};
ghost use Rattle.piece_table.specs.Places.{IsBounded, IsFilePiece, IsKept, IsRun, IsStretch, addresses_of};
ghost use Rattle.piece_table.specs.Places.{file_of_range, owned_by, stands_at};
ghost use Rattle.piece_table.specs.declared.table.FileRange.{FileRange as Range};

use crate::lookup::lookup;
use crate::overlay::{Owned, lay, overlay, table_of_laid};
use elf64_core::{SpanTable, Steps, TableEntry};
use std::alloc::{AllocError, Global};
use std::marker::{Brand, Model};
use std::sync::ledger::{Blank, Ledger};

/// Addresses, and in which file what stands there is found.
#[derive(Clone, Copy, Debug, PartialEq, Eq)]
pub struct FileRange {
    /// The addresses, and where in the file what stands at the first one is found.
    pub range: TableEntry,
    /// The number of the file, from 0 on.
    pub file: usize,
}

/// Bytes that follow each other in a file.
#[derive(Clone, Copy, Debug, PartialEq, Eq)]
pub struct FileRun {
    /// The number of the file, from 0 on.
    pub file: usize,
    /// Where the first one stands.
    pub start: u64,
    /// How many there are.
    pub size: u64,
}

/// Ranges of addresses in an order of preference: what stands at an address is found by the first range that
/// holds it. They are laid over each other once, when the table is made, and addresses are looked up by
/// halving, of which a clause of `find` alone speaks.
///
/// Contracts see it as the list of the ranges.
#[derive(Debug, Drop)]
pub struct PieceTable {
    ranges: Vec<FileRange>,
    /// The longest intervals of addresses that are one range's.
    pieces: SpanTable,
    /// The number of the range of each.
    owners: Vec<usize>,
}

impl Model for PieceTable {
    ghost Value = { List Range };

    ghost view = { λ t. t.ranges.items };

    ghost invariant = { λ t. IsKept t.ranges.items t.pieces t.owners.items };
}

/// The ranges without their files.
fn addresses_of(alloc: Global, ranges: &[FileRange]) -> Result<Vec<TableEntry>, AllocError>
    ensures { IfOk result (λ addresses. addresses.items ≡ addresses_of ranges.now) }
{
    ranges.iter().map(|range| range.range).collect(alloc)
}

/// The numbers of the ranges of pieces.
fn owners_of(alloc: Global, laid: &[Owned]) -> Result<Vec<usize>, AllocError>
    ensures { IfOk result (λ owners. owners.items ≡ map (λ piece. piece.owner) laid.now) }
{
    laid.iter().map(|piece| piece.owner).collect(alloc)
}

/// Pieces, with the numbers of their ranges. What counts the steps is let go.
fn laid_by<L: Ledger>(
    alloc: Global,
    pieces: &SpanTable,
    owners: &[usize],
    blank: Blank,
) -> Result<Vec<Owned>, AllocError>
    requires name { blank.name ≡ L.name }
    requires parts { blank.parts ≡ L.parts }
    requires some { 0 < L.parts }
    requires counted { length owners.now ≡ length pieces.now }
    ensures { IfOk result (λ laid. laid.items ≡ owned_by pieces.now owners.now) }
{
    let mut steps = Steps::<L>::new(blank);
    let mut laid = Vec::new(alloc);
    for number in 0..pieces.len() {
        laid.push(Owned {
            entry: pieces.probe(number, &mut steps),
            owner: owners[number as usize],
        })?;
    }
    Ok(laid)
}

impl PieceTable {
    /// The table of these ranges. The one error is out of memory, as which more than 2^32 - 1 pieces count.
    pub fn of(alloc: Global, ranges: Vec<FileRange>) -> Result<PieceTable, AllocError>
        requires { All IsBounded ranges.items }
        ensures { IfOk result (λ table. table ≡ ranges.items) }
    {
        let addresses = addresses_of(alloc, &ranges)?;
        let laid = lay(alloc, &addresses)?;
        PieceTable::of_laid(alloc, ranges, &laid)
    }

    /// The table of this one's ranges and, after them, of others: these have what this one leaves. The one error
    /// is out of memory, as which more than 2^32 - 1 pieces count.
    pub fn followed_by(&self, alloc: Global, others: &[FileRange]) -> Result<PieceTable, AllocError>
        requires { All IsBounded others.now }
        ensures { IfOk result (λ table. table ≡ self.now ++ others.now) }
    {
        let over = self.laid(alloc)?;
        let addresses = addresses_of(alloc, others)?;
        let under = lay(alloc, &addresses)?;
        let mut ranges = Vec::new(alloc);
        ranges.extend_from_slice(&self.ranges)?;
        ranges.extend_from_slice(others)?;
        let laid = overlay(alloc, &over, &under, self.ranges.len())?;
        PieceTable::of_laid(alloc, ranges, &laid)
    }

    /// The table of ranges that are laid already.
    fn of_laid(
        alloc: Global,
        ranges: Vec<FileRange>,
        laid: &[Owned],
    ) -> Result<PieceTable, AllocError>
        requires fit { All IsBounded ranges.items }
        requires laid { AreLaid (addresses_of ranges.items) laid.now }
        ensures { IfOk result (λ table. table ≡ ranges.items) }
    {
        let pieces = table_of_laid(alloc, laid)?;
        let owners = owners_of(alloc, laid)?;
        Ok(PieceTable {
            ranges,
            pieces,
            owners,
        })
    }

    /// The pieces, with the numbers of their ranges.
    fn laid(&self, alloc: Global) -> Result<Vec<Owned>, AllocError>
        ensures laid { IfOk result (λ laid. AreLaid (addresses_of self.now) laid.items) }
        ensures fit { All IsBounded self.now }
    {
        laid_by::<Brand>(alloc, &self.pieces, &self.owners, Blank::new(1))
    }

    /// How many pieces there are: a piece is a longest interval of addresses that are one range's. There are at
    /// most twice as many as ranges, and no list of such intervals has another length.
    pub fn len(&self) -> u32
        ensures are { (pieces : List Entry) × ArePieces (addresses_of self.now) pieces × (result ≡ length pieces) }
        ensures only { (pieces : List Entry) → ArePieces (addresses_of self.now) pieces → length pieces ≡ result }
        ensures few { result ≤ 2 * length self.now }
    {
        self.pieces.len()
    }

    /// The piece that holds an address, and its file; none exactly where no range does. It adds k steps to the
    /// counter that is handed in, where 2^k is at most twice the number of pieces and one.
    pub fn find<L: Ledger>(&self, addr: u64, steps: &mut Steps<L>) -> Option<FileRange>
        ensures none { result ≡ None → stands_at self.now addr ≡ None }
        ensures piece { IfSome result (IsFilePiece self.now) }
        ensures holds { IfSome result (λ piece. IsTrue (spans addr piece.range)) }
        ensures steps { (pieces : List Entry) × ArePieces (addresses_of self.now) pieces
            × HalvesIn (length pieces) steps.old steps.new }
    {
        let hit = lookup(&self.pieces, addr, steps)?;
        let owner = self.owners[hit.number as usize];
        Some(FileRange {
            range: hit.entry,
            file: self.ranges[owner].file,
        })
    }

    /// The same, with a counter of its own.
    fn find_with<L: Ledger>(&self, addr: u64, blank: Blank) -> Option<FileRange>
        requires name { blank.name ≡ L.name }
        requires parts { blank.parts ≡ L.parts }
        requires some { 0 < L.parts }
        ensures none { result ≡ None → stands_at self.now addr ≡ None }
        ensures piece { IfSome result (IsFilePiece self.now) }
        ensures holds { IfSome result (λ piece. IsTrue (spans addr piece.range)) }
    {
        let mut steps = Steps::<L>::new(blank);
        self.find(addr, &mut steps)
    }

    /// The same, where nothing is counted.
    pub fn at(&self, addr: u64) -> Option<FileRange>
        ensures none { result ≡ None → stands_at self.now addr ≡ None }
        ensures piece { IfSome result (IsFilePiece self.now) }
        ensures holds { IfSome result (λ piece. IsTrue (spans addr piece.range)) }
    {
        self.find_with::<Brand>(addr, Blank::new(1))
    }

    /// The addresses from one on up to the end of the piece that holds it, at most so many; none where no range
    /// holds it.
    pub(crate) fn stretch(&self, addr: u64, most: u64) -> Option<FileRun>
        requires { 0 < most }
        ensures none { result ≡ None → stands_at self.now addr ≡ None }
        ensures run { IfSome result (λ run. IsStretch self.now addr most run.file run.start run.size) }
    {
        let piece = self.at(addr)?;
        let past = addr - piece.range.start;
        Some(FileRun {
            file: piece.file,
            start: piece.range.offset + past,
            size: (piece.range.len - past).min(most),
        })
    }

    /// How many of so many addresses from one on go on with what a run has so far.
    fn goes_on(&self, addr: u64, run: FileRun, most: u64) -> u64
        requires some { 0 < most }
        requires fits { run.start + run.size ≤ 2 ^ 64 - 1 }
        ensures none { result ≡ 0 → stands_at self.now addr ≢ Some (run.file, run.start + run.size) }
        ensures run { 0 < result → IsStretch self.now addr most run.file (run.start + run.size) result }
    {
        match self.stretch(addr, most) {
            Some(more) if more.file == run.file && more.start == run.start + run.size => more.size,
            _ => 0,
        }
    }

    /// The longest run of at most `len` addresses from `addr` on, of which what stands there follows each other
    /// in one file; none exactly where `len` is 0 or no range holds `addr`. The pieces are looked up once for
    /// each stretch of one piece, of which no clause speaks.
    pub fn run(&self, addr: u64, len: u64) -> Option<FileRun>
        ensures none { result ≡ None ↔ (len ≡ 0) ⊎ (stands_at self.now addr ≡ None) }
        ensures run { IfSome result (λ run. IsRun self.now addr len run.file run.start run.size) }
        ensures fits { IfSome result (λ run. run.start + run.size ≤ 2 ^ 64 - 1) }
    {
        if len == 0 {
            return None;
        }
        let mut run = self.stretch(addr, len)?;
        while run.size < len {
            let more = self.goes_on(addr + run.size, run, len - run.size);
            if more == 0 {
                break;
            }
            run.size += more;
        }
        Some(run)
    }
}
