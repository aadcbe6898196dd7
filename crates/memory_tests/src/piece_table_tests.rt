//! Ranges that lie over each other, in two files.
ghost use Rattle.std.specs.Prelude.{◌≡◌, ◌<◌, All, IfOk};
ghost use Rattle.piece_table.specs.Places.{IsBounded};

use elf64_core::{Steps, TableEntry};
use piece_table::{FileRange, FileRun, PieceTable};
use std::alloc::{AllocError, Global};
use std::marker::Brand;
use std::sync::ledger::{Blank, Ledger};
use std::test::Fail;

/// Where a range starts, how many addresses it has, where what stands there is found, and in which file.
type Row = (u32, u32, u32, usize);

const FIRST: [Row; 3] = [(0x10, 8, 0, 0), (0x14, 8, 100, 0), (0x50, 0, 7, 0)];

/// Under all of these, and on from there with what follows in the file.
const OTHERS: [Row; 2] = [(0, 0x40, 200, 1), (0x3c, 12, 260, 1)];

/// The piece of both that holds an address.
const PIECES: [(u64, Option<Row>); 7] = [
    (0, Some((0, 0x10, 200, 1))),
    (0x17, Some((0x10, 8, 0, 0))),
    (0x18, Some((0x18, 4, 104, 0))),
    (0x1c, Some((0x1c, 0x24, 228, 1))),
    (0x47, Some((0x40, 8, 264, 1))),
    (0x48, None),
    (u64::MAX, None),
];

/// An address, how many are asked for, and the file, the place and the size of the run there.
type Run = (u64, u64, Option<(usize, u64, u64)>);

const RUNS: [Run; 6] = [
    (0x1c, 100, Some((1, 228, 44))),
    (0x1c, 40, Some((1, 228, 40))),
    (0x12, 3, Some((0, 2, 3))),
    (0x17, 4, Some((0, 7, 1))),
    (0x10, 0, None),
    (0x48, 1, None),
];

fn range_of(row: &Row) -> FileRange
    ensures { IsBounded result }
{
    FileRange {
        range: TableEntry {
            start: u64::from(row.0),
            len: u64::from(row.1),
            offset: u64::from(row.2),
        },
        file: row.3,
    }
}

fn ranges_of(alloc: Global, rows: &[Row]) -> Result<Vec<FileRange>, AllocError>
    ensures { IfOk result (λ ranges. All IsBounded ranges.items) }
{
    let mut ranges = Vec::new(alloc);
    for row in rows {
        ranges.push(range_of(row))?;
    }
    Ok(ranges)
}

/// What `find` gives; its steps aren't counted.
fn found<L: Ledger>(table: &PieceTable, addr: u64, blank: Blank) -> Option<FileRange>
    requires name { blank.name ≡ L.name }
    requires parts { blank.parts ≡ L.parts }
    requires some { 0 < L.parts }
{
    let mut steps = Steps::<L>::new(blank);
    table.find(addr, &mut steps)
}

/// Whether the piece at an address is this one, counted or not.
fn is_piece(table: &PieceTable, addr: u64, row: Option<&Row>) -> bool {
    let want = row.map(range_of);
    table.at(addr) == want && found::<Brand>(table, addr, Blank::new(1)) == want
}

fn is_run(table: &PieceTable, run: &Run) -> bool {
    let want = match run.2 {
        Some((file, start, size)) => Some(FileRun { file, start, size }),
        None => None,
    };
    table.run(run.0, run.1) == want
}

fn first(alloc: Global) -> Result<PieceTable, AllocError> {
    let ranges = ranges_of(alloc, &FIRST)?;
    PieceTable::of(alloc, ranges)
}

fn both(alloc: Global, first: &PieceTable) -> Result<PieceTable, AllocError> {
    let ranges = ranges_of(alloc, &OTHERS)?;
    first.followed_by(alloc, &ranges)
}

#[test]
fn an_earlier_range_wins(rt: HostRuntime) -> Result<(), Fail> {
    let first = first(rt.alloc())?;
    let both = both(rt.alloc(), &first)?;
    assert!(rt; first.len() == 2 && both.len() == 5);
    for (addr, row) in &PIECES {
        assert!(rt; is_piece(&both, *addr, row.as_ref()), "{addr:#x}");
    }
    for run in &RUNS {
        assert!(rt; is_run(&both, run), "{:#x}", run.0);
    }
    Ok(())
}
