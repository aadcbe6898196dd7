//! Tables written out by hand, whose numbers no row of the program has.
use LineFamily::{Locations, Pairs, Ranges};
use py_lines::{LineFamily, LineRange, line_at, ranges};
use std::test::Fail;

/// The family, the first line, the table, and lines at offsets.
const LINES: [(LineFamily, i32, &[u8], &[(i64, i32)]); 5] = [
    // Deltas of -128, -127 and 127, and an odd last byte.
    (
        Pairs,
        300,
        &[2, 128, 2, 129, 2, 127, 9],
        &[(1, 300), (3, 172), (5, 45), (6, 172)],
    ),
    (Pairs, 9, &[], &[(0, 9), (1 << 31, 0)]),
    (
        Ranges,
        300,
        &[2, 129, 2, 127, 2, 1, 7],
        &[(0, 173), (2, 300), (4, 301), (6, 0)],
    ),
    // Codes 0 and 14, then a first byte without bit 7.
    (
        Locations,
        5,
        &[0x80, 7, 0xf1, 0x46, 1, 2, 0x43, 1, 4, 0x50, 0],
        &[(0, 5), (2, 40), (5, 40), (6, 0)],
    ),
    // Numbers of six bytes, of which the second leaves i32 and the third comes back, and of seven.
    (
        Locations,
        5,
        &[
            0xe8, 0x46, 0x40, 0x40, 0x40, 0x40, 0, 0xe8, 0x40, 0x40, 0x40, 0x40, 0x40, 4, 0xe8,
            0x41, 0x40, 0x40, 0x40, 0x40, 4, 0xe8, 0x46, 0x40, 0x40, 0x40, 0x40, 0x40, 0,
        ],
        &[(1, 8), (3, 0), (5, 8), (6, 0)],
    ),
];

#[test]
fn lines_are_those_of_the_ranges(rt: HostRuntime) -> Result<(), Fail> {
    for (family, first, table, lines) in &LINES {
        for (offset, line) in *lines {
            let found = line_at(*family, *first, table, *offset);
            assert!(rt; found == *line, "{family:?} {offset}");
        }
    }
    Ok(())
}

/// The family, the first line, the table, and its ranges by their starts, ends and lines.
const RANGES: [(LineFamily, i32, &[u8], &[(u64, u64, Option<i32>)]); 2] = [
    (
        Pairs,
        3,
        &[0, 1, 10, 1],
        &[(0, 10, Some(4)), (10, 2_147_483_648, Some(5))],
    ),
    (
        Ranges,
        2_147_483_647,
        &[4, 0, 2, 0x80, 6, 1],
        &[(0, 4, Some(2_147_483_647)), (4, 6, None), (6, 12, None)],
    ),
];

fn are_ranges(found: &[LineRange], wanted: &[(u64, u64, Option<i32>)]) -> bool {
    found.len() == wanted.len()
        && found.iter().zip(wanted).all(|(range, row)| (range.start, range.end, range.line) == *row)
}

#[test]
fn ranges_are_listed(rt: HostRuntime) -> Result<(), Fail> {
    for (family, first, table, wanted) in &RANGES {
        let found = ranges(rt.alloc(), *family, *first, table)?;
        assert!(rt; are_ranges(&found, wanted), "{family:?}");
    }
    Ok(())
}
