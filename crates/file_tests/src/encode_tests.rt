//! Tables of ranges, worked out by hand.
use LineFamily::{Locations, Pairs, Ranges};
use py_lines::{EncodeError, LineFamily, LineRange, encode};
use std::alloc::Global;
use std::test::Fail;

/// The ranges that stand one behind the other, by their ends and lines.
type Ends = &'static [(u64, Option<i32>)];

/// The family, the first line, the ranges, and their table.
const TABLES: [(LineFamily, i32, &[(u64, Option<i32>)], &[u8]); 14] = [
    (
        Pairs,
        3,
        &[(10, Some(4)), (18, Some(5)), (22, Some(6))],
        &[0, 1, 10, 1, 8, 1],
    ),
    (Pairs, 1, &[(2, Some(301))], &[0, 127, 0, 127, 0, 46]),
    (Pairs, 9, &[], &[]),
    // Deltas of 127 and 128, and lengths of 255 and 256.
    (
        Pairs,
        1,
        &[(255, Some(128)), (511, Some(256)), (512, Some(256))],
        &[0, 127, 255, 127, 0, 1, 255, 0, 1, 0],
    ),
    // Deltas of -128 and -129.
    (
        Pairs,
        300,
        &[(2, Some(172)), (4, Some(43))],
        &[0, 128, 2, 128, 0, 255],
    ),
    (
        Ranges,
        10,
        &[(4, Some(11)), (6, None), (12, Some(13))],
        &[4, 1, 2, 0x80, 6, 2],
    ),
    // Deltas of 127, 128, -127 and -128.
    (
        Ranges,
        1,
        &[(3, Some(128)), (4, Some(256)), (5, Some(129)), (6, Some(1))],
        &[3, 127, 0, 127, 1, 1, 1, 129, 0, 129, 1, 255],
    ),
    // Lengths of 255 and 256, with and without a line.
    (
        Ranges,
        1,
        &[(255, Some(2)), (511, Some(4)), (767, None)],
        &[255, 1, 255, 2, 1, 0, 255, 128, 1, 128],
    ),
    (
        Locations,
        5,
        &[(4, Some(6)), (6, Some(3))],
        &[0xe9, 2, 0xe8, 7],
    ),
    // A length of more than 8 units, with and without a line.
    (
        Locations,
        5,
        &[(34, Some(5)), (68, None), (70, Some(5))],
        &[0xef, 0, 0xef, 0, 0xe8, 0, 0xff, 0xff, 0xf8, 0xe8, 0],
    ),
    // Deltas of 31, 32, -31 and -32.
    (
        Locations,
        1,
        &[(2, Some(32)), (4, Some(64)), (6, Some(33)), (8, Some(1))],
        &[0xe8, 62, 0xe8, 64, 1, 0xe8, 63, 0xe8, 65, 1],
    ),
    // From one end of i32 to the other, and back.
    (
        Locations,
        i32::MIN,
        &[(2, Some(i32::MAX)), (4, Some(i32::MIN))],
        &[
            0xe8, 0x7e, 0x7f, 0x7f, 0x7f, 0x7f, 7, 0xe8, 0x7f, 0x7f, 0x7f, 0x7f, 0x7f, 7,
        ],
    ),
    // An odd length is fine but for locations.
    (Ranges, 1, &[(1, Some(1))], &[1, 0]),
    (Pairs, 1, &[(1, Some(1))], &[0, 0]),
];

/// The ranges that have these ends and lines.
fn ranges_to(alloc: Global, ends: Ends) -> Result<Vec<LineRange>, Fail> {
    let mut found = Vec::new(alloc);
    let mut start = 0;
    for (end, line) in ends {
        found.push(LineRange {
            start,
            end: *end,
            line: *line,
        })?;
        start = *end;
    }
    Ok(found)
}

fn table_of(alloc: Global, family: LineFamily, first: i32, ends: Ends) -> Result<Vec<u8>, Fail> {
    let ranges = ranges_to(alloc, ends)?;
    Ok(encode(alloc, family, first, &ranges)?)
}

#[test]
fn tables_are_written(rt: HostRuntime) -> Result<(), Fail> {
    for (family, first, ends, table) in &TABLES {
        let found = table_of(rt.alloc(), *family, *first, ends)?;
        assert!(rt; found.as_slice() == *table, "{family:?} {first}");
    }
    Ok(())
}

/// A range, by its start, its end and its line.
type Row = (u64, u64, Option<i32>);

fn range_of((start, end, line): Row) -> LineRange {
    LineRange { start, end, line }
}

/// Why there is no table of two ranges, whose first line is 1.
fn fault_of(alloc: Global, family: LineFamily, first: Row, second: Row) -> Option<EncodeError> {
    encode(alloc, family, 1, &[range_of(first), range_of(second)]).err()
}

/// The family, two ranges, and which of them can't stand there.
const UNORDERED: [(LineFamily, Row, Row, u64); 9] = [
    (Pairs, (1, 4, Some(1)), (4, 6, Some(1)), 0),
    (Ranges, (1, 4, Some(1)), (4, 6, Some(1)), 0),
    (Locations, (1, 5, Some(1)), (5, 7, Some(1)), 0),
    (Ranges, (0, 0, Some(1)), (0, 4, Some(1)), 0),
    (Ranges, (0, 4, Some(1)), (5, 6, Some(1)), 1),
    (Ranges, (0, 4, Some(1)), (3, 6, Some(1)), 1),
    (Pairs, (0, 4, Some(1)), (4, 2_147_483_648, Some(1)), 1),
    (Pairs, (0, 4, Some(1)), (4, 6, None), 1),
    (Locations, (0, 4, Some(1)), (4, 7, None), 1),
];

#[test]
fn ranges_that_cannot_stand_are_named(rt: HostRuntime) {
    for (family, first, second, index) in &UNORDERED {
        let fault = fault_of(rt.alloc(), *family, *first, *second);
        let want = EncodeError::NotOrdered { index: *index };
        assert!(rt; fault == Some(want), "{family:?} {index}");
    }
    let far = fault_of(
        rt.alloc(),
        Pairs,
        (0, 4, Some(1)),
        (4, 2_147_483_647, Some(1)),
    );
    assert!(rt; far.is_none());
}

/// Whether the table of one range is too long.
fn is_too_long(alloc: Global, family: LineFamily, end: u64, line: Option<i32>) -> bool {
    encode(alloc, family, 1, &[range_of((0, end, line))]).err() == Some(EncodeError::TooLong)
}

#[test]
fn long_tables_are_refused(rt: HostRuntime) {
    assert!(rt; is_too_long(rt.alloc(), Ranges, 16_777_216, Some(1)));
    assert!(rt; !is_too_long(rt.alloc(), Locations, 1_048_560, None));
    assert!(rt; is_too_long(rt.alloc(), Locations, 1_048_576, None));
}
