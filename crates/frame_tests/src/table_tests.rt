//! The table of a small file, which is written down here.
use frame_rows::{Cfa, RowError};
use frame_tables::{RecordError, RecordFlaw, Room, Table, TableError};

/// A file of x86-64 that is mapped at 0x400000: its header, a load segment and PT_GNU_EH_FRAME; from 176 on the table
/// of two entries, from 204 on the common information entry, and from 228 and 252 on the entries of 0x401000 to
/// 0x40100f and of 0x401020 to 0x40103f.
const FILE: [u8; 276] = [
    127, 69, 76, 70, 2, 1, 1, 0, 0, 0, 0, 0, 0, 0, 0, 0, 3, 0, 62, 0, 1, 0, 0, 0, 0, 0, 0, 0, 0, 0,
    0, 0, 64, 0, 0, 0, 0, 0, 0, 0, 0, 0, 0, 0, 0, 0, 0, 0, 0, 0, 0, 0, 64, 0, 56, 0, 2, 0, 0, 0, 0,
    0, 0, 0, 1, 0, 0, 0, 5, 0, 0, 0, 0, 0, 0, 0, 0, 0, 0, 0, 0, 0, 64, 0, 0, 0, 0, 0, 0, 0, 64, 0,
    0, 0, 0, 0, 20, 1, 0, 0, 0, 0, 0, 0, 20, 1, 0, 0, 0, 0, 0, 0, 0, 16, 0, 0, 0, 0, 0, 0, 80, 229,
    116, 100, 4, 0, 0, 0, 176, 0, 0, 0, 0, 0, 0, 0, 176, 0, 64, 0, 0, 0, 0, 0, 176, 0, 64, 0, 0, 0,
    0, 0, 28, 0, 0, 0, 0, 0, 0, 0, 28, 0, 0, 0, 0, 0, 0, 0, 4, 0, 0, 0, 0, 0, 0, 0, 1, 27, 3, 59,
    24, 0, 0, 0, 2, 0, 0, 0, 80, 15, 0, 0, 52, 0, 0, 0, 112, 15, 0, 0, 76, 0, 0, 0, 20, 0, 0, 0, 0,
    0, 0, 0, 1, 122, 82, 0, 1, 120, 16, 1, 27, 12, 7, 8, 144, 1, 0, 0, 20, 0, 0, 0, 28, 0, 0, 0,
    20, 15, 0, 0, 16, 0, 0, 0, 0, 65, 14, 16, 134, 2, 0, 0, 16, 0, 0, 0, 52, 0, 0, 0, 28, 15, 0, 0,
    32, 0, 0, 0, 0, 68, 14, 32, 0, 0, 0, 0,
];

/// The first address of the entry that covers an address.
fn begin_of(table: &Table<'_>, address: u64) -> Result<Option<u64>, RecordError> {
    match table.find(address) {
        Ok(Some(entry)) => Ok(Some(entry.begin)),
        Ok(None) => Ok(None),
        Err(error) => Err(error),
    }
}

#[test]
fn the_entry_that_covers_an_address_is_found(rt: HostRuntime) {
    let cases = [
        (0, None),
        (0x40_0fff, None),
        (0x40_1000, Some(0x40_1000)),
        (0x40_100f, Some(0x40_1000)),
        (0x40_1010, None),
        (0x40_101f, None),
        (0x40_1020, Some(0x40_1020)),
        (0x40_103f, Some(0x40_1020)),
        (0x40_1040, None),
        (0xffff_ffff_ffff_ffff, None),
    ];
    match Table::of(&FILE) {
        Ok(table) => {
            for (address, begin) in cases {
                let found = begin_of(&table, address);
                assert!(rt; found == Ok(begin), "{address}");
            }
        }
        Err(_) => assert!(rt; false),
    }
}

/// The CFA at an address, where an entry covers it.
fn cfa_at(table: &Table<'_>, address: u64) -> Option<Cfa> {
    let mut room = Room::new();
    match table.find(address) {
        Ok(Some(entry)) => match cfa_of(table.row(&entry, address, &mut room)) {
            Ok(cfa) => cfa,
            Err(_) => None,
        },
        _ => None,
    }
}

fn cfa_of(row: Result<frame_rows::Row, RowError>) -> Result<Option<Cfa>, RowError> {
    match row {
        Ok(row) => Ok(row.cfa),
        Err(error) => Err(error),
    }
}

#[test]
fn rows_are_those_of_the_entry(rt: HostRuntime) {
    let cases = [
        (0x40_1000, 8),
        (0x40_1001, 16),
        (0x40_100f, 16),
        (0x40_1023, 8),
        (0x40_1024, 32),
    ];
    match Table::of(&FILE) {
        Ok(table) => {
            for (address, offset) in cases {
                let cfa = cfa_at(&table, address);
                assert!(rt;
                    cfa == Some(Cfa::Based {
                        register: 7,
                        offset
                    }),
                    "{address}"
                );
            }
        }
        Err(_) => assert!(rt; false),
    }
}

/// The file with other bytes from a place on.
fn changed(at: usize, bytes: &[u8]) -> [u8; 276] {
    let mut file = FILE;
    for (behind, byte) in bytes.iter().enumerate() {
        if at < 256 && behind < 16 {
            file[at + behind] = *byte;
        }
    }
    file
}

/// Why the file has no table with other bytes from a place on.
fn table_error(at: usize, bytes: &[u8]) -> Option<TableError> {
    let file = changed(at, bytes);
    match Table::of(&file) {
        Ok(_) => None,
        Err(error) => Some(error),
    }
}

/// A place, other bytes there, and why there is no table then.
const NO_TABLE: [(usize, &[u8], TableError); 10] = [
    (0, &[0], TableError::NotElf),
    (54, &[55], TableError::BadHeaders),
    (18, &[3], TableError::OtherMachine),
    (120, &[0], TableError::NoHeader),
    (138, &[0x41], TableError::NotInFile),
    (184, &[200], TableError::Cut),
    (176, &[2], TableError::Version(2)),
    (177, &[0x1c], TableError::FrameEncoding(0x1c)),
    (178, &[0x0b], TableError::CountEncoding(0x0b)),
    (179, &[0x1b], TableError::PairEncoding(0x1b)),
];

#[test]
fn a_table_of_another_form_is_refused(rt: HostRuntime) {
    for (at, bytes, wanted) in NO_TABLE {
        let error = table_error(at, bytes);
        assert!(rt; error == Some(wanted), "{at}");
    }
}

/// Why the entry of 0x401000 isn't found with other bytes from a place on.
fn record_error(at: usize, bytes: &[u8]) -> Option<RecordError> {
    let file = changed(at, bytes);
    match Table::of(&file) {
        Ok(table) => match table.find(0x40_1000) {
            Ok(_) => None,
            Err(error) => Some(error),
        },
        Err(_) => None,
    }
}

/// A place, other bytes there, and the record that isn't read then, by its place in the file, and why.
const NO_RECORD: [(usize, &[u8], u64, RecordFlaw); 19] = [
    (194, &[16], 0x10_00e4, RecordFlaw::NotInFile),
    (228, &[0], 228, RecordFlaw::Terminator),
    (228, &[255, 255, 255, 255], 228, RecordFlaw::Wide),
    (228, &[1, 0, 16, 0], 228, RecordFlaw::Long),
    (229, &[2], 228, RecordFlaw::Cut),
    (228, &[11], 228, RecordFlaw::Cut),
    (244, &[12], 228, RecordFlaw::Cut),
    (232, &[0], 228, RecordFlaw::NoEntry),
    (208, &[1], 204, RecordFlaw::NotCommon),
    (204, &[7], 204, RecordFlaw::Cut),
    (212, &[2], 204, RecordFlaw::Version(2)),
    (212, &[4], 204, RecordFlaw::AddressSize(1)),
    (212, &[4, 0, 8, 1], 204, RecordFlaw::SegmentSize(1)),
    (213, &[101, 104], 204, RecordFlaw::Augmentation(101)),
    (214, &[81], 204, RecordFlaw::Augmentation(81)),
    (220, &[0x1c], 204, RecordFlaw::Encoding(0x1c)),
    (
        214,
        &[80, 0, 1, 120, 16, 1, 0x50],
        204,
        RecordFlaw::Encoding(0x50),
    ),
    (219, &[13], 204, RecordFlaw::Cut),
    (
        216,
        &[128, 128, 128, 128, 128, 128, 128, 128, 128],
        204,
        RecordFlaw::LongNumber,
    ),
];

#[test]
fn a_record_that_is_not_read_is_named(rt: HostRuntime) {
    for (at, bytes, place, flaw) in NO_RECORD {
        let error = record_error(at, bytes);
        let wanted = Some(RecordError {
            at: 0x40_0000 + place,
            flaw,
        });
        assert!(rt; error == wanted, "{at}");
    }
}
