//! The records of two releases whose collector moved, by a file.
use py_records::{RecordTable, RecordTables, Records, Version, is_sound};
use std::alloc::Global;
use std::test::Fail;

/// Tables of 3.13.0 and 3.13.5, and one of both.
const FILE: &str = "
[[records]]
major = 3
minor = 13
first_patch = 0
last_patch = 0
collector = {generations=7424, permanent=7504, collecting=7600}
lock = {size=40, semaphore=16, locked=32}

[[records]]
major = 3
minor = 13
first_patch = 5
last_patch = 5
collector = {generations=7420, permanent=7500, collecting=7596}

[[records]]
major = 3
minor = 13
first_patch = 0
last_patch = 5
set = {size=200, used=24, mask=32, table=40, small_table=72}
";

/// The records of 3.13 with a patch.
fn records_of(alloc: Global, patch: u64) -> Result<Records, Fail> {
    let tables = RecordTables::from_toml(alloc, FILE.as_bytes())?;
    let version = Version::of_numbers(alloc, 3, 13, patch)?;
    Ok(tables.records_of(&version))
}

/// Where the generations begin, where that is described.
fn generations(records: &Records) -> Option<u32> {
    match records.heap.collector {
        Some(collector) => Some(collector.generations),
        None => None,
    }
}

#[test]
fn a_release_has_its_own_numbers(rt: HostRuntime) -> Result<(), Fail> {
    let records = records_of(rt.alloc(), 0)?;
    assert!(rt; generations(&records) == Some(7424));
    assert!(rt; records.locks.lock.is_some());
    assert!(rt; is_sound(&records));
    Ok(())
}

#[test]
fn another_release_has_others(rt: HostRuntime) -> Result<(), Fail> {
    let records = records_of(rt.alloc(), 5)?;
    assert!(rt; generations(&records) == Some(7420));
    assert!(rt; records.locks.lock.is_none());
    assert!(rt; records.containers.set.is_some());
    Ok(())
}

#[test]
fn a_release_between_has_what_both_have(rt: HostRuntime) -> Result<(), Fail> {
    let records = records_of(rt.alloc(), 3)?;
    assert!(rt; generations(&records).is_none());
    assert!(rt; records.containers.set.is_some());
    Ok(())
}

#[test]
fn a_list_is_taken(rt: HostRuntime) -> Result<(), Fail> {
    let records = records_of(rt.alloc(), 0)?;
    let table = RecordTable {
        major: 3,
        minor: 13,
        first_patch: 0,
        last_patch: 2,
        records,
    };
    let version = Version::of_numbers(rt.alloc(), 3, 13, 2)?;
    assert!(rt; table.covers(&version));
    let tables = RecordTables::of(rt.alloc(), vec![in rt.alloc(); table]?)?;
    assert!(rt; tables.records_of(&version).containers.set.is_some());
    Ok(())
}
