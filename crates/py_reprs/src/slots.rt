//! The first entries of a dict, and the first members of a set.
ghost use Rattle.std.specs.Prelude.{◌≡◌, ◌<◌, ◌≤◌, ◌+◌, ◌*◌, ◌^◌, ◌++◌, IfOk, OnOk, length, map};
ghost use Rattle.process_memory.specs.Seen.{Reading};
ghost use Rattle.py_builtins.specs.ObjectError.{object_fault};
ghost use Rattle.py_reprs.specs.declared.places.Place.TheVariants.{Gap};
ghost use Rattle.py_reprs.specs.Slots.{LostBy, entry_at, entry_of, first_held, looked_at, member_at, member_of, one_of};
ghost use Rattle.py_reprs.specs.Slots.{with_slot};

use crate::error::ReprError;
use crate::limits::Limits;
use crate::places::Place;
use elf64_core::u64_in;
use process_memory::{ProcessMemory, ReadFault, record_wide};
use py_builtins::{DictCursor, ObjectError, Slot};
use std::alloc::{AllocError, Global};

/// Where the key and the value of an entry stand.
#[derive(Debug, Clone, Copy, Drop, PartialEq, Eq)]
pub(crate) struct EntryPlace {
    pub key: Place,
    pub value: Place,
}

/// Adds what a slot has, if anything.
fn add_one<T: Drop>(found: &mut Vec<T>, slot: Option<T>) -> Result<(), ReprError>
    ensures { OnOk result (found.new.items ≡ found.old.items ++ one_of slot) }
{
    match slot {
        None => Ok(()),
        Some(one) => {
            found.push(one)?;
            Ok(())
        }
    }
}

/// How many of so many slots are looked at.
pub(crate) fn looked_at(limits: &Limits, count: u128) -> u64
    ensures { result ≡ looked_at limits.now count }
{
    let most = 4 * limits.items as u64;
    if count < most as u128 {
        count as u64
    } else {
        most
    }
}

/// An entry that could not be read; out of memory is handed on.
fn lost_entry(error: ObjectError) -> Result<Option<EntryPlace>, ReprError>
    ensures { LostBy (object_fault error) result }
{
    match error {
        ObjectError::OutOfMemory => Err(ReprError::OutOfMemory),
        ObjectError::Unreadable { addr, len } => Ok(Some(gap(addr, len))),
        ObjectError::NoText => Ok(Some(gap(0, 0))),
        ObjectError::TooLong { .. } => Ok(Some(gap(0, 0))),
        ObjectError::BadDict => Ok(Some(gap(0, 0))),
        ObjectError::BadType => Ok(Some(gap(0, 0))),
        ObjectError::Visits => Ok(Some(gap(0, 0))),
        ObjectError::Depth => Ok(Some(gap(0, 0))),
        ObjectError::BadCount { .. } => Ok(Some(gap(0, 0))),
        ObjectError::BadBool { .. } => Ok(Some(gap(0, 0))),
    }
}

/// An entry of which the bytes that name its key and its value are not in memory.
fn gap(addr: u64, len: u64) -> EntryPlace
    ensures { result ≡ record { key = Gap addr len; value = Gap addr len } }
{
    EntryPlace {
        key: Place::Gap { addr, len },
        value: Place::Gap { addr, len },
    }
}

/// The entry of this key and this value, unless the slot has no value.
fn entry_of(key: u64, value: u64) -> Option<EntryPlace>
    ensures { result ≡ entry_of key value }
{
    if value == 0 {
        return None;
    }
    Some(EntryPlace {
        key: Place::At(key),
        value: Place::At(value),
    })
}

/// The entry in the slot of a number. At most 2 reads.
#[tactic(auto, unfolding(crate::specs::Slots::entry_at))]
fn read_entry<P: ProcessMemory>(
    process: &mut P,
    cursor: &DictCursor,
    number: u64,
) -> Result<Option<EntryPlace>, ReprError>
    ensures { Reading 2 (P.seen process.old) (P.seen process.new)
        (λ m. IfOk result (λ entry. entry ≡ entry_at m cursor.now.slots number)) }
{
    match cursor.slot(process, number) {
        Ok(Slot::Empty) => Ok(None),
        Ok(Slot::Entry(key, value)) => Ok(entry_of(key, value)),
        Err(error) => lost_entry(error),
    }
}

/// The same, where fewer entries are known than are wanted. At most 2 reads.
fn pick_entry<P: ProcessMemory>(
    process: &mut P,
    cursor: &DictCursor,
    number: u64,
    most: u32,
    found: &mut Vec<EntryPlace>,
) -> Result<(), ReprError>
    ensures { Reading 2 (P.seen process.old) (P.seen process.new) (λ m. OnOk result
        (found.new.items ≡ with_slot most found.old.items (entry_at m cursor.now.slots number))) }
{
    if found.len() < most as usize {
        let slot = read_entry(process, cursor, number)?;
        return add_one(found, slot);
    }
    Ok(())
}

/// The first entries of so many slots. At most 2 reads for each slot.
pub(crate) fn read_entries<P: ProcessMemory>(
    alloc: Global,
    process: &mut P,
    cursor: &DictCursor,
    most: u32,
    looked: u64,
) -> Result<Vec<EntryPlace>, ReprError>
    ensures { Reading (2 * looked) (P.seen process.old) (P.seen process.new)
        (λ m. IfOk result (λ found. found.items ≡ first_held (entry_at m cursor.now.slots) most looked)) }
{
    let mut found = Vec::new(alloc);
    for number in 0..looked {
        pick_entry(process, cursor, number, most, &mut found)?;
    }
    Ok(found)
}

/// Where the keys of entries stand.
pub(crate) fn keys_of(alloc: Global, entries: &[EntryPlace]) -> Result<Vec<Place>, AllocError>
    ensures { IfOk result (λ keys. keys.items ≡ map (λ e. e.key) entries.now) }
{
    entries.iter().map(|entry| entry.key).collect(alloc)
}

/// Where their values stand.
pub(crate) fn values_of(alloc: Global, entries: &[EntryPlace]) -> Result<Vec<Place>, AllocError>
    ensures { IfOk result (λ values. values.items ≡ map (λ e. e.value) entries.now) }
{
    entries.iter().map(|entry| entry.value).collect(alloc)
}

/// The member of this key, unless the slot has none or its member was taken away.
fn member_of(key: u64, hash: u64) -> Option<Place>
    ensures { result ≡ member_of key hash }
{
    if key == 0 {
        return None;
    }
    if hash == u64::MAX {
        return None;
    }
    Some(Place::At(key))
}

/// The member in the slot of a number of the table at an address. At most one read.
#[tactic(auto, unfolding(crate::specs::Slots::member_at))]
fn read_member<P: ProcessMemory>(
    alloc: Global,
    process: &mut P,
    table: u64,
    number: u64,
) -> Result<Option<Place>, ReprError>
    ensures { Reading 1 (P.seen process.old) (P.seen process.new)
        (λ m. IfOk result (λ member. member ≡ member_at m table number)) }
{
    match record_wide(alloc, process, table as u128 + 16 * number as u128, 16) {
        Ok(slot) => Ok(member_of(u64_in(&slot, 0), u64_in(&slot, 8))),
        Err(ReadFault::Unreadable { addr, len }) => Ok(Some(Place::Gap { addr, len })),
        Err(ReadFault::OutOfMemory) => Err(ReprError::OutOfMemory),
    }
}

/// The same, where fewer members are known than are wanted. At most one read.
fn pick_member<P: ProcessMemory>(
    alloc: Global,
    process: &mut P,
    table: u64,
    number: u64,
    most: u32,
    found: &mut Vec<Place>,
) -> Result<(), ReprError>
    ensures { Reading 1 (P.seen process.old) (P.seen process.new) (λ m. OnOk result
        (found.new.items ≡ with_slot most found.old.items (member_at m table number))) }
{
    if found.len() < most as usize {
        let slot = read_member(alloc, process, table, number)?;
        return add_one(found, slot);
    }
    Ok(())
}

/// The first members of so many slots of the table at an address. At most one read for each slot.
pub(crate) fn read_members<P: ProcessMemory>(
    alloc: Global,
    process: &mut P,
    table: u64,
    most: u32,
    looked: u64,
) -> Result<Vec<Place>, ReprError>
    ensures { Reading looked (P.seen process.old) (P.seen process.new)
        (λ m. IfOk result (λ found. found.items ≡ first_held (member_at m table) most looked)) }
{
    let mut found = Vec::new(alloc);
    for number in 0..looked {
        pick_member(alloc, process, table, number, most, &mut found)?;
    }
    Ok(found)
}
