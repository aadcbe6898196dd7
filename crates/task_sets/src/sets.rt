//! The members of sets, and what weak references among them lead to.
ghost use Rattle.std.specs.Prelude.{◌≡◌, ◌<◌, ◌≤◌, ◌+◌, ◌*◌, ◌++◌, ◌^◌, OnOk, IfOk, option_to_list};
ghost use Rattle.process_memory.specs.Seen.{Answers, Reads, items_of};
ghost use Rattle.py_names.specs.NamesError.{names_fault};
ghost use Rattle.task_sets.specs.Gathered.{gathered};
ghost use Rattle.task_sets.specs.Sets.{IsUnread, entries_at, entries_of, led_at, member_of, object_at, referent_at};
ghost use Rattle.task_sets.specs.Sets.{table_at};

use crate::SetPlaces;
use process_memory::{ProcessMemory, ReadFault, word_past, word_wide};
use py_names::NamesError;
use std::alloc::{AllocFailed, Global};

/// How many entries a set may have, and all sets of an interpreter together.
pub(crate) const ENTRY_LIMIT: u64 = 1_048_576;

/// What the members of a set are.
#[derive(Debug, Clone, Copy, PartialEq, Eq)]
pub enum SetKind {
    /// Objects, which stand for themselves.
    Plain,
    /// Weak references, which stand for their objects: that of `None` once the object is gone.
    Weak,
}

/// The entries of a set: where they stand, and how many there are.
#[derive(Clone, Copy)]
pub struct Entries {
    pub table: u64,
    pub count: u64,
}

/// The entries, by their number less 1.
#[tactic(auto, unfolding(crate::specs::Sets::entries_of))]
fn entries_of(mask: u64, table: u64) -> Result<Entries, NamesError>
    ensures answer { Answers names_fault (entries_of mask table) result }
    ensures few { IfOk result (λ entries. entries.count ≤ 2 ^ 20) }
{
    if mask >= ENTRY_LIMIT {
        return Err(NamesError::Entries);
    }
    Ok(Entries {
        table,
        count: mask + 1,
    })
}

/// The entries of the set at an address. At most 2 reads.
fn read_entries<P: ProcessMemory>(
    process: &mut P,
    places: &SetPlaces,
    at: u64,
) -> Result<Entries, NamesError>
    ensures answer { Reads names_fault 2 (P.seen process.old) (P.seen process.new)
        (λ m. entries_at places.now m at) result }
    ensures few { IfOk result (λ entries. entries.count ≤ 2 ^ 20) }
{
    let mask = word_past(process, at, places.mask as u64)?;
    let table = word_past(process, at, places.table as u64)?;
    entries_of(mask, table)
}

/// The entries of a set, where there is one. At most 2 reads.
///
/// `Entries` comes where it has more than 2^20 of them. What is not in memory is `Unreadable`.
pub(crate) fn read_table<P: ProcessMemory>(
    process: &mut P,
    places: &SetPlaces,
    root: Option<u64>,
) -> Result<Entries, NamesError>
    ensures answer { Reads names_fault 2 (P.seen process.old) (P.seen process.new)
        (λ m. table_at places.now m root) result }
    ensures few { IfOk result (λ entries. entries.count ≤ 2 ^ 20) }
{
    match root {
        None => Ok(Entries { table: 0, count: 0 }),
        Some(at) => read_entries(process, places, at),
    }
}

/// The member that an entry has, where it has one.
#[tactic(auto, unfolding(crate::specs::Sets::member_of))]
fn member_of(key: u64, hash: u64) -> Option<u64>
    ensures { result ≡ member_of key hash }
{
    if key == 0 || hash == u64::MAX {
        return None;
    }
    Some(key)
}

/// A weak reference that is not in memory stands for itself; out of memory is handed on.
fn unread(reference: u64, error: ReadFault) -> Result<u64, NamesError>
    ensures { IsUnread reference error result }
{
    match error {
        ReadFault::Unreadable { .. } => Ok(reference),
        ReadFault::OutOfMemory => Err(NamesError::OutOfMemory),
    }
}

/// The object of the weak reference at an address; the reference itself where that is not in memory. At most one read.
fn read_referent<P: ProcessMemory>(
    process: &mut P,
    places: &SetPlaces,
    reference: u64,
) -> Result<u64, NamesError>
    ensures { Reads names_fault 1 (P.seen process.old) (P.seen process.new)
        (λ m. referent_at places.now m reference) result }
{
    match word_past(process, reference, places.referent as u64) {
        Ok(object) => Ok(object),
        Err(error) => unread(reference, error),
    }
}

/// The object that a member of a set stands for, where there is one. At most one read.
fn read_led<P: ProcessMemory>(
    process: &mut P,
    places: &SetPlaces,
    kind: SetKind,
    member: Option<u64>,
) -> Result<Option<u64>, NamesError>
    ensures { Reads names_fault 1 (P.seen process.old) (P.seen process.new)
        (λ m. led_at places.now kind m member) result }
{
    match member {
        None => Ok(None),
        Some(member) => match kind {
            SetKind::Plain => Ok(Some(member)),
            SetKind::Weak => {
                let object = read_referent(process, places, member)?;
                Ok(Some(object))
            }
        },
    }
}

/// The object that the entry of a number stands for, where there is one. At most 3 reads.
fn read_object<P: ProcessMemory>(
    process: &mut P,
    places: &SetPlaces,
    kind: SetKind,
    table: u64,
    number: u64,
) -> Result<Option<u64>, NamesError>
    requires { number < 2 ^ 20 }
    ensures { Reads names_fault 3 (P.seen process.old) (P.seen process.new)
        (λ m. object_at places.now kind m table number) result }
{
    let entry = table as u128 + number as u128 * places.step as u128;
    let key = word_wide(process, entry + places.key as u128)?;
    let hash = word_wide(process, entry + places.hash as u128)?;
    let member = member_of(key, hash);
    read_led(process, places, kind, member)
}

/// Adds an address, where there is one.
pub(crate) fn add_address(list: &mut Vec<u64>, address: Option<u64>) -> Result<(), AllocFailed<u64>>
    ensures { OnOk result (list.new.items ≡ list.old.items ++ option_to_list address) }
{
    match address {
        None => Ok(()),
        Some(address) => list.push(address),
    }
}

/// The objects that so many entries stand for, in their order; a weak reference that is not in memory stands for
/// itself. At most 3 reads for each.
pub(crate) fn objects_in<P: ProcessMemory>(
    alloc: Global,
    process: &mut P,
    places: &SetPlaces,
    kind: SetKind,
    table: u64,
    count: u64,
) -> Result<Vec<u64>, NamesError>
    requires { count ≤ 2 ^ 20 }
    ensures { Reads names_fault (3 * count) (P.seen process.old) (P.seen process.new)
        (λ m. gathered (object_at places.now kind m table) count 0) (items_of result) }
{
    let mut objects = Vec::new(alloc);
    for number in 0..count {
        let object = read_object(process, places, kind, table, number)?;
        add_address(&mut objects, object)?;
    }
    Ok(objects)
}
