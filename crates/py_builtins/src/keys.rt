//! Where the slots of a dict are.
ghost use Rattle.std.specs.Prelude.{◌≡◌, ◌+◌, ◌<◌, ◌≤◌, ◌^◌, Some, IfOk, IfSome, IsErrOf, IsTrue, length};
ghost use Rattle.process_memory.specs.Seen.{Answers};
ghost use Rattle.py_fields.specs.Sound.{IsSound};
ghost use Rattle.py_builtins.specs.Consulted.{Consults};
ghost use Rattle.py_builtins.specs.Dicts.{AreNear, dict_by, dict_slots, index_bytes, index_in, index_of_log2, keys_by};
ghost use Rattle.py_builtins.specs.Dicts.{keys_slots, sized_index, slot_count, slots_in, stated_index};
ghost use Rattle.py_builtins.specs.ObjectError.{object_fault};

use crate::ObjectError;
use elf64_core::u64_in;
use process_memory::{ProcessMemory, record_in};
use py_fields::{DictAt, Dicts, KeysAt, Layout};

/// How many bytes of a record are read at most.
pub const RECORD_LIMIT: usize = 65535;

/// How many bytes an index has less than.
const INDEX_LIMIT: u64 = 1 << 63;

/// Where the slots of a dict are.
#[derive(Clone, Copy)]
pub struct Slots {
    /// How many there are.
    pub count: u64,
    /// The address of the first slot's entry.
    pub entries: u128,
    /// Whether an entry begins with a hash.
    pub has_hash: bool,
    /// The address of the first slot's value, or 0 where values stand beside their keys.
    pub values: u128,
}

/// What stands between the record of keys and their entries, in bytes, and whether those have a hash.
#[derive(Clone, Copy)]
pub struct Index {
    pub bytes: u128,
    pub has_hash: bool,
}

/// The slots of the dict at an address. At most 2 reads.
pub fn read_dict<P: ProcessMemory>(
    process: &mut P,
    layout: &Layout,
    addr: u64,
) -> Result<Slots, ObjectError>
    requires sound { IsSound layout.now }
    ensures answer { Consults layout.now object_fault 2 (P.seen process.old) (P.seen process.new)
        (λ m. dict_slots layout.now m addr) result }
    ensures memory { IsErrOf result ObjectError.OutOfMemory → IsTrue (P.seen process.old).may_want_memory }
    ensures near { IfOk result AreNear }
{
    match &layout.dict {
        Some(dict) => {
            let mut record = [0; RECORD_LIMIT];
            let object = &mut record[..dict.size as usize];
            read_dict_record(process, layout, dict, addr, object)
        }
        None => Err(ObjectError::BadDict),
    }
}

/// The same, with the dict's record read into the buffer.
fn read_dict_record<P: ProcessMemory>(
    process: &mut P,
    layout: &Layout,
    dict: &DictAt,
    addr: u64,
    object: &mut [u8],
) -> Result<Slots, ObjectError>
    requires sound { IsSound layout.now }
    requires dict { layout.now.dict ≡ Some dict.now }
    requires object { length object.old ≡ dict.now.size }
    ensures answer { Consults layout.now object_fault 2 (P.seen process.old) (P.seen process.new)
        (λ m. dict_by layout.now m addr (Some dict.now)) result }
    ensures memory { IsErrOf result ObjectError.OutOfMemory → IsTrue (P.seen process.old).may_want_memory }
    ensures near { IfOk result AreNear }
{
    record_in(process, addr, object)?;
    let keys = u64_in(object, dict.keys as usize);
    let values = u64_in(object, dict.values as usize);
    read_keys(process, layout, keys, values as u128)
}

/// The slots of the keys at an address, whose values stand apart where `values` is not 0. At most one read.
pub fn read_keys<P: ProcessMemory>(
    process: &mut P,
    layout: &Layout,
    addr: u64,
    values: u128,
) -> Result<Slots, ObjectError>
    requires sound { IsSound layout.now }
    requires values { values < 2 ^ 68 }
    ensures answer { Consults layout.now object_fault 1 (P.seen process.old) (P.seen process.new)
        (λ m. keys_slots layout.now m addr values) result }
    ensures memory { IsErrOf result ObjectError.OutOfMemory → IsTrue (P.seen process.old).may_want_memory }
    ensures near { IfOk result AreNear }
{
    match &layout.keys {
        Some(keys) => {
            let mut record = [0; RECORD_LIMIT];
            let object = &mut record[..keys.size as usize];
            read_keys_record(process, layout, keys, addr, values, object)
        }
        None => Err(ObjectError::BadDict),
    }
}

/// The same, with the record of keys read into the buffer.
fn read_keys_record<P: ProcessMemory>(
    process: &mut P,
    layout: &Layout,
    keys: &KeysAt,
    addr: u64,
    values: u128,
    object: &mut [u8],
) -> Result<Slots, ObjectError>
    requires sound { IsSound layout.now }
    requires keys { layout.now.keys ≡ Some keys.now }
    requires values { values < 2 ^ 68 }
    requires object { length object.old ≡ keys.now.size }
    ensures answer { Consults layout.now object_fault 1 (P.seen process.old) (P.seen process.new)
        (λ m. keys_by layout.now.dicts m addr values (Some keys.now)) result }
    ensures memory { IsErrOf result ObjectError.OutOfMemory → IsTrue (P.seen process.old).may_want_memory }
    ensures near { IfOk result AreNear }
{
    record_in(process, addr, object)?;
    slots_in(layout, keys, addr, values, object)
}

/// The slots of the keys with this record.
fn slots_in(
    layout: &Layout,
    keys: &KeysAt,
    addr: u64,
    values: u128,
    object: &[u8],
) -> Result<Slots, ObjectError>
    requires sound { IsSound layout.now }
    requires keys { layout.now.keys ≡ Some keys.now }
    requires values { values < 2 ^ 68 }
    requires object { length object.now ≡ keys.now.size }
    ensures answer { Answers object_fault (slots_in layout.now.dicts keys.now addr values object.now) result }
    ensures memory { IsErrOf result ObjectError.OutOfMemory → ⊥ }
    ensures near { IfOk result AreNear }
{
    let count = slot_count(u64_in(object, keys.used as usize))?;
    let index = index_in(layout, keys, object)?;
    Ok(Slots {
        count,
        entries: addr as u128 + keys.size as u128 + index.bytes,
        has_hash: index.has_hash,
        values,
    })
}

/// A number of slots, unless it is negative.
#[tactic(auto, unfolding(crate::specs::Dicts::slot_count))]
fn slot_count(stated: u64) -> Result<u64, ObjectError>
    ensures answer { Answers object_fault (slot_count stated) result }
    ensures memory { IsErrOf result ObjectError.OutOfMemory → ⊥ }
    ensures few { IfOk result (λ n. n < 2 ^ 63) }
{
    if stated < INDEX_LIMIT {
        Ok(stated)
    } else {
        Err(ObjectError::BadDict)
    }
}

/// The index of keys, and whether their entries have a hash.
fn index_in(layout: &Layout, keys: &KeysAt, object: &[u8]) -> Result<Index, ObjectError>
    requires sound { IsSound layout.now }
    requires keys { layout.now.keys ≡ Some keys.now }
    requires object { length object.now ≡ keys.now.size }
    ensures answer { Answers object_fault (index_in layout.now.dicts keys.now object.now) result }
    ensures memory { IsErrOf result ObjectError.OutOfMemory → ⊥ }
    ensures short { IfOk result (λ index. index.bytes ≤ 2 ^ 66) }
{
    match layout.dicts {
        Dicts::Absent => Err(ObjectError::BadDict),
        Dicts::General => stated_index(keys.slots, object),
        Dicts::Compact => sized_index(keys.log2, keys.kind, object),
    }
}

/// The index of keys that state how many slots there are.
#[tactic(auto, unfolding(crate::specs::Dicts::stated_index))]
fn stated_index(slots: Option<u32>, object: &[u8]) -> Result<Index, ObjectError>
    requires { IfSome slots (λ at. at + 8 ≤ length object.now) }
    ensures answer { Answers object_fault (stated_index slots object.now) result }
    ensures memory { IsErrOf result ObjectError.OutOfMemory → ⊥ }
    ensures short { IfOk result (λ index. index.bytes ≤ 2 ^ 66) }
{
    match slots {
        Some(at) => {
            let slots = slot_count(u64_in(object, at as usize))?;
            Ok(Index {
                bytes: index_bytes(slots),
                has_hash: true,
            })
        }
        None => Err(ObjectError::BadDict),
    }
}

/// How many bytes the index of so many slots takes.
#[tactic(auto, unfolding(crate::specs::Dicts::index_bytes))]
fn index_bytes(slots: u64) -> u128
    requires { slots < 2 ^ 63 }
    ensures value { result ≡ index_bytes slots }
    ensures short { result ≤ 2 ^ 66 }
{
    let bytes = slots as u128;
    match slots {
        0..=0xff => bytes,
        0x100..=0xffff => bytes * 2,
        0x1_0000..=0xffff_ffff => bytes * 4,
        _ => bytes * 8,
    }
}

/// The index of keys that state its size and the kind of their entries.
#[tactic(auto, unfolding(crate::specs::Dicts::sized_index))]
fn sized_index(log2: Option<u32>, kind: Option<u32>, object: &[u8]) -> Result<Index, ObjectError>
    requires log2 { IfSome log2 (λ at. at < length object.now) }
    requires kind { IfSome kind (λ at. at < length object.now) }
    ensures answer { Answers object_fault (sized_index log2 kind object.now) result }
    ensures memory { IsErrOf result ObjectError.OutOfMemory → ⊥ }
    ensures short { IfOk result (λ index. index.bytes ≤ 2 ^ 66) }
{
    match (log2, kind) {
        (Some(log2), Some(kind)) => index_of_log2(object[log2 as usize], object[kind as usize]),
        _ => Err(ObjectError::BadDict),
    }
}

/// The index of this size, a power of 2.
#[tactic(auto, unfolding(crate::specs::Dicts::index_of_log2))]
fn index_of_log2(log2: u8, kind: u8) -> Result<Index, ObjectError>
    ensures answer { Answers object_fault (index_of_log2 log2 kind) result }
    ensures memory { IsErrOf result ObjectError.OutOfMemory → ⊥ }
    ensures short { IfOk result (λ index. index.bytes ≤ 2 ^ 66) }
{
    if log2 < 64 {
        Ok(Index {
            bytes: 1 << log2,
            has_hash: kind == 0,
        })
    } else {
        Err(ObjectError::BadDict)
    }
}
