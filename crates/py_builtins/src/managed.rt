//! Managed dicts: what stands before an object names its values or its dict.
ghost use Rattle.std.specs.Prelude.{◌≡◌, ◌<◌, ◌≤◌, ◌^◌, Some, IfOk, IsErrOf, IsTrue, length};
ghost use Rattle.process_memory.specs.Memory.{address_before, word_at};
ghost use Rattle.process_memory.specs.Seen.{ReadsRange, read_fault};
ghost use Rattle.py_fields.specs.Sound.{IsSound};
ghost use Rattle.py_builtins.specs.Consulted.{Consults};
ghost use Rattle.py_builtins.specs.Dicts.{AreNear, held_by, held_slots, managed_slots, shared_slots, values_of};
ghost use Rattle.py_builtins.specs.ObjectError.{object_fault};

use crate::ObjectError;
use crate::keys::{RECORD_LIMIT, Slots, read_dict, read_keys};
use elf64_core::u64_in;
use process_memory::{ProcessMemory, ReadFault, record_in, word};
use py_fields::{HeapAt, Layout, Managed};

/// The flag of a type whose objects hold their values in themselves.
pub const PY_TPFLAGS_INLINE_VALUES: u64 = 1 << 2;

/// The flag of a type whose objects have managed dicts.
pub const PY_TPFLAGS_MANAGED_DICT: u64 = 1 << 4;

/// Where the values of an object are, and its dict; 0 where there are none.
#[derive(Clone, Copy)]
struct Held {
    values: u128,
    dict: u64,
}

/// The slots of the managed dict of an object. At most 4 reads.
pub fn read_managed<P: ProcessMemory>(
    process: &mut P,
    layout: &Layout,
    addr: u64,
    tp_addr: u64,
    flags: u64,
) -> Result<Slots, ObjectError>
    requires sound { IsSound layout.now }
    ensures answer { Consults layout.now object_fault 4 (P.seen process.old) (P.seen process.new)
        (λ m. managed_slots layout.now m addr tp_addr flags) result }
    ensures memory { IsErrOf result ObjectError.OutOfMemory → IsTrue (P.seen process.old).may_want_memory }
    ensures near { IfOk result AreNear }
{
    match &layout.heap {
        Some(heap) => {
            let values = word_before(process, addr, 32)?;
            let dict = word_before(process, addr, 24)?;
            let held = held_by(layout.managed, values, dict);
            read_held(process, layout, heap, addr, tp_addr, flags, held)
        }
        None => Err(ObjectError::BadDict),
    }
}

/// The word so far before an address.
///
/// A word that is not in memory is `Unreadable`, and so is one before address 0. It takes no memory: out of memory
/// comes only where a read of the process may want it. At most one read.
pub fn word_before<P: ProcessMemory>(
    process: &mut P,
    addr: u64,
    distance: u64,
) -> Result<u64, ReadFault>
    ensures answer { ReadsRange read_fault (address_before addr distance) 8 (P.seen process.old) (P.seen process.new)
        (λ m. word_at m (address_before addr distance)) result }
    ensures memory { IsErrOf result ReadFault.OutOfMemory → IsTrue (P.seen process.old).may_want_memory }
{
    if distance <= addr {
        return word(process, addr - distance);
    }
    Err(ReadFault::Unreadable {
        addr: u64::MAX,
        len: 8,
    })
}

/// What the two words before an object say.
fn held_by(managed: Managed, values: u64, dict: u64) -> Held
    ensures held { result ≡ held_by managed values dict }
    ensures near { result.values ≤ 2 ^ 64 }
{
    match managed {
        Managed::Absent => Held { values: 0, dict: 0 },
        Managed::Split => Held {
            values: values as u128,
            dict,
        },
        Managed::Tagged if dict % 2 == 1 => Held {
            values: dict as u128 + 1,
            dict: 0,
        },
        Managed::Tagged => Held { values: 0, dict },
    }
}

/// The slots of what an object holds. At most 2 reads.
fn read_held<P: ProcessMemory>(
    process: &mut P,
    layout: &Layout,
    heap: &HeapAt,
    addr: u64,
    tp_addr: u64,
    flags: u64,
    held: Held,
) -> Result<Slots, ObjectError>
    requires sound { IsSound layout.now }
    requires heap { layout.now.heap ≡ Some heap.now }
    requires near { held.values ≤ 2 ^ 64 }
    ensures answer { Consults layout.now object_fault 2 (P.seen process.old) (P.seen process.new)
        (λ m. held_slots layout.now m heap.now addr tp_addr flags held.values held.dict) result }
    ensures memory { IsErrOf result ObjectError.OutOfMemory → IsTrue (P.seen process.old).may_want_memory }
    ensures near { IfOk result AreNear }
{
    if held.values != 0 {
        let values = values_of(heap, addr, flags, held.values);
        let mut record = [0; RECORD_LIMIT];
        let object = &mut record[..heap.size as usize];
        return read_shared(process, layout, heap, tp_addr, values, object);
    }
    if held.dict != 0 {
        return read_dict(process, layout, held.dict);
    }
    Err(ObjectError::BadDict)
}

/// Where the values of an object are.
fn values_of(heap: &HeapAt, addr: u64, flags: u64, values: u128) -> u128
    requires { values ≤ 2 ^ 64 }
    ensures value { result ≡ values_of heap.now addr flags values }
    ensures near { result < 2 ^ 68 }
{
    if flags & PY_TPFLAGS_INLINE_VALUES != 0 {
        addr as u128 + heap.inline as u128
    } else {
        values
    }
}

/// The slots of the keys that the objects of a type share, with the type's record read into the buffer. At
/// most 2 reads.
fn read_shared<P: ProcessMemory>(
    process: &mut P,
    layout: &Layout,
    heap: &HeapAt,
    tp_addr: u64,
    values: u128,
    object: &mut [u8],
) -> Result<Slots, ObjectError>
    requires sound { IsSound layout.now }
    requires heap { layout.now.heap ≡ Some heap.now }
    requires values { values < 2 ^ 68 }
    requires object { length object.old ≡ heap.now.size }
    ensures answer { Consults layout.now object_fault 2 (P.seen process.old) (P.seen process.new)
        (λ m. shared_slots layout.now m heap.now tp_addr values) result }
    ensures memory { IsErrOf result ObjectError.OutOfMemory → IsTrue (P.seen process.old).may_want_memory }
    ensures near { IfOk result AreNear }
{
    record_in(process, tp_addr, object)?;
    let keys = u64_in(object, heap.cached_keys as usize);
    read_keys(process, layout, keys, values)
}
