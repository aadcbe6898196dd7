//! Cursors over the slots of dicts.
ghost use Rattle.std.specs.Prelude.{◌≡◌, ◌+◌, ◌-◌, ◌*◌, ◌<◌, ◌≤◌, ◌^◌, IfOk, IfSome, IsErrOf, IsTrue, MatchOption};
ghost use Rattle.std.specs.Prelude.{length};
ghost use Rattle.process_memory.specs.Memory.{record_at};
ghost use Rattle.process_memory.specs.Seen.{Answers, ReadsRange, read_fault, with_bytes};
ghost use Rattle.py_fields.specs.Sound.{IsSound};
ghost use Rattle.py_builtins.specs.Consulted.{Consults, ReadingFields, ReadsFields};
ghost use Rattle.py_builtins.specs.Dicts.{AreNear, Cursor, dict_slots, entry_width, keys_slots, managed_slots, slot_at};
ghost use Rattle.py_builtins.specs.Dicts.{slot_by, slots_of};
ghost use Rattle.py_builtins.specs.ObjectError.{object_fault};

use crate::ObjectError;
use crate::keys::{Slots, read_dict, read_keys};
use crate::managed::read_managed;
use elf64_core::u64_in;
use process_memory::{ProcessMemory, ReadFault, record_in, word_wide};
use py_fields::Layout;
use std::marker::Model;

/// How many addresses there are.
const ADDRESSES: u128 = 0x1_0000_0000_0000_0000;

/// How many bytes an entry has at most.
const ENTRY_LIMIT: usize = 24;

/// A slot of a dict.
#[derive(Debug, Clone, Copy, Drop, PartialEq, Eq)]
pub enum Slot {
    /// It holds nothing.
    Empty,
    /// The addresses of a key and of its value.
    Entry(u64, u64),
}

/// Slots of a dict that are looked at one after another.
///
/// Contracts see it as where the slots are, and how many of them it has passed.
#[derive(Drop)]
pub struct DictCursor {
    slots: Slots,
    passed: u64,
}

impl Model for DictCursor {
    ghost Value = { Cursor };

    ghost view = { λ c. record { slots = c.slots; passed = c.passed } };

    ghost invariant = { λ c. AreNear c.slots };
}

impl DictCursor {
    /// The slots of the dict at an address, by the rule of CPython's `dict` objects.
    ///
    /// Its record names the record of its keys, which says how many slots are used, and how long the index is
    /// that stands between it and the slots' entries: with the dicts `General` it states how many slots there
    /// are, and the index has 1, 2, 4 or 8 bytes for each, as they need; with `Compact` it states the size as
    /// a power of 2, and a kind, of which 0 alone has entries with a hash.
    ///
    /// A layout without dicts is `BadDict`, and so is a negative number of slots and an index of 2^64 bytes or
    /// more. A record that is not in memory is `Unreadable`. It takes no memory: out of memory comes only
    /// where a read of the process may want it. At most 2 reads.
    pub fn from<P: ProcessMemory>(
        process: &mut P,
        layout: &Layout,
        addr: u64,
    ) -> Result<DictCursor, ObjectError>
        requires sound { IsSound layout.now }
        ensures answer { Consults layout.now object_fault 2 (P.seen process.old) (P.seen process.new)
            (λ m. dict_slots layout.now m addr) (slots_of result) }
        ensures start { IfOk result (λ cursor. cursor.passed ≡ 0) }
        ensures memory { IsErrOf result ObjectError.OutOfMemory → IsTrue (P.seen process.old).may_want_memory }
    {
        let slots = read_dict(process, layout, addr)?;
        Ok(DictCursor { slots, passed: 0 })
    }

    /// The slots of the managed dict of the object at `addr`, of the type at `tp_addr` with these flags.
    ///
    /// The words 32 and 24 bytes before the object name its values and its dict; with `Tagged` the second
    /// alone does: an odd one is one less than the values' address, and an even one is the dict's. Values come
    /// before a dict: their keys are those that the type shares, and where the flags have
    /// `PY_TPFLAGS_INLINE_VALUES` they stand in the object. An object with neither, and each one of a layout
    /// without managed dicts, is `BadDict`.
    ///
    /// What is not in memory is `Unreadable`, in the order words, type, keys, or words, dict, keys. It takes
    /// no memory: out of memory comes only where a read of the process may want it. At most 4 reads.
    pub fn from_managed_dict<P: ProcessMemory>(
        process: &mut P,
        layout: &Layout,
        addr: u64,
        tp_addr: u64,
        flags: u64,
    ) -> Result<DictCursor, ObjectError>
        requires sound { IsSound layout.now }
        ensures answer { Consults layout.now object_fault 4 (P.seen process.old) (P.seen process.new)
            (λ m. managed_slots layout.now m addr tp_addr flags) (slots_of result) }
        ensures start { IfOk result (λ cursor. cursor.passed ≡ 0) }
        ensures memory { IsErrOf result ObjectError.OutOfMemory → IsTrue (P.seen process.old).may_want_memory }
    {
        let slots = read_managed(process, layout, addr, tp_addr, flags)?;
        Ok(DictCursor { slots, passed: 0 })
    }

    /// The slots of the keys at an address, whose values stand apart from `values` on, one behind the other; 0 says
    /// that they stand beside their keys. Objects share the keys of their type, and each has its own values.
    ///
    /// The keys are those of a dict, as `from` reads them, with the same errors; the values are not looked at. It
    /// takes no memory, as `from`. At most one read.
    pub fn from_keys<P: ProcessMemory>(
        process: &mut P,
        layout: &Layout,
        keys: u64,
        values: u64,
    ) -> Result<DictCursor, ObjectError>
        requires sound { IsSound layout.now }
        ensures answer { Consults layout.now object_fault 1 (P.seen process.old) (P.seen process.new)
            (λ m. keys_slots layout.now m keys values) (slots_of result) }
        ensures start { IfOk result (λ cursor. cursor.passed ≡ 0) }
        ensures memory { IsErrOf result ObjectError.OutOfMemory → IsTrue (P.seen process.old).may_want_memory }
    {
        let slots = read_keys(process, layout, keys, values as u128)?;
        Ok(DictCursor { slots, passed: 0 })
    }

    /// The next slot, or none where all have been looked at.
    ///
    /// A slot that is not in memory is `Unreadable`, with the range of its entry, or else of its value where
    /// that stands apart. The cursor has passed it then, as any other, and goes on behind it. At most 2 reads;
    /// it takes no memory, as in `from`.
    pub fn next<P: ProcessMemory>(&mut self, process: &mut P) -> Option<Result<Slot, ObjectError>>
        ensures dict { self.new.slots ≡ self.old.slots }
        ensures passes { MatchOption result
            ((self.new.passed ≡ self.old.passed) × (self.old.slots.count ≤ self.old.passed))
            (λ slot. (self.new.passed ≡ self.old.passed + 1) × (self.old.passed < self.old.slots.count)) }
        ensures slot { ReadingFields (2 * (self.new.passed - self.old.passed)) (P.seen process.old) (P.seen process.new)
            (λ m. IfSome result (Answers object_fault (slot_at m self.old.slots self.old.passed))) }
        ensures memory { IfSome result (λ slot. IsErrOf slot ObjectError.OutOfMemory
            → IsTrue (P.seen process.old).may_want_memory) }
    {
        if self.passed >= self.slots.count {
            return None;
        }
        let slot = read_slot(process, &self.slots, self.passed);
        self.passed += 1;
        Some(slot)
    }

    /// The slot of a number, from 0 on, whether the cursor has passed it or not.
    ///
    /// A slot that is not in memory is `Unreadable`, with the range of its entry, or else of its value where
    /// that stands apart. At most 2 reads; it takes no memory, as in `from`.
    pub fn slot<P: ProcessMemory>(&self, process: &mut P, number: u64) -> Result<Slot, ObjectError>
        ensures answer { ReadsFields object_fault 2 (P.seen process.old) (P.seen process.new)
            (λ m. slot_at m self.now.slots number) result }
        ensures memory { IsErrOf result ObjectError.OutOfMemory → IsTrue (P.seen process.old).may_want_memory }
    {
        read_slot(process, &self.slots, number)
    }

    /// How many slots have not yet been looked at.
    pub fn remaining(&self) -> u64
        ensures { result ≡ self.now.slots.count - self.now.passed }
    {
        self.slots.count.saturating_sub(self.passed)
    }
}

/// The slot of a number. At most 2 reads.
fn read_slot<P: ProcessMemory>(
    process: &mut P,
    slots: &Slots,
    number: u64,
) -> Result<Slot, ObjectError>
    requires { AreNear slots.now }
    ensures answer { ReadsFields object_fault 2 (P.seen process.old) (P.seen process.new)
        (λ m. slot_at m slots.now number) result }
    ensures memory { IsErrOf result ObjectError.OutOfMemory → IsTrue (P.seen process.old).may_want_memory }
{
    let mut entry = [0; ENTRY_LIMIT];
    read_entry(
        process,
        slots,
        number,
        &mut entry[..entry_width(slots.has_hash)],
    )
}

/// How many bytes an entry has.
fn entry_width(has_hash: bool) -> usize
    ensures value { result ≡ entry_width has_hash }
    ensures bounds { (16 ≤ result) × (result ≤ 24) }
{
    if has_hash { ENTRY_LIMIT } else { 16 }
}

/// The same, with the entry read into the buffer.
fn read_entry<P: ProcessMemory>(
    process: &mut P,
    slots: &Slots,
    number: u64,
    entry: &mut [u8],
) -> Result<Slot, ObjectError>
    requires near { AreNear slots.now }
    requires entry { length entry.old ≡ entry_width slots.now.has_hash }
    ensures answer { ReadsFields object_fault 2 (P.seen process.old) (P.seen process.new)
        (λ m. slot_at m slots.now number) result }
    ensures memory { IsErrOf result ObjectError.OutOfMemory → IsTrue (P.seen process.old).may_want_memory }
{
    let width = entry.len();
    let place = slots.entries + width as u128 * number as u128;
    record_in_wide(process, place, entry)?;
    let key = u64_in(entry, width - 16);
    let value = u64_in(entry, width - 8);
    read_value(process, slots.values, number, key, value)
}

/// Reads the record at an address that may be past the last one into a buffer. At most one read.
fn record_in_wide<P: ProcessMemory>(
    process: &mut P,
    addr: u128,
    buf: &mut [u8],
) -> Result<(), ReadFault>
    requires { (0 < length buf.old) × (length buf.old < 2 ^ 16) }
    ensures answer { ReadsRange read_fault addr (length buf.old) (P.seen process.old) (P.seen process.new)
        (λ m. record_at m addr (length buf.old)) (with_bytes buf.new result) }
    ensures memory { IsErrOf result ReadFault.OutOfMemory → IsTrue (P.seen process.old).may_want_memory }
{
    if addr < ADDRESSES {
        return record_in(process, addr as u64, buf);
    }
    Err(ReadFault::Unreadable {
        addr: u64::MAX,
        len: buf.len() as u64,
    })
}

/// The slot with this key and the value beside it. At most one read.
fn read_value<P: ProcessMemory>(
    process: &mut P,
    values: u128,
    number: u64,
    key: u64,
    value: u64,
) -> Result<Slot, ObjectError>
    requires { values < 2 ^ 68 }
    ensures answer { ReadsRange object_fault (values + 8 * number) 8 (P.seen process.old) (P.seen process.new)
        (λ m. slot_by m values number key value) result }
    ensures memory { IsErrOf result ObjectError.OutOfMemory → IsTrue (P.seen process.old).may_want_memory }
{
    if key == 0 {
        return Ok(Slot::Empty);
    }
    if values == 0 {
        return Ok(Slot::Entry(key, value));
    }
    let value = word_wide(process, values + 8 * number as u128)?;
    Ok(Slot::Entry(key, value))
}
