//! The entries of dicts, one after another.
ghost use Rattle.std.specs.Prelude.{◌≡◌, ◌-◌, IfOk, IfErr, IsErrOf, IsTrue};
ghost use Rattle.std.specs.Iterator.{at_most};
ghost use Rattle.process_memory.specs.Memory.{byte_at};
ghost use Rattle.process_memory.specs.Seen.{Reads, Answers};
ghost use Rattle.py_fields.specs.Sound.{IsSound};
ghost use Rattle.py_builtins.specs.Dicts.{dict_slots, managed_slots};
ghost use Rattle.py_builtins.specs.Entries.{GivesEntry, StartsAt};
ghost use Rattle.py_builtins.specs.ObjectError.{object_fault};

use crate::{DictCursor, ObjectError, Slot};
use process_memory::ProcessMemory;
use py_fields::Layout;

/// The entries of a dict, in the order of their slots, which passes over empty slots.
///
/// Contracts see it as a cursor and the process.
#[derive(Drop)]
pub struct DictIterator<'a, P> {
    process: &'a mut P,
    cursor: DictCursor,
}

impl<'a, P: ProcessMemory> DictIterator<'a, P> {
    /// The entries of the dict at an address, as `DictCursor::from` finds its slots. At most 2 reads.
    pub fn from(
        process: &'a mut P,
        layout: &'a Layout,
        addr: u64,
    ) -> Result<DictIterator<'a, P>, ObjectError>
        requires sound { IsSound layout.now }
        ensures start { IfOk result (λ it. StartsAt 2 (P.seen process.old) (P.seen it.process.now)
            (λ m. dict_slots layout.now m addr) it.cursor) }
        ensures same_reference { IfOk result (λ it. it.process.ghost_name ≡ process.entry.ghost_name) }
        ensures memory { IsErrOf result ObjectError.OutOfMemory → IsTrue (P.seen process.old).may_want_memory }
        ensures fault { IfErr result (λ error.
            Answers object_fault (dict_slots layout.now (byte_at (P.seen process.old).pieces) addr) (Err error)) }
    {
        let cursor = DictCursor::from(process, layout, addr)?;
        Ok(DictIterator { process, cursor })
    }

    /// The entries of the managed dict of an object, as `DictCursor::from_managed_dict` finds its slots. At
    /// most 4 reads.
    pub fn from_managed_dict(
        process: &'a mut P,
        layout: &'a Layout,
        addr: u64,
        tp_addr: u64,
        flags: u64,
    ) -> Result<DictIterator<'a, P>, ObjectError>
        requires sound { IsSound layout.now }
        ensures start { IfOk result (λ it. StartsAt 4 (P.seen process.old) (P.seen it.process.now)
            (λ m. managed_slots layout.now m addr tp_addr flags) it.cursor) }
        ensures same_reference { IfOk result (λ it. it.process.ghost_name ≡ process.entry.ghost_name) }
        ensures memory { IsErrOf result ObjectError.OutOfMemory → IsTrue (P.seen process.old).may_want_memory }
        ensures fault { IfErr result (λ error.
            Answers object_fault (managed_slots layout.now (byte_at (P.seen process.old).pieces) addr tp_addr flags)
            (Err error)) }
    {
        let cursor = DictCursor::from_managed_dict(process, layout, addr, tp_addr, flags)?;
        Ok(DictIterator { process, cursor })
    }

    /// How many slots have not yet been looked at.
    pub fn remaining(&self) -> u64
        ensures { result ≡ self.now.cursor.slots.count - self.now.cursor.passed }
    {
        self.cursor.remaining()
    }
}

impl<'a, P: ProcessMemory> Iterator for DictIterator<'a, P> {
    type Item = Result<(u64, u64), ObjectError>;

    ghost next_gives = { λ old entry new. GivesEntry P.seen old.cursor old.process.now entry new.cursor
        new.process.now };

    ghost remaining = { λ it. at_most (it.cursor.slots.count - it.cursor.passed) };

    /// The next entry, or none where no slot that is left has one and none is missing.
    ///
    /// A slot that is not in memory is `Unreadable`, and the next call goes on behind it. At most 2 reads for
    /// each slot that is looked at.
    fn next(&mut self) -> Option<Result<(u64, u64), ObjectError>> {
        'slots: loop {
            match self.cursor.next(self.process) {
                None => return None,
                Some(slot) => match slot {
                    Ok(found) => match found {
                        Slot::Empty => {}
                        Slot::Entry(key, value) => return Some(Ok((key, value))),
                    },
                    Err(error) => return Some(Err(error)),
                },
            }
        }
    }
}
