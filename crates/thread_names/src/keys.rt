//! The threads that the dict of threads has, by their ids.
ghost use Rattle.std.specs.Prelude.{◌≡◌, ◌+◌, ◌≤◌, ◌<◌, ◌^◌, ◌-◌, IfOk, MatchOption, OnOk, false, true};
ghost use Rattle.process_memory.specs.Seen.{Reading, Reads};
ghost use Rattle.py_fields.specs.Sound.{IsSound};
ghost use Rattle.py_names.specs.NamesError.{names_fault};
ghost use Rattle.thread_names.specs.Keys.{KeyAdded, key_at, keys_below, keys_in, keys_of, slot_key};

use process_memory::ProcessMemory;
use py_builtins::{DictCursor, ObjectError, Slot, copy_long};
use py_fields::Layout;
use py_names::NamesError;
use std::alloc::{AllocError, Global};

/// How many slots of the dict of threads are looked at, at most.
const SLOT_LIMIT: u64 = 65536;

/// An entry of the dict of threads.
#[derive(Clone, Copy, Drop)]
pub(crate) struct Keyed {
    /// The thread's id, by its key.
    pub(crate) id: u64,
    /// The address of the thread.
    pub(crate) thread: u64,
}

/// The entries of a dict of threads.
#[derive(Drop)]
pub(crate) struct Keys {
    /// Those whose key is an integer that can be read, in the order of the slots.
    pub(crate) list: Vec<Keyed>,
    /// How many slots have an entry that can't be read, or were not looked at.
    pub(crate) unread: u64,
}

/// The entry that a slot has. At most 2 reads.
#[tactic(auto, unfolding(crate::specs::Keys::slot_key))]
fn slot_key<P: ProcessMemory>(
    process: &mut P,
    layout: &Layout,
    slot: Slot,
) -> Result<Option<Keyed>, NamesError>
    requires sound { IsSound layout.now }
    ensures { Reads names_fault 2 (P.seen process.old) (P.seen process.new)
        (λ m. slot_key layout.now m slot) result }
{
    match slot {
        Slot::Empty => Ok(None),
        Slot::Entry(key, thread) => {
            let (number, _) = copy_long(process, layout, key)?;
            let id = number.cast_unsigned();
            Ok(Some(Keyed { id, thread }))
        }
    }
}

/// The entry that the slot of a number has. At most 4 reads.
#[tactic(auto, unfolding(crate::specs::Keys::key_at))]
fn read_key<P: ProcessMemory>(
    process: &mut P,
    layout: &Layout,
    dict: &DictCursor,
    number: u64,
) -> Result<Option<Keyed>, NamesError>
    requires sound { IsSound layout.now }
    ensures { Reads names_fault 4 (P.seen process.old) (P.seen process.new)
        (λ m. key_at layout.now m dict.now.slots number) result }
{
    let slot = dict.slot(process, number)?;
    slot_key(process, layout, slot)
}

/// Whether an error is out of memory.
pub(crate) fn is_memory(error: &NamesError) -> bool
    ensures { MatchOption (names_fault error.now) (result ≡ true) (λ f. result ≡ false) }
{
    match error {
        NamesError::OutOfMemory | NamesError::Object(ObjectError::OutOfMemory) => true,
        NamesError::NoDicts | NamesError::Entries | NamesError::Object(_) => false,
    }
}

/// Adds an entry, where it could be read and there is one; out of memory is handed on.
fn add_key(keys: &mut Keys, read: Result<Option<Keyed>, NamesError>) -> Result<(), AllocError>
    requires { keys.old.unread < 2 ^ 63 }
    ensures { OnOk result (KeyAdded keys.old keys.new read) }
{
    match read {
        Ok(Some(keyed)) => {
            keys.list.push(keyed)?;
            Ok(())
        }
        Ok(None) => Ok(()),
        Err(error) => {
            if is_memory(&error) {
                return Err(AllocError);
            }
            keys.unread += 1;
            Ok(())
        }
    }
}

/// The entries of so many slots, from the first on. At most 4 reads for each.
fn read_below<P: ProcessMemory>(
    alloc: Global,
    process: &mut P,
    layout: &Layout,
    dict: &DictCursor,
    count: u64,
) -> Result<Keys, AllocError>
    requires sound { IsSound layout.now }
    requires few { count ≤ 65536 }
    ensures answer { Reading 262144 (P.seen process.old) (P.seen process.new)
        (λ m. IfOk result (λ keys. keys_of keys ≡ keys_below layout.now m dict.now.slots count)) }
    ensures few { IfOk result (λ keys. keys.unread ≤ count) }
{
    let mut keys = Keys {
        list: Vec::new(alloc),
        unread: 0,
    };
    for number in 0..count {
        let read = read_key(process, layout, dict, number);
        add_key(&mut keys, read)?;
    }
    Ok(keys)
}

/// The entries of a dict of threads. The one error is out of memory. At most 262144 reads.
#[tactic(auto, unfolding(crate::specs::Keys::keys_in))]
pub(crate) fn read_keys<P: ProcessMemory>(
    alloc: Global,
    process: &mut P,
    layout: &Layout,
    dict: &DictCursor,
) -> Result<Keys, AllocError>
    requires sound { IsSound layout.now }
    requires start { dict.now.passed ≡ 0 }
    ensures { Reading 262144 (P.seen process.old) (P.seen process.new)
        (λ m. IfOk result (λ keys. keys_of keys ≡ keys_in layout.now m dict.now.slots)) }
{
    let count = dict.remaining();
    let looked = count.min(SLOT_LIMIT);
    let keys = read_below(alloc, process, layout, dict, looked)?;
    Ok(Keys {
        list: keys.list,
        unread: keys.unread + (count - looked),
    })
}
