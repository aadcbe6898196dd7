//! The search.
ghost use Rattle.std.specs.Prelude.{◌≡◌, ◌≢◌, ◌≤◌, ◌+◌, ◌^◌, length, map, List, Result, Err, IfOk, OnOk, IsErrOf};
ghost use Rattle.std.specs.BTreeMap.{keys};
ghost use Rattle.elf64_core.specs.Outcomes.{IsUnless};
ghost use Rattle.process_memory.specs.Memory.{byte_at};
ghost use Rattle.process_memory.specs.Seen.{Reading, items_of};
ghost use Rattle.py_fields.specs.Sound.{IsSound};
ghost use Rattle.object_reach.specs.declared.reached.ReachObject.{ReachObject};
ghost use Rattle.object_reach.specs.declared.reached.ReachError.{ReachError};
ghost use Rattle.object_reach.specs.Front.{AddsToFront, IsApart, Overfills};
ghost use Rattle.object_reach.specs.Objects.{IsNamed, object_at};
ghost use Rattle.object_reach.specs.Reach.{IsRightReach};
ghost use Rattle.object_reach.specs.Reading.{listed_as, reach_cost};

use crate::objects::read_object;
use crate::reached::{ReachError, ReachObject};
use process_memory::ProcessMemory;
use py_builtins::ObjectError;
use py_fields::Layout;
use std::alloc::{AllocFailed, Global};
use std::collections::{BTreeMap, BTreeSet};

/// The word that names no object.
const NULL: u64 = 0;

/// How many objects are listed, at most.
const OBJECT_LIMIT: usize = 1 << 20;

/// How many slots they have in all, at most.
const SLOT_LIMIT: u64 = 1 << 24;

/// The objects that can be reached from roots other than 0: strictly ascending by address, each with why it is broken,
/// if it is.
///
/// An object's children are the items of a list or a tuple, and the keys and values of a dict, but for 0; which of them
/// an object is, its type's flags say, by CPython's rule. An object is reached where a list of addresses begins with a
/// root, ends with it, and each next one is a child of the one before. It is broken by the first record that is not
/// in memory (`Unreadable`, in the order object, type, list or tuple or dict, keys), negative count (`BadCount`), dict
/// whose numbers can't be (`BadDict`) or slot that is not in memory (`Unreadable`), and has no children then.
///
/// `ReachLimit` comes exactly where more than 2^20 objects are reached, or those that are have more than 2^24 slots in
/// all; of a broken object the slots in front of the first missing one count. Both limits are this project's own.
/// `OutOfMemory` may come in place of any other answer. At most 6 reads for each object, and 2 for each slot.
pub fn reach<P: ProcessMemory>(
    alloc: Global,
    process: &mut P,
    layout: &Layout,
    roots: &[u64],
) -> Result<Vec<ReachObject>, ReachError>
    requires sound { IsSound layout.now }
    ensures right { Reading (reach_cost (object_at layout.now (byte_at (P.seen process.old).pieces)) (items_of result))
        (P.seen process.old) (P.seen process.new)
        (λ m. IsRightReach (object_at layout.now m) roots.now (items_of result)) }
    ensures only { (answer : Result (List ReachObject) ReachError)
        → IsRightReach (object_at layout.now (byte_at (P.seen process.old).pieces)) roots.now answer
        → answer ≢ Err ReachError.OutOfMemory
        → IsUnless ReachError.OutOfMemory answer (items_of result) }
{
    search(alloc, process, layout, roots)
}

/// The search: of what waits the least is read, and its children wait then, unless they were seen.
fn search<P: ProcessMemory>(
    alloc: Global,
    process: &mut P,
    layout: &Layout,
    roots: &[u64],
) -> Result<Vec<ReachObject>, ReachError>
    requires sound { IsSound layout.now }
    ensures { Reading (reach_cost (object_at layout.now (byte_at (P.seen process.old).pieces)) (items_of result))
        (P.seen process.old) (P.seen process.new)
        (λ m. IsRightReach (object_at layout.now m) roots.now (items_of result)) }
{
    let mut done = BTreeMap::new(alloc);
    let mut pending = BTreeSet::new(alloc);
    add_all(&done, &mut pending, roots)?;
    let mut room = SLOT_LIMIT;
    'search: while let Some(addr) = pending.pop_first() {
        let found = read_object(alloc, process, layout, addr, room)?;
        room -= found.slots;
        let Ok(_) = done.insert(addr, found.broken) else {
            return Err(ReachError::OutOfMemory);
        };
        add_all(&done, &mut pending, &found.words)?;
    }
    Ok(listed(alloc, done)?)
}

/// The objects of a map, in its order.
fn listed(
    alloc: Global,
    done: BTreeMap<u64, Option<ObjectError>>,
) -> Result<Vec<ReachObject>, AllocFailed<ReachObject>>
    ensures { IfOk result (λ objects. objects.items ≡ map listed_as done.entries) }
{
    let mut objects = Vec::new(alloc);
    for (addr, broken) in done {
        objects.push(ReachObject { addr, broken })?;
    }
    Ok(objects)
}

/// The addresses other than 0 among these words wait, unless they were seen.
fn add_all(
    done: &BTreeMap<u64, Option<ObjectError>>,
    pending: &mut BTreeSet<u64>,
    words: &[u64],
) -> Result<(), ReachError>
    requires apart { IsApart (keys done.now) pending.old.keys }
    requires fits { length (keys done.now) + length pending.old.keys ≤ 2 ^ 20 }
    ensures added { OnOk result (AddsToFront (keys done.now) pending.old.keys (IsNamed words.now) pending.new.keys) }
    ensures limit { IsErrOf result ReachError.ReachLimit
        → Overfills (keys done.now) pending.old.keys (IsNamed words.now) }
{
    for word in words {
        if *word != NULL {
            add(done, pending, *word)?;
        }
    }
    Ok(())
}

/// One more address waits, unless it was seen.
fn add(
    done: &BTreeMap<u64, Option<ObjectError>>,
    pending: &mut BTreeSet<u64>,
    addr: u64,
) -> Result<(), ReachError>
    requires apart { IsApart (keys done.now) pending.old.keys }
    requires fits { length (keys done.now) + length pending.old.keys ≤ 2 ^ 20 }
    ensures added { OnOk result (AddsToFront (keys done.now) pending.old.keys (λ a. a ≡ addr) pending.new.keys) }
    ensures limit { IsErrOf result ReachError.ReachLimit → Overfills (keys done.now) pending.old.keys (λ a. a ≡ addr) }
{
    if done.contains_key(&addr) || pending.contains(&addr) {
        return Ok(());
    }
    if done.len() + pending.len() >= OBJECT_LIMIT {
        return Err(ReachError::ReachLimit);
    }
    match pending.insert(addr) {
        Ok(_) => Ok(()),
        Err(_) => Err(ReachError::OutOfMemory),
    }
}
