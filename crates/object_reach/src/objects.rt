//! Objects as a search sees them.
ghost use Rattle.std.specs.Prelude.{◌+◌};
ghost use Rattle.process_memory.specs.Seen.{Reading};
ghost use Rattle.py_fields.specs.Sound.{IsSound};
ghost use Rattle.object_reach.specs.Objects.{object_at, object_of};
ghost use Rattle.object_reach.specs.Reading.{IsBroken, ShowsOr, parts_told, slots_cost};

use crate::parts::{Parts, add_words, read_part, read_parts};
use crate::reached::ReachError;
use process_memory::ProcessMemory;
use py_builtins::ObjectError;
use py_fields::Layout;
use std::alloc::Global;

/// An object that was read.
#[derive(Drop)]
pub struct ObjectRead {
    /// How many slots it has in front of the first missing one, or in all.
    pub slots: u64,
    /// The words in its slots, in order; none where it is broken.
    pub words: Vec<u64>,
    /// Its first failure.
    pub broken: Option<ObjectError>,
}

/// The object at an address, which has at most `room` slots.
///
/// It is broken by the first record that is not in memory, negative count, dict whose numbers can't be, or missing
/// slot, and has no words then. `ReachLimit` comes exactly where there are more slots in front of the first missing
/// one than `room`. At most 6 reads, and 2 for each slot.
pub fn read_object<P: ProcessMemory>(
    alloc: Global,
    process: &mut P,
    layout: &Layout,
    addr: u64,
    room: u64,
) -> Result<ObjectRead, ReachError>
    requires sound { IsSound layout.now }
    ensures { Reading (4 + slots_cost room result) (P.seen process.old) (P.seen process.new)
        (λ m. ShowsOr (object_at layout.now m addr) room result) }
{
    match read_parts(alloc, process, layout, addr) {
        Ok(parts) => read_words(alloc, process, &parts, room),
        Err(error) => broken(alloc, error, 0),
    }
}

/// The object that these parts make, of at most `room` slots.
fn read_words<P: ProcessMemory>(
    alloc: Global,
    process: &mut P,
    parts: &Parts,
    room: u64,
) -> Result<ObjectRead, ReachError>
    ensures { Reading (slots_cost room result) (P.seen process.old) (P.seen process.new)
        (λ m. ShowsOr (object_of m (parts_told parts.now)) room result) }
{
    let mut words = Vec::new(alloc);
    for number in 0..parts.count {
        let part = match read_part(process, &parts.place, number) {
            Ok(part) => part,
            Err(error) => return broken(alloc, error, number),
        };
        if number >= room {
            return Err(ReachError::ReachLimit);
        }
        add_words(&mut words, part)?;
    }
    Ok(ObjectRead {
        slots: parts.count,
        words,
        broken: None,
    })
}

/// An object that is broken by an error, unless it is out of memory.
fn broken(alloc: Global, error: ObjectError, slots: u64) -> Result<ObjectRead, ReachError>
    ensures { IsBroken error slots result }
{
    if error == ObjectError::OutOfMemory {
        return Err(ReachError::OutOfMemory);
    }
    Ok(ObjectRead {
        slots,
        words: Vec::new(alloc),
        broken: Some(error),
    })
}
