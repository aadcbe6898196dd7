//! The parts of objects: where they stand, and the words in them.
ghost use Rattle.std.specs.Prelude.{◌≡◌, ◌++◌, OnOk};
ghost use Rattle.process_memory.specs.Seen.{Reads};
ghost use Rattle.py_fields.specs.Sound.{IsSound};
ghost use Rattle.py_builtins.specs.ObjectError.{object_fault};
ghost use Rattle.object_reach.specs.Objects.{dict_parts, item_parts, part_words, parts_found, parts_by, slot_parts};
ghost use Rattle.object_reach.specs.Objects.{slot_words};
ghost use Rattle.object_reach.specs.Reading.{parts_got, spot_of, words_told, words_read};

use crate::contents::{Contents, contents_of};
use process_memory::ProcessMemory;
use py_builtins::{
    DictCursor, Items, ObjectError, Sequence, Slot, read_item, read_items, read_type,
};
use py_fields::{Dicts, Layout};
use std::alloc::{AllocFailed, Global};

/// Where the parts of an object stand.
#[derive(Drop)]
pub enum Place {
    /// There are none.
    Nowhere,
    /// The items of a list or a tuple.
    Items(Items),
    /// The slots of a dict.
    Slots(DictCursor),
}

/// The parts of an object.
#[derive(Drop)]
pub struct Parts {
    /// How many there are.
    pub count: u64,
    /// Where they stand.
    pub place: Place,
}

/// A part of an object.
#[derive(Clone, Copy)]
pub enum Part {
    /// No object has it.
    Nothing,
    /// The address of an item.
    Item(u64),
    /// A slot of a dict.
    Slot(Slot),
}

/// The parts of the object at an address, by its type's flags.
///
/// A record that is not in memory is `Unreadable`, in the order object, type, and list, tuple or dict; a negative
/// count is `BadCount`, and a dict whose numbers can't be is `BadDict`. At most 4 reads.
pub fn read_parts<P: ProcessMemory>(
    alloc: Global,
    process: &mut P,
    layout: &Layout,
    addr: u64,
) -> Result<Parts, ObjectError>
    requires sound { IsSound layout.now }
    ensures { Reads object_fault 4 (P.seen process.old) (P.seen process.new) (λ m. parts_found layout.now m addr)
        (parts_got result) }
{
    let class = read_type(alloc, process, layout, addr)?;
    let contents = contents_of(layout.bytes_text, class.flags);
    read_contents(alloc, process, layout, addr, contents)
}

/// The parts of an object of which it is known what it holds. At most 2 reads.
fn read_contents<P: ProcessMemory>(
    alloc: Global,
    process: &mut P,
    layout: &Layout,
    addr: u64,
    contents: Contents,
) -> Result<Parts, ObjectError>
    requires sound { IsSound layout.now }
    ensures { Reads object_fault 2 (P.seen process.old) (P.seen process.new)
        (λ m. parts_by layout.now m addr contents) (parts_got result) }
{
    match contents {
        Contents::Nothing => Ok(no_parts()),
        Contents::Slots => read_dict(process, layout, addr),
        Contents::Items(sequence) => read_sequence(alloc, process, layout, sequence, addr),
    }
}

fn no_parts() -> Parts
    ensures { result ≡ record { count = 0; place = Place.Nowhere } }
{
    Parts {
        count: 0,
        place: Place::Nowhere,
    }
}

fn read_dict<P: ProcessMemory>(
    process: &mut P,
    layout: &Layout,
    addr: u64,
) -> Result<Parts, ObjectError>
    requires sound { IsSound layout.now }
    ensures { Reads object_fault 2 (P.seen process.old) (P.seen process.new)
        (λ m. dict_parts layout.now.dicts layout.now m addr) (parts_got result) }
{
    match layout.dicts {
        Dicts::Absent => Ok(no_parts()),
        Dicts::General | Dicts::Compact => read_slots(process, layout, addr),
    }
}

fn read_slots<P: ProcessMemory>(
    process: &mut P,
    layout: &Layout,
    addr: u64,
) -> Result<Parts, ObjectError>
    requires sound { IsSound layout.now }
    ensures { Reads object_fault 2 (P.seen process.old) (P.seen process.new) (λ m. slot_parts layout.now m addr)
        (parts_got result) }
{
    let cursor = DictCursor::from(process, layout, addr)?;
    Ok(Parts {
        count: cursor.remaining(),
        place: Place::Slots(cursor),
    })
}

fn read_sequence<P: ProcessMemory>(
    alloc: Global,
    process: &mut P,
    layout: &Layout,
    sequence: Sequence,
    addr: u64,
) -> Result<Parts, ObjectError>
    requires sound { IsSound layout.now }
    ensures { Reads object_fault 1 (P.seen process.old) (P.seen process.new)
        (λ m. item_parts layout.now m sequence addr) (parts_got result) }
{
    let items = read_items(alloc, process, layout, sequence, addr)?;
    Ok(Parts {
        count: items.count,
        place: Place::Items(items),
    })
}

/// The part of a number, from 0 on. A part that is not in memory is `Unreadable`. At most 2 reads.
pub fn read_part<P: ProcessMemory>(
    process: &mut P,
    place: &Place,
    number: u64,
) -> Result<Part, ObjectError>
    ensures { Reads object_fault 2 (P.seen process.old) (P.seen process.new)
        (λ m. part_words m (spot_of place.now) number) (words_read result) }
{
    match place {
        Place::Nowhere => Ok(Part::Nothing),
        Place::Items(items) => Ok(Part::Item(read_item(process, items, number)?)),
        Place::Slots(cursor) => Ok(Part::Slot(cursor.slot(process, number)?)),
    }
}

/// Adds the words of a part.
pub fn add_words(words: &mut Vec<u64>, part: Part) -> Result<(), AllocFailed<u64>>
    ensures { OnOk result (words.new.items ≡ words.old.items ++ words_told part) }
{
    match part {
        Part::Item(item) => words.push(item),
        Part::Slot(slot) => add_slot(words, slot),
        Part::Nothing => Ok(()),
    }
}

fn add_slot(words: &mut Vec<u64>, slot: Slot) -> Result<(), AllocFailed<u64>>
    ensures { OnOk result (words.new.items ≡ words.old.items ++ slot_words slot) }
{
    match slot {
        Slot::Empty => Ok(()),
        Slot::Entry(key, value) => {
            words.push(key)?;
            words.push(value)
        }
    }
}
