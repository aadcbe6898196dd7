//! The items of lists and tuples.
ghost use Rattle.std.specs.Prelude.{◌≡◌, ◌+◌, ◌≤◌, ◌<◌, ◌^◌, IsErrOf, IsTrue, length};
ghost use Rattle.process_memory.specs.Seen.{Answers, read_fault};
ghost use Rattle.py_fields.specs.Sound.{IsSound};
ghost use Rattle.py_builtins.specs.Consulted.{Consults, ReadsFields};
ghost use Rattle.py_builtins.specs.Items.{count_at, item_at, item_count, items_at, items_by};
ghost use Rattle.py_builtins.specs.ObjectError.{object_fault};

use crate::ObjectError;
use elf64_core::u64_in;
use process_memory::{ProcessMemory, ReadFault, record, word_wide};
use py_fields::Layout;
use std::alloc::Global;

/// How many items there are less than.
const COUNT_LIMIT: u64 = 1 << 63;

/// What items are those of.
#[derive(Clone, Copy)]
pub enum Sequence {
    /// A list: its array stands apart from its record.
    List,
    /// A tuple: its items stand behind its record.
    Tuple,
}

/// The items of a list or a tuple: their addresses stand one behind the other, of 8 bytes each.
#[derive(Clone, Copy)]
pub struct Items {
    /// How many there are.
    pub count: u64,
    /// The address of a list's array, or of the tuple.
    pub base: u64,
    /// How far behind it the address of the first item stands.
    pub offset: u32,
}

/// The size of a record, and the place in it of the 8 bytes that state a count.
#[derive(Clone, Copy)]
struct CountAt {
    size: u32,
    count: u32,
}

/// The items of the list or the tuple at an address, by the rule of CPython's `list` and `tuple` objects.
///
/// Its record says how many there are. A list's record names the array of their addresses, and a tuple's has it
/// behind it. A record that is not in memory is `Unreadable`, and a negative count is `BadCount`. One read.
pub fn read_items<P: ProcessMemory>(
    alloc: Global,
    process: &mut P,
    layout: &Layout,
    sequence: Sequence,
    addr: u64,
) -> Result<Items, ObjectError>
    requires sound { IsSound layout.now }
    ensures { Consults layout.now object_fault 1 (P.seen process.old) (P.seen process.new)
        (λ m. items_at layout.now m sequence addr) result }
{
    let place = count_at(layout, sequence);
    let object = record(alloc, process, addr, place.size as u64)?;
    let count = item_count(u64_in(&object, place.count as usize))?;
    Ok(items_by(layout, sequence, addr, &object, count))
}

/// Where the count of items stands.
fn count_at(layout: &Layout, sequence: Sequence) -> CountAt
    requires sound { IsSound layout.now }
    ensures place { result ≡ count_at layout.now sequence }
    ensures inside { result.count + 8 ≤ result.size }
    ensures short { result.size < 2 ^ 16 }
{
    match sequence {
        Sequence::List => CountAt {
            size: layout.list.size,
            count: layout.list.count,
        },
        Sequence::Tuple => CountAt {
            size: layout.tuple.size,
            count: layout.tuple.count,
        },
    }
}

/// A number of items, unless it is negative.
#[tactic(auto, unfolding(crate::specs::Items::item_count))]
fn item_count(stated: u64) -> Result<u64, ObjectError>
    ensures { Answers object_fault (item_count stated) result }
{
    if stated < COUNT_LIMIT {
        return Ok(stated);
    }
    Err(ObjectError::BadCount {
        count: stated.cast_signed(),
    })
}

/// So many items of the list or the tuple with this record.
fn items_by(layout: &Layout, sequence: Sequence, addr: u64, object: &[u8], count: u64) -> Items
    requires sound { IsSound layout.now }
    requires whole { length object.now ≡ (count_at layout.now sequence).size }
    ensures { result ≡ items_by layout.now sequence addr object.now count }
{
    match sequence {
        Sequence::List => Items {
            count,
            base: u64_in(object, layout.list.items as usize),
            offset: 0,
        },
        Sequence::Tuple => Items {
            count,
            base: addr,
            offset: layout.tuple.at,
        },
    }
}

/// The item of a number, from 0 on. What is not in memory is `Unreadable`. It takes no memory: out of memory comes
/// only where a read of the process may want it. At most one read.
#[tactic(auto, unfolding(crate::specs::Items::item_at))]
pub fn read_item<P: ProcessMemory>(
    process: &mut P,
    items: &Items,
    number: u64,
) -> Result<u64, ReadFault>
    ensures answer { ReadsFields read_fault 1 (P.seen process.old) (P.seen process.new)
        (λ m. item_at m items.now number) result }
    ensures memory { IsErrOf result ReadFault.OutOfMemory → IsTrue (P.seen process.old).may_want_memory }
{
    let place = items.base as u128 + items.offset as u128 + 8 * number as u128;
    word_wide(process, place)
}
