//! The first entry of a dict under a name.
ghost use Rattle.std.specs.Prelude.{◌≡◌, ◌≢◌, ◌*◌};
ghost use Rattle.py_fields.specs.Sound.{IsSound};
ghost use Rattle.py_builtins.specs.Consulted.{Consults, ConsultsBy};
ghost use Rattle.py_names.specs.NamesError.{names_fault};
ghost use Rattle.py_names.specs.Search.{find_from, find_looked, named_value_at, value_named};

use crate::NamesError;
use process_memory::ProcessMemory;
use py_builtins::{DictCursor, ObjectError, Slot, copy_string};
use py_fields::Layout;
use std::alloc::Global;

/// What a search found, and how many slots may be looked at then.
#[derive(Clone, Copy)]
pub struct Looked {
    /// The address of the value under the name, where there is one.
    pub found: Option<u64>,
    /// How many slots may still be looked at.
    pub left: u64,
}

/// The value that a slot has under a name; none where it is empty or its key is another text. At most 2 reads.
#[tactic(auto, unfolding(crate::specs::Search::value_named))]
fn value_named<P: ProcessMemory>(
    alloc: Global,
    process: &mut P,
    layout: &Layout,
    name: &str,
    slot: Slot,
) -> Result<Option<u64>, NamesError>
    requires sound { IsSound layout.now }
    ensures answer { Consults layout.now names_fault 2 (P.seen process.old) (P.seen process.new)
        (λ m. value_named layout.now m name.now slot) result }
    ensures memory { result ≢ Err (NamesError.Object ObjectError.OutOfMemory) }
{
    match slot {
        Slot::Empty => Ok(None),
        Slot::Entry(key, value) => {
            let text = copy_string(alloc, process, layout, key)?;
            if text.as_str() == name {
                return Ok(Some(value));
            }
            Ok(None)
        }
    }
}

/// The same of the slot of a number. At most 4 reads.
fn read_value<P: ProcessMemory>(
    alloc: Global,
    process: &mut P,
    layout: &Layout,
    name: &str,
    dict: &DictCursor,
    number: u64,
) -> Result<Option<u64>, NamesError>
    requires sound { IsSound layout.now }
    ensures answer { Consults layout.now names_fault 4 (P.seen process.old) (P.seen process.new)
        (λ m. named_value_at layout.now m name.now dict.now.slots number) result }
    ensures memory { result ≢ Err (NamesError.Object ObjectError.OutOfMemory) }
{
    let slot = dict.slot(process, number)?;
    value_named(alloc, process, layout, name, slot)
}

/// The value of the first entry of a dict under a name, where so many slots may be looked at.
///
/// The dict is one of which no slot was passed. `Entries` comes where so many slots were looked at, empty ones too,
/// and there is another. `Object` has the first fault of a slot or of a key on the way: a part that is not in memory,
/// or a key that is no text. Else it is out of memory, `OutOfMemory`, which `Object` never holds. At most 4 reads
/// for each slot that is looked at.
pub fn find_in<P: ProcessMemory>(
    alloc: Global,
    process: &mut P,
    layout: &Layout,
    name: &str,
    dict: &DictCursor,
    limit: u64,
) -> Result<Looked, NamesError>
    requires sound { IsSound layout.now }
    requires start { dict.now.passed ≡ 0 }
    ensures answer { ConsultsBy layout.now names_fault
        (λ m. 4 * find_looked layout.now m name.now dict.now.slots dict.now.slots.count 0 limit)
        (P.seen process.old) (P.seen process.new)
        (λ m. find_from layout.now m name.now dict.now.slots dict.now.slots.count 0 limit) result }
    ensures memory { result ≢ Err (NamesError.Object ObjectError.OutOfMemory) }
{
    let mut left = limit;
    for number in 0..dict.remaining() {
        if left == 0 {
            return Err(NamesError::Entries);
        }
        left -= 1;
        match read_value(alloc, process, layout, name, dict, number)? {
            Some(value) => {
                return Ok(Looked {
                    found: Some(value),
                    left,
                });
            }
            None => {}
        }
    }
    Ok(Looked { found: None, left })
}
