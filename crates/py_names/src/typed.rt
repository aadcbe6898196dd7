//! The dict that an object's type says the object has.
ghost use Rattle.std.specs.Prelude.{◌≡◌, ◌≢◌, IfOk};
ghost use Rattle.process_memory.specs.Memory.{word_at};
ghost use Rattle.process_memory.specs.Seen.{ReadsRange, read_fault};
ghost use Rattle.py_fields.specs.Sound.{IsSound};
ghost use Rattle.py_builtins.specs.Consulted.{Consults};
ghost use Rattle.py_builtins.specs.Dicts.{slots_of};
ghost use Rattle.py_names.specs.NamesError.{names_fault};
ghost use Rattle.py_names.specs.Typed.{beside, typed_slots};

use crate::NamesError;
use process_memory::{ProcessMemory, ReadFault, word, word_past};
use py_builtins::{DictCursor, ObjectError, ObjectType, PY_TPFLAGS_MANAGED_DICT};
use py_fields::Layout;

/// The word so far behind an address; a negative distance is a number from 2^63 on.
///
/// A word that is not in memory is `Unreadable`, and so is one before address 0 or past the last one. At most one
/// read.
pub fn word_beside<P: ProcessMemory>(
    process: &mut P,
    addr: u64,
    distance: u64,
) -> Result<u64, ReadFault>
    ensures { ReadsRange read_fault (beside addr distance) 8 (P.seen process.old) (P.seen process.new)
        (λ m. word_at m (beside addr distance)) result }
{
    if distance < 1 << 63 {
        return word_past(process, addr, distance);
    }
    let back = u64::MAX - distance + 1;
    if back <= addr {
        return word(process, addr - back);
    }
    Err(ReadFault::Unreadable {
        addr: u64::MAX,
        len: 8,
    })
}

/// The dict of the object of a type at an address: its managed one, where the type's flags say so, and else the one
/// that the word names which stands where the type says. At most 4 reads.
pub(crate) fn read_typed_dict<P: ProcessMemory>(
    process: &mut P,
    layout: &Layout,
    addr: u64,
    class: ObjectType,
) -> Result<DictCursor, NamesError>
    requires sound { IsSound layout.now }
    ensures answer { Consults layout.now names_fault 4 (P.seen process.old) (P.seen process.new)
        (λ m. typed_slots layout.now m addr class) (slots_of result) }
    ensures start { IfOk result (λ cursor. cursor.passed ≡ 0) }
    ensures memory { result ≢ Err (NamesError.Object ObjectError.OutOfMemory) }
{
    if class.flags & PY_TPFLAGS_MANAGED_DICT != 0 {
        let cursor = DictCursor::from_managed_dict(process, layout, addr, class.at, class.flags)?;
        return Ok(cursor);
    }
    let dict = word_beside(process, addr, class.dict_offset)?;
    let plain = DictCursor::from(process, layout, dict)?;
    Ok(plain)
}
