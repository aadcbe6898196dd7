//! The forms of an instance's dict.
ghost use Rattle.std.specs.Prelude.{◌≡◌, ◌^◌, ◌≤◌};
ghost use Rattle.process_memory.specs.Seen.{Answers};
ghost use Rattle.py_builtins.specs.Consulted.{ReadsFields};
ghost use Rattle.py_builtins.specs.ObjectError.{object_fault};
ghost use Rattle.instance_dicts.specs.Forms.{as_address, dict_or_none, values_with};

use process_memory::{ProcessMemory, word_past};
use py_builtins::ObjectError;

/// How many addresses there are.
const ADDRESSES: u128 = 0x1_0000_0000_0000_0000;

/// How the instances of a version's classes have their dicts.
#[derive(Debug, Clone, Copy, Drop, PartialEq, Eq)]
pub enum DictForm {
    /// Up to 3.10: a word names it, as far behind the instance as its class says.
    Pointer,
    /// 3.11: where the class says that it is managed, the word 32 bytes before the instance names its values, and that
    /// 24 bytes before it its dict.
    ValuesAndDict,
    /// 3.12: the word 24 bytes before it alone; an odd one is one less than the address of its values.
    OneWord,
    /// 3.13: the word 24 bytes before it names its dict; where it is 0, the values may stand in the instance, behind a
    /// header of 8 bytes. So do the values of a dict that has them apart from its keys.
    Embedded,
}

/// Where the fields stand that a layout does not say, in bytes from the address of a record.
#[derive(Debug, Clone, Copy, Drop, PartialEq, Eq)]
pub struct InstanceFields {
    /// Of a class: how many bytes an instance has without its items, CPython's `tp_basicsize`.
    pub basic_size: u32,
    /// Of a class: how many bytes an item of an instance has, `tp_itemsize`.
    pub item_size: u32,
    /// Of a class: the keys that its instances share, `ht_cached_keys`.
    pub cached_keys: u32,
    /// Of an instance that has items: how many, `ob_size`. A negative number counts as many.
    pub count: u32,
}

/// The dict of an instance.
#[derive(Debug, Clone, Copy, Drop, PartialEq, Eq)]
pub enum InstanceDict {
    /// It has none.
    None,
    /// The address of a dict.
    Dict(u64),
    /// The address of the keys that it shares with others of its class, and that of its first value.
    Values { keys: u64, values: u64 },
}

/// An address that was computed.
#[tactic(auto, unfolding(crate::specs::Forms::as_address))]
pub(crate) fn as_address(number: u128) -> Result<u64, ObjectError>
    ensures { Answers object_fault (as_address number) result }
{
    if number < ADDRESSES {
        return Ok(number as u64);
    }
    Err(ObjectError::Unreadable {
        addr: u64::MAX,
        len: 8,
    })
}

/// The dict that a word names; 0 names none.
pub(crate) fn dict_or_none(word: u64) -> InstanceDict
    ensures { result ≡ dict_or_none word }
{
    if word == 0 {
        InstanceDict::None
    } else {
        InstanceDict::Dict(word)
    }
}

/// Values, with the keys that the instances of a class share. At most one read.
pub(crate) fn values_with<P: ProcessMemory>(
    process: &mut P,
    fields: &InstanceFields,
    class: u64,
    values: u128,
) -> Result<InstanceDict, ObjectError>
    ensures { ReadsFields object_fault 1 (P.seen process.old) (P.seen process.new)
        (λ m. values_with fields.now m class values) result }
{
    let values = as_address(values)?;
    let keys = word_past(process, class, fields.cached_keys as u64)?;
    Ok(InstanceDict::Values { keys, values })
}
