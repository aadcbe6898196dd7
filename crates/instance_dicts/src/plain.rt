//! Dicts that a word names, which stands where the class of an instance says.
ghost use Rattle.std.specs.Prelude.{◌≡◌, ◌+◌, ◌≤◌, ◌<◌, ◌^◌};
ghost use Rattle.process_memory.specs.Memory.{address_before};
ghost use Rattle.py_builtins.specs.Consulted.{ReadsFields};
ghost use Rattle.py_builtins.specs.ObjectError.{object_fault};
ghost use Rattle.instance_dicts.specs.Plain.{behind_at, end_of, from_end_at, magnitude, named_dict_at, plain_dict_at};
ghost use Rattle.instance_dicts.specs.Plain.{rounded};

use crate::forms::{InstanceDict, InstanceFields, dict_or_none};
use process_memory::{ProcessMemory, word_past, word_wide};
use py_builtins::ObjectError;

/// How many addresses there are.
const ADDRESSES: u128 = 0x1_0000_0000_0000_0000;

/// Numbers from here on are negative.
const NEGATIVE: u64 = 1 << 63;

/// The dict of an instance by how far behind it the word stands that names it: 0 says that there is none, and a
/// negative
/// distance is one from the instance's end. At most 4 reads.
pub(crate) fn plain_dict<P: ProcessMemory>(
    process: &mut P,
    fields: &InstanceFields,
    addr: u64,
    class: u64,
    distance: u64,
) -> Result<InstanceDict, ObjectError>
    ensures { ReadsFields object_fault 4 (P.seen process.old) (P.seen process.new)
        (λ m. plain_dict_at fields.now m addr class distance) result }
{
    if distance == 0 {
        return Ok(InstanceDict::None);
    }
    if distance < NEGATIVE {
        return named_dict(process, addr as u128 + distance as u128);
    }
    from_end(process, fields, addr, class, u64::MAX - distance + 1)
}

/// The dict that the word at an address names. At most one read.
fn named_dict<P: ProcessMemory>(process: &mut P, place: u128) -> Result<InstanceDict, ObjectError>
    ensures { ReadsFields object_fault 1 (P.seen process.old) (P.seen process.new)
        (λ m. named_dict_at m place) result }
{
    let word = word_wide(process, place)?;
    Ok(dict_or_none(word))
}

/// The dict that the word so far before the end of an instance names. At most 4 reads.
fn from_end<P: ProcessMemory>(
    process: &mut P,
    fields: &InstanceFields,
    addr: u64,
    class: u64,
    back: u64,
) -> Result<InstanceDict, ObjectError>
    ensures { ReadsFields object_fault 4 (P.seen process.old) (P.seen process.new)
        (λ m. from_end_at fields.now m addr class back) result }
{
    let basic = word_past(process, class, fields.basic_size as u64)?;
    let item = word_past(process, class, fields.item_size as u64)?;
    let count = word_past(process, addr, fields.count as u64)?;
    let end = addr as u128 + end_of(basic, item, magnitude(count));
    named_dict(process, place_before(end, back))
}

/// So far before an address; what stands before address 0 is in no memory.
fn place_before(end: u128, back: u64) -> u128
    ensures { result ≡ address_before end back }
{
    if back as u128 <= end {
        end - back as u128
    } else {
        ADDRESSES
    }
}

/// A number of items; a negative one counts as many.
fn magnitude(count: u64) -> u64
    ensures value { result ≡ magnitude count }
    ensures few { result ≤ 2 ^ 63 }
{
    if count < NEGATIVE {
        count
    } else {
        u64::MAX - count + 1
    }
}

/// How many bytes an instance has of so many items: a multiple of 8.
fn end_of(basic: u64, item: u64, count: u64) -> u128
    requires { count ≤ 2 ^ 63 }
    ensures value { result ≡ end_of basic item count }
    ensures near { result < 2 ^ 127 + 2 ^ 65 }
{
    rounded(basic as u128 + item as u128 * count as u128)
}

/// The next multiple of 8 from a number on.
fn rounded(size: u128) -> u128
    requires { size < 2 ^ 127 + 2 ^ 64 }
    ensures value { result ≡ rounded size }
    ensures near { result < size + 8 }
{
    (size + 7) / 8 * 8
}
