//! Dicts that are managed: what stands before an instance, or in it, says where its values or its dict are.
ghost use Rattle.std.specs.Prelude.{◌≡◌, ◌<◌, ◌^◌};
ghost use Rattle.py_builtins.specs.Consulted.{ReadsFields};
ghost use Rattle.py_builtins.specs.ObjectError.{object_fault};
ghost use Rattle.instance_dicts.specs.Managed.{embedded_at, embedded_by, embedded_values_at, held_apart, valid_byte};
ghost use Rattle.instance_dicts.specs.Managed.{
  managed_dict_at,
  one_word,
  one_word_at,
  valid_values,
  values_and_dict_at,
};
ghost use Rattle.instance_dicts.specs.Managed.{values_if};

use crate::forms::{DictForm, InstanceDict, InstanceFields, dict_or_none, values_with};
use process_memory::{ProcessMemory, word_past, word_wide};
use py_builtins::{ObjectError, PY_TPFLAGS_INLINE_VALUES, word_before};

/// How many bytes stand before the values in an instance.
const HEADER: u128 = 8;

/// The managed dict of an instance of a class with these flags. At most 4 reads.
pub(crate) fn managed_dict<P: ProcessMemory>(
    process: &mut P,
    fields: &InstanceFields,
    form: DictForm,
    addr: u64,
    class: u64,
    flags: u64,
) -> Result<InstanceDict, ObjectError>
    ensures { ReadsFields object_fault 4 (P.seen process.old) (P.seen process.new)
        (λ m. managed_dict_at fields.now m form addr class flags) result }
{
    match form {
        DictForm::Pointer => Ok(InstanceDict::None),
        DictForm::ValuesAndDict => values_and_dict(process, fields, addr, class),
        DictForm::OneWord => one_word_before(process, fields, addr, class),
        DictForm::Embedded => embedded(process, fields, addr, class, flags),
    }
}

/// By the two words of 3.11. At most 3 reads.
fn values_and_dict<P: ProcessMemory>(
    process: &mut P,
    fields: &InstanceFields,
    addr: u64,
    class: u64,
) -> Result<InstanceDict, ObjectError>
    ensures { ReadsFields object_fault 3 (P.seen process.old) (P.seen process.new)
        (λ m. values_and_dict_at fields.now m addr class) result }
{
    let values = word_before(process, addr, 32)?;
    let dict = word_before(process, addr, 24)?;
    held_apart(process, fields, class, values, dict)
}

/// What these two words say. At most one read.
fn held_apart<P: ProcessMemory>(
    process: &mut P,
    fields: &InstanceFields,
    class: u64,
    values: u64,
    dict: u64,
) -> Result<InstanceDict, ObjectError>
    ensures { ReadsFields object_fault 1 (P.seen process.old) (P.seen process.new)
        (λ m. held_apart fields.now m class values dict) result }
{
    if values == 0 {
        return Ok(dict_or_none(dict));
    }
    values_with(process, fields, class, values as u128)
}

/// By the word of 3.12. At most 2 reads.
fn one_word_before<P: ProcessMemory>(
    process: &mut P,
    fields: &InstanceFields,
    addr: u64,
    class: u64,
) -> Result<InstanceDict, ObjectError>
    ensures { ReadsFields object_fault 2 (P.seen process.old) (P.seen process.new)
        (λ m. one_word_at fields.now m addr class) result }
{
    let word = word_before(process, addr, 24)?;
    one_word(process, fields, class, word)
}

/// What that word says. At most one read.
fn one_word<P: ProcessMemory>(
    process: &mut P,
    fields: &InstanceFields,
    class: u64,
    word: u64,
) -> Result<InstanceDict, ObjectError>
    ensures { ReadsFields object_fault 1 (P.seen process.old) (P.seen process.new)
        (λ m. one_word fields.now m class word) result }
{
    if word % 2 == 1 {
        return values_with(process, fields, class, word as u128 + 1);
    }
    Ok(dict_or_none(word))
}

/// By the word of 3.13, and else in the instance. At most 4 reads.
fn embedded<P: ProcessMemory>(
    process: &mut P,
    fields: &InstanceFields,
    addr: u64,
    class: u64,
    flags: u64,
) -> Result<InstanceDict, ObjectError>
    ensures { ReadsFields object_fault 4 (P.seen process.old) (P.seen process.new)
        (λ m. embedded_at fields.now m addr class flags) result }
{
    let named = word_before(process, addr, 24)?;
    embedded_by(process, fields, addr, class, flags, named)
}

/// What that word and the flags say. At most 3 reads.
fn embedded_by<P: ProcessMemory>(
    process: &mut P,
    fields: &InstanceFields,
    addr: u64,
    class: u64,
    flags: u64,
    dict: u64,
) -> Result<InstanceDict, ObjectError>
    ensures { ReadsFields object_fault 3 (P.seen process.old) (P.seen process.new)
        (λ m. embedded_by fields.now m addr class flags dict) result }
{
    if dict != 0 {
        return Ok(InstanceDict::Dict(dict));
    }
    if flags & PY_TPFLAGS_INLINE_VALUES != 0 {
        return embedded_values(process, fields, addr, class);
    }
    Ok(InstanceDict::None)
}

/// The values in an instance, where they are valid. At most 3 reads.
fn embedded_values<P: ProcessMemory>(
    process: &mut P,
    fields: &InstanceFields,
    addr: u64,
    class: u64,
) -> Result<InstanceDict, ObjectError>
    ensures { ReadsFields object_fault 3 (P.seen process.old) (P.seen process.new)
        (λ m. embedded_values_at fields.now m addr class) result }
{
    let size = word_past(process, class, fields.basic_size as u64)?;
    let place = addr as u128 + size as u128;
    let header = word_wide(process, place)?;
    valid_values(process, fields, class, place, header)
}

/// The same, by their header, whose byte 3 is 0 where they are not. At most one read.
fn valid_values<P: ProcessMemory>(
    process: &mut P,
    fields: &InstanceFields,
    class: u64,
    place: u128,
    header: u64,
) -> Result<InstanceDict, ObjectError>
    requires { place < 2 ^ 66 }
    ensures { ReadsFields object_fault 1 (P.seen process.old) (P.seen process.new)
        (λ m. valid_values fields.now m class place header) result }
{
    if valid_byte(header) == 0 {
        return Ok(InstanceDict::None);
    }
    values_with(process, fields, class, place + HEADER)
}

/// The byte of a header of values that says whether they are valid.
fn valid_byte(header: u64) -> u64
    ensures { result ≡ valid_byte header }
{
    (header >> 24) % 256
}
