//! How many bytes an object has in blocks of their own.
ghost use Rattle.std.specs.Prelude.{◌≡◌, ◌+◌, ◌*◌, ◌/◌, ◌<◌, ◌≤◌, IfOk, Some};
ghost use Rattle.process_memory.specs.Seen.{Reading};
ghost use Rattle.py_census.specs.Blocks.{block_at, dict_at, entry_size, index_width, is_dict, is_list, keys_at};
ghost use Rattle.py_census.specs.Blocks.{keys_bytes, more_by, own_bytes, powered, powers_bytes, room_at, room_of};
ghost use Rattle.py_census.specs.Blocks.{bytes_if, entries_bytes, is_small, is_type, set_at, shared_keys};
ghost use Rattle.py_census.specs.Blocks.{slots_bytes, table_at, table_by, type_at};
ghost use Rattle.py_census.specs.Sizes.{fits};

use crate::sizes::{ClassSize, read_word};
use crate::{KeysForm, SizePlaces};
use process_memory::ProcessMemory;
use std::alloc::AllocError;

/// Its objects are lists: CPython's `Py_TPFLAGS_LIST_SUBCLASS`.
const PY_TPFLAGS_LIST_SUBCLASS: u64 = 1 << 25;

/// Its objects are dicts: CPython's `Py_TPFLAGS_DICT_SUBCLASS`.
const PY_TPFLAGS_DICT_SUBCLASS: u64 = 1 << 29;

/// Its objects are types: CPython's `Py_TPFLAGS_TYPE_SUBCLASS`.
const PY_TPFLAGS_TYPE_SUBCLASS: u64 = 1 << 31;

/// Whether the objects of a class of these flags are lists.
fn is_list(flags: u64) -> bool
    ensures { result ≡ is_list flags }
{
    flags / PY_TPFLAGS_LIST_SUBCLASS % 2 == 1
}

/// Whether they are dicts.
fn is_dict(flags: u64) -> bool
    ensures { result ≡ is_dict flags }
{
    flags / PY_TPFLAGS_DICT_SUBCLASS % 2 == 1
}

/// Whether they are types.
fn is_type(flags: u64) -> bool
    ensures { result ≡ is_type flags }
{
    flags / PY_TPFLAGS_TYPE_SUBCLASS % 2 == 1
}

/// How many bytes so many items of a list have.
fn room_of(items: Option<u64>) -> Option<u64>
    ensures { result ≡ room_of items }
{
    let items = items?;
    items.checked_mul(8)
}

/// How many bytes the block of a list's items has. At most one read.
fn read_room<P: ProcessMemory>(
    process: &mut P,
    places: &SizePlaces,
    object: u64,
) -> Result<Option<u64>, AllocError>
    ensures { Reading 1 (P.seen process.old) (P.seen process.new)
        (λ m. IfOk result (λ room. room ≡ room_at places.now m object)) }
{
    let items = read_word(process, object, places.allocated)?;
    Ok(room_of(items))
}

/// How many bytes the index of so many slots has for each of them.
fn index_width(slots: u64) -> u64
    ensures is { result ≡ index_width slots }
    ensures few { result ≤ 8 }
{
    if slots < 0x100 {
        1
    } else if slots < 0x1_0000 {
        2
    } else if slots < 0x1_0000_0000 {
        4
    } else {
        8
    }
}

/// How many bytes entries of a kind have for two of three slots; none where 64 bits have no room for it.
fn entries_of(slots: u64, kind: u64) -> Option<u64>
    ensures { result ≡ fits (slots * 2 / 3 * entry_size kind) }
{
    let twice = slots.checked_mul(2)?;
    if kind == 0 {
        return (twice / 3).checked_mul(24);
    }
    (twice / 3).checked_mul(16)
}

/// A head, an index and entries; none where 64 bits have no room for them.
fn keys_block(head: u64, index: u64, entries: u64) -> Option<u64>
    requires { head ≤ 40 }
    ensures { result ≡ fits (head + index + entries) }
{
    let block = index.checked_add(entries)?;
    block.checked_add(head)
}

/// How many bytes the block of keys with so many slots has.
fn slots_bytes(slots: u64) -> Option<u64>
    ensures { result ≡ slots_bytes slots }
{
    let index = slots.checked_mul(index_width(slots))?;
    let entries = entries_of(slots, 0)?;
    keys_block(40, index, entries)
}

/// How many bytes the block of keys has whose slots and index are these powers of 2.
fn powered(slots: u64, index: u64, kind: u64) -> Option<u64>
    requires slots { slots < 64 }
    requires index { index < 64 }
    ensures { result ≡ powered slots index kind }
{
    let entries = entries_of(1 << slots, kind)?;
    keys_block(32, 1 << index, entries)
}

/// How many bytes the block of keys has that has these powers.
fn powers_bytes(word: u64) -> Option<u64>
    ensures { result ≡ powers_bytes word }
{
    let slots = word % 256;
    let index = word / 256 % 256;
    if slots < 64 && index < 64 {
        return powered(slots, index, word / 65536 % 256);
    }
    None
}

/// How many bytes the block of keys has, by what they say.
fn keys_bytes(form: KeysForm, word: u64) -> Option<u64>
    ensures { result ≡ keys_bytes form word }
{
    match form {
        KeysForm::Slots => slots_bytes(word),
        KeysForm::Powers => powers_bytes(word),
    }
}

/// The same, where one object alone has them; else nothing.
fn own_bytes(form: KeysForm, owners: Option<u64>, word: Option<u64>) -> Option<u64>
    ensures { result ≡ own_bytes form owners word }
{
    let owners = owners?;
    let word = word?;
    if owners == 1 {
        return keys_bytes(form, word);
    }
    Some(0)
}

/// How many bytes the block of the keys at an address has, where one object alone has them. At most 2 reads.
fn read_keys<P: ProcessMemory>(
    process: &mut P,
    places: &SizePlaces,
    keys: u64,
) -> Result<Option<u64>, AllocError>
    ensures { Reading 2 (P.seen process.old) (P.seen process.new)
        (λ m. IfOk result (λ bytes. bytes ≡ keys_at places.now m (Some keys))) }
{
    let owners = read_word(process, keys, 0)?;
    let word = read_word(process, keys, 8)?;
    Ok(own_bytes(places.keys_form, owners, word))
}

/// The same of a dict's keys. At most 3 reads.
fn read_dict<P: ProcessMemory>(
    process: &mut P,
    places: &SizePlaces,
    object: u64,
) -> Result<Option<u64>, AllocError>
    ensures { Reading 3 (P.seen process.old) (P.seen process.new)
        (λ m. IfOk result (λ bytes. bytes ≡ dict_at places.now m object)) }
{
    let keys = read_word(process, object, places.keys)?;
    match keys {
        None => Ok(None),
        Some(keys) => read_keys(process, places, keys),
    }
}

/// How many bytes the block of keys has, where what they say is known.
fn bytes_if(form: KeysForm, word: Option<u64>) -> Option<u64>
    ensures { result ≡ bytes_if form word }
{
    let word = word?;
    keys_bytes(form, word)
}

/// How many bytes the block of the keys at an address has, whoever has them; no bytes at 0. At most one read.
fn read_shared<P: ProcessMemory>(
    process: &mut P,
    places: &SizePlaces,
    keys: u64,
) -> Result<Option<u64>, AllocError>
    ensures { Reading 1 (P.seen process.old) (P.seen process.new)
        (λ m. IfOk result (λ bytes. bytes ≡ shared_keys places.now m (Some keys))) }
{
    if keys == 0 {
        return Ok(Some(0));
    }
    let word = read_word(process, keys, 8)?;
    Ok(bytes_if(places.keys_form, word))
}

/// The same of the keys that a type keeps, which the dicts of its objects share. At most 2 reads.
fn read_type<P: ProcessMemory>(
    process: &mut P,
    places: &SizePlaces,
    object: u64,
) -> Result<Option<u64>, AllocError>
    ensures { Reading 2 (P.seen process.old) (P.seen process.new)
        (λ m. IfOk result (λ bytes. bytes ≡ type_at places.now m object)) }
{
    let keys = read_word(process, object, places.cached_keys)?;
    match keys {
        None => Ok(None),
        Some(keys) => read_shared(process, places, keys),
    }
}

/// How many bytes the entries of a table have whose mask is given; none where 64 bits have no room for them.
fn entries_bytes(mask: u64) -> Option<u64>
    ensures { result ≡ entries_bytes mask }
{
    let entries = mask.checked_add(1)?;
    entries.checked_mul(16)
}

/// Whether a table is the small one of a set's own block.
fn is_small(object: u64, own: u64, table: u64) -> bool
    ensures { result ≡ is_small object own table }
{
    table >= object && table - object == own
}

/// How many bytes the table of a set has, where it isn't that one.
fn table_by(object: u64, own: u64, table: Option<u64>, mask: Option<u64>) -> Option<u64>
    ensures { result ≡ table_by object own table mask }
{
    let table = table?;
    let mask = mask?;
    if is_small(object, own, table) {
        return Some(0);
    }
    entries_bytes(mask)
}

/// How many bytes the table of a set has, where it isn't the one of its own block. At most 2 reads.
fn read_table<P: ProcessMemory>(
    process: &mut P,
    places: &SizePlaces,
    object: u64,
) -> Result<Option<u64>, AllocError>
    ensures { Reading 2 (P.seen process.old) (P.seen process.new)
        (λ m. IfOk result (λ bytes. bytes ≡ table_at places.now m object)) }
{
    let table = read_word(process, object, places.table)?;
    let mask = read_word(process, object, places.mask)?;
    Ok(table_by(object, places.own_table, table, mask))
}

/// The same of an object of a class that is one of sets, or is none. At most 2 reads.
fn read_set<P: ProcessMemory>(
    process: &mut P,
    places: &SizePlaces,
    of_sets: Option<bool>,
    object: u64,
) -> Result<Option<u64>, AllocError>
    ensures { Reading 2 (P.seen process.old) (P.seen process.new)
        (λ m. IfOk result (λ bytes. bytes ≡ set_at places.now m of_sets object)) }
{
    match of_sets {
        None => Ok(None),
        Some(false) => Ok(Some(0)),
        Some(true) => read_table(process, places, object),
    }
}

/// How many bytes an object of a class has in blocks of their own. At most 3 reads.
fn read_block<P: ProcessMemory>(
    process: &mut P,
    places: &SizePlaces,
    class: ClassSize,
    object: u64,
) -> Result<Option<u64>, AllocError>
    ensures { Reading 3 (P.seen process.old) (P.seen process.new)
        (λ m. IfOk result (λ bytes. bytes ≡ block_at places.now m class object)) }
{
    if is_list(class.flags) {
        return read_room(process, places, object);
    }
    if is_dict(class.flags) {
        return read_dict(process, places, object);
    }
    if is_type(class.flags) {
        return read_type(process, places, object);
    }
    read_set(process, places, class.of_sets, object)
}

/// How many bytes an object of a class has in blocks of their own; none where that is not known. At most 3 reads.
pub(crate) fn read_more<P: ProcessMemory>(
    process: &mut P,
    places: &SizePlaces,
    class: Option<ClassSize>,
    object: u64,
) -> Result<Option<u64>, AllocError>
    ensures { Reading 3 (P.seen process.old) (P.seen process.new)
        (λ m. IfOk result (λ more. more ≡ more_by places.now m class object)) }
{
    match class {
        None => Ok(None),
        Some(class) => read_block(process, places, class, object),
    }
}
