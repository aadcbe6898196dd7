//! How many bytes the own block of an object has.
ghost use Rattle.std.specs.Prelude.{◌≡◌, ◌+◌, ◌*◌, ◌≤◌, IfOk};
ghost use Rattle.process_memory.specs.Memory.{word_at};
ghost use Rattle.process_memory.specs.Seen.{Reading};
ghost use Rattle.py_census.specs.Sizes.{class_at, class_size_at, class_size_by, digits, fits, has_count, has_words};
ghost use Rattle.py_census.specs.Sizes.{head_before, is_integer, items_at, items_by, items_if, size_by, size_with};
ghost use Rattle.py_census.specs.Sizes.{words_before};
ghost use Rattle.py_census.specs.Bases.{known};

use crate::bases::read_set_class;
use crate::{SizePlaces, WordsBefore};
use process_memory::{ProcessMemory, ReadFault, word_past};
use py_fields::{Integers, Layout};
use std::alloc::AllocError;

/// The class keeps references of its objects: CPython's `Py_TPFLAGS_MANAGED_WEAKREF`.
const PY_TPFLAGS_MANAGED_WEAKREF: u64 = 1 << 3;

/// Its objects have a managed dict: CPython's `Py_TPFLAGS_MANAGED_DICT`.
const PY_TPFLAGS_MANAGED_DICT: u64 = 1 << 4;

/// The collector tracks its objects: CPython's `Py_TPFLAGS_HAVE_GC`.
const PY_TPFLAGS_HAVE_GC: u64 = 1 << 14;

/// Its objects are integers: CPython's `Py_TPFLAGS_LONG_SUBCLASS`.
const PY_TPFLAGS_LONG_SUBCLASS: u64 = 1 << 24;

/// Its objects are tuples: CPython's `Py_TPFLAGS_TUPLE_SUBCLASS`.
const PY_TPFLAGS_TUPLE_SUBCLASS: u64 = 1 << 26;

/// Its objects are bytes: CPython's `Py_TPFLAGS_BYTES_SUBCLASS`.
const PY_TPFLAGS_BYTES_SUBCLASS: u64 = 1 << 27;

/// Its objects are types: CPython's `Py_TPFLAGS_TYPE_SUBCLASS`.
const PY_TPFLAGS_TYPE_SUBCLASS: u64 = 1 << 31;

/// What a class says of the size of its objects.
#[derive(Clone, Copy)]
pub(crate) struct ClassSize {
    /// How many bytes each has without its items.
    pub basic: u64,
    /// How many bytes an item has.
    pub item: u64,
    /// Its flags.
    pub flags: u64,
    /// Whether it is one of sets; none where that is not known.
    pub of_sets: Option<bool>,
}

/// The word so far behind an address; none where it is not in memory. At most one read.
pub(crate) fn read_word<P: ProcessMemory>(
    process: &mut P,
    base: u64,
    offset: u64,
) -> Result<Option<u64>, AllocError>
    ensures { Reading 1 (P.seen process.old) (P.seen process.new)
        (λ m. IfOk result (λ word. word ≡ known (word_at m (base + offset)))) }
{
    match word_past(process, base, offset) {
        Ok(word) => Ok(Some(word)),
        Err(ReadFault::Unreadable { .. }) => Ok(None),
        Err(ReadFault::OutOfMemory) => Err(AllocError),
    }
}

/// The address of the class of an object; none where it is not in memory. At most one read.
pub(crate) fn read_class<P: ProcessMemory>(
    process: &mut P,
    layout: &Layout,
    object: u64,
) -> Result<Option<u64>, AllocError>
    ensures { Reading 1 (P.seen process.old) (P.seen process.new)
        (λ m. IfOk result (λ class. class ≡ class_at layout.now m object)) }
{
    read_word(process, object, layout.object.klass as u64)
}

/// What a class says, where all of it is known.
fn class_size_by(
    basic: Option<u64>,
    item: Option<u64>,
    flags: Option<u64>,
    of_sets: Option<bool>,
) -> Option<ClassSize>
    ensures { result ≡ class_size_by basic item flags of_sets }
{
    let basic = basic?;
    let item = item?;
    let flags = flags?;
    Some(ClassSize {
        basic,
        item,
        flags,
        of_sets,
    })
}

/// What a class says of the size of its objects; none where a word of it is not in memory. At most 19 reads.
pub(crate) fn read_class_size<P: ProcessMemory>(
    process: &mut P,
    layout: &Layout,
    places: &SizePlaces,
    class: u64,
) -> Result<Option<ClassSize>, AllocError>
    ensures { Reading 19 (P.seen process.old) (P.seen process.new)
        (λ m. IfOk result (λ sized. sized ≡ class_size_at layout.now places.now m class)) }
{
    let basic = read_word(process, class, places.basic_size)?;
    let item = read_word(process, class, places.item_size)?;
    let flags = read_word(process, class, layout.klass.flags as u64)?;
    let of_sets = read_set_class(process, places, class)?;
    Ok(class_size_by(basic, item, flags, of_sets))
}

/// Whether the objects of a class of these flags are integers.
fn is_integer(flags: u64) -> bool
    ensures { result ≡ is_integer flags }
{
    flags / PY_TPFLAGS_LONG_SUBCLASS % 2 == 1
}

/// Whether the objects of a class of these flags have a count of items.
fn has_count(flags: u64) -> bool
    ensures { result ≡ has_count flags }
{
    is_integer(flags)
        || flags / PY_TPFLAGS_TUPLE_SUBCLASS % 2 == 1
        || flags / PY_TPFLAGS_BYTES_SUBCLASS % 2 == 1
        || flags / PY_TPFLAGS_TYPE_SUBCLASS % 2 == 1
}

/// How many bytes the head of the collector has before an object of a class of these flags.
fn head_before(places: &SizePlaces, flags: u64) -> u64
    ensures { result ≡ head_before places.now flags }
{
    if flags / PY_TPFLAGS_HAVE_GC % 2 == 1 {
        places.head_size
    } else {
        0
    }
}

/// Whether two words stand before an object of a class of these flags.
fn has_words(before: WordsBefore, flags: u64) -> bool
    ensures { result ≡ has_words before flags }
{
    match before {
        WordsBefore::Never => false,
        WordsBefore::Dict => flags / PY_TPFLAGS_MANAGED_DICT % 2 == 1,
        WordsBefore::DictOrReferences => {
            flags / PY_TPFLAGS_MANAGED_DICT % 2 == 1 || flags / PY_TPFLAGS_MANAGED_WEAKREF % 2 == 1
        }
    }
}

/// How many bytes these have.
fn words_before(places: &SizePlaces, flags: u64) -> u64
    ensures is { result ≡ words_before places.now flags }
    ensures few { result ≤ 16 }
{
    if has_words(places.words_before, flags) {
        16
    } else {
        0
    }
}

/// How many digits an integer has room for, by the word that says how many it has.
fn digits(integers: Integers, word: u64) -> u64
    ensures { result ≡ digits integers word }
{
    match integers {
        Integers::Signed => word.cast_signed().unsigned_abs(),
        Integers::Tagged => (word / 8).max(1),
    }
}

/// How many items an object of a class of these flags has, by its count.
fn items_by(integers: Integers, flags: u64, word: u64) -> u64
    ensures { result ≡ items_by integers flags word }
{
    if is_integer(flags) {
        digits(integers, word)
    } else {
        word
    }
}

/// The same, where the count is known.
fn items_if(integers: Integers, flags: u64, word: Option<u64>) -> Option<u64>
    ensures { result ≡ items_if integers flags word }
{
    match word {
        None => None,
        Some(word) => Some(items_by(integers, flags, word)),
    }
}

/// How many items an object has; none where its count is not in memory. At most one read.
fn read_items<P: ProcessMemory>(
    process: &mut P,
    layout: &Layout,
    places: &SizePlaces,
    class: ClassSize,
    object: u64,
) -> Result<Option<u64>, AllocError>
    ensures { Reading 1 (P.seen process.old) (P.seen process.new)
        (λ m. IfOk result (λ items. items ≡ items_at layout.now places.now m class object)) }
{
    if has_count(class.flags) {
        let word = read_word(process, object, places.count)?;
        return Ok(items_if(layout.integers, class.flags, word));
    }
    Ok(Some(0))
}

/// The sum of three numbers and the product of two, where 64 bits have room for it.
fn sum_of(head: u64, words: u64, basic: u64, items: u64, item: u64) -> Option<u64>
    requires { words ≤ 16 }
    ensures { result ≡ fits (head + words + basic + items * item) }
{
    let all = items.checked_mul(item)?;
    let behind = basic.checked_add(all)?;
    let block = words.checked_add(behind)?;
    head.checked_add(block)
}

/// How many bytes an object has, by how many items it has.
fn size_with(places: &SizePlaces, class: ClassSize, items: Option<u64>) -> Option<u64>
    ensures { result ≡ size_with places.now class items }
{
    let items = items?;
    let head = head_before(places, class.flags);
    let words = words_before(places, class.flags);
    sum_of(head, words, class.basic, items, class.item)
}

/// How many bytes the own block of an object of a class has; none where that is not known. At most one read.
pub(crate) fn read_size<P: ProcessMemory>(
    process: &mut P,
    layout: &Layout,
    places: &SizePlaces,
    class: Option<ClassSize>,
    object: u64,
) -> Result<Option<u64>, AllocError>
    ensures { Reading 1 (P.seen process.old) (P.seen process.new)
        (λ m. IfOk result (λ size. size ≡ size_by layout.now places.now m class object)) }
{
    match class {
        None => Ok(None),
        Some(class) => {
            let items = read_items(process, layout, places, class, object)?;
            Ok(size_with(places, class, items))
        }
    }
}
