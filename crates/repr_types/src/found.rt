//! The types that symbols name.
ghost use Rattle.std.specs.Prelude.{◌≡◌, ◌*◌, IfOk, length, map};
ghost use Rattle.process_memory.specs.Seen.{Reading};
ghost use Rattle.repr_types.specs.Found.{FoundIs, IsKnown, class_named, place_address, type_named};

use process_memory::ProcessMemory;
use py_builtins::ObjectError;
use py_fields::Layout;
use py_reprs::ReprError;
use std::alloc::Global;
use type_places::{TypePlace, by_symbol, class_of};

/// Nothing was found; out of memory is handed on.
fn lost(error: ObjectError) -> Result<Option<u64>, ReprError>
    ensures { IsKnown error result }
{
    match error {
        ObjectError::OutOfMemory => Err(ReprError::OutOfMemory),
        _ => Ok(None),
    }
}

/// The address of a place, if there is one.
fn place_address(place: Option<TypePlace>) -> Option<u64>
    ensures { result ≡ place_address place }
{
    match place {
        Some(place) => Some(place.address),
        None => None,
    }
}

/// The type that a symbol names, where it was read.
fn read_place(read: Result<Option<TypePlace>, ObjectError>) -> Result<Option<u64>, ReprError>
    ensures { FoundIs place_address read result }
{
    match read {
        Ok(place) => Ok(place_address(place)),
        Err(error) => lost(error),
    }
}

/// The class of an object, where it was read.
fn read_class(read: Result<u64, ObjectError>) -> Result<Option<u64>, ReprError>
    ensures { FoundIs Some read result }
{
    match read {
        Ok(class) => Ok(Some(class)),
        Err(error) => lost(error),
    }
}

/// The address of the type that a symbol names, if a type stands there. At most 2 reads.
fn type_named<P: ProcessMemory>(
    process: &mut P,
    layout: &Layout,
    symbol: Option<u64>,
) -> Result<Option<u64>, ReprError>
    ensures { Reading 2 (P.seen process.old) (P.seen process.new)
        (λ m. IfOk result (λ found. found ≡ type_named layout.now m symbol)) }
{
    read_place(by_symbol(process, layout, symbol))
}

/// The class of the object that a symbol names. At most one read.
fn class_named<P: ProcessMemory>(
    process: &mut P,
    layout: &Layout,
    symbol: Option<u64>,
) -> Result<Option<u64>, ReprError>
    ensures { Reading 1 (P.seen process.old) (P.seen process.new)
        (λ m. IfOk result (λ found. found ≡ class_named layout.now m symbol)) }
{
    match symbol {
        None => Ok(None),
        Some(addr) => read_class(class_of(process, layout, addr)),
    }
}

/// The types that some symbols name, in order. At most 2 reads for each.
pub(crate) fn types_named<P: ProcessMemory>(
    alloc: Global,
    process: &mut P,
    layout: &Layout,
    symbols: &[Option<u64>],
) -> Result<Vec<Option<u64>>, ReprError>
    ensures { Reading (length symbols.now * 2) (P.seen process.old) (P.seen process.new)
        (λ m. IfOk result (λ found. found.items ≡ map (type_named layout.now m) symbols.now)) }
{
    let mut found = Vec::new(alloc);
    for number in 0..symbols.len() {
        let known = type_named(process, layout, symbols[number])?;
        found.push(known)?;
    }
    Ok(found)
}

/// The classes of the objects that some symbols name, in order. At most one read for each.
pub(crate) fn classes_named<P: ProcessMemory>(
    alloc: Global,
    process: &mut P,
    layout: &Layout,
    symbols: &[Option<u64>],
) -> Result<Vec<Option<u64>>, ReprError>
    ensures { Reading (length symbols.now * 1) (P.seen process.old) (P.seen process.new)
        (λ m. IfOk result (λ found. found.items ≡ map (class_named layout.now m) symbols.now)) }
{
    let mut found = Vec::new(alloc);
    for number in 0..symbols.len() {
        let known = class_named(process, layout, symbols[number])?;
        found.push(known)?;
    }
    Ok(found)
}
