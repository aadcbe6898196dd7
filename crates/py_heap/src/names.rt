//! The names of classes.
ghost use Rattle.std.specs.Prelude.{◌≡◌, ◌++◌, ◌*◌, ◌≤◌, IfOk, OnOk, drop, length, map, take};
ghost use Rattle.process_memory.specs.Seen.{Reading};
ghost use Rattle.py_fields.specs.Sound.{IsSound};
ghost use Rattle.py_exceptions.specs.ClassNames.{class_at};
ghost use Rattle.py_heap.specs.Names.{most_names, named_at, named_classes, names_reads, unnamed};

use crate::HeapClass;
use process_memory::ProcessMemory;
use py_census::CountedClass;
use py_exceptions::{ClassName, ClassPlaces, ExceptionsError, read_class};
use py_fields::Layout;
use std::alloc::{AllocError, Global};

/// Of how many classes the name is read.
const MOST_NAMES: usize = 2048;

/// The name of a class; none where it can't be read. At most 16393 reads.
fn read_name<P: ProcessMemory>(
    alloc: Global,
    process: &mut P,
    layout: &Layout,
    places: &ClassPlaces,
    class: u64,
) -> Result<Option<ClassName>, AllocError>
    requires sound { IsSound layout.now }
    ensures { Reading 16393 (P.seen process.old) (P.seen process.new)
        (λ m. IfOk result (λ name. name ≡ class_at layout.now places.now m class)) }
{
    match read_class(alloc, process, layout, places, class) {
        Ok(name) => Ok(name),
        Err(ExceptionsError::OutOfMemory) => Err(AllocError),
    }
}

/// A class with its name. At most 16393 reads.
fn read_one<P: ProcessMemory>(
    alloc: Global,
    process: &mut P,
    layout: &Layout,
    places: &ClassPlaces,
    counted: &CountedClass,
) -> Result<HeapClass, AllocError>
    requires sound { IsSound layout.now }
    ensures { Reading 16393 (P.seen process.old) (P.seen process.new)
        (λ m. IfOk result (λ class. class ≡ named_at layout.now places.now m counted.now)) }
{
    let name = read_name(alloc, process, layout, places, counted.class)?;
    Ok(HeapClass {
        counted: *counted,
        name,
    })
}

/// Some classes with their names. At most 16393 reads for each.
fn read_each<P: ProcessMemory>(
    alloc: Global,
    process: &mut P,
    layout: &Layout,
    places: &ClassPlaces,
    classes: &[CountedClass],
) -> Result<Vec<HeapClass>, AllocError>
    requires sound { IsSound layout.now }
    ensures { Reading (16393 * length classes.now) (P.seen process.old) (P.seen process.new)
        (λ m. IfOk result (λ named. named.items ≡ map (named_at layout.now places.now m) classes.now)) }
{
    let mut named = Vec::new(alloc);
    for counted in classes {
        let class = read_one(alloc, process, layout, places, counted)?;
        named.push(class)?;
    }
    Ok(named)
}

/// Adds some classes without their names.
fn push_unnamed(named: &mut Vec<HeapClass>, classes: &[CountedClass]) -> Result<(), AllocError>
    ensures { OnOk result (named.new.items ≡ named.old.items ++ map unnamed classes.now) }
{
    for counted in classes {
        named.push(HeapClass {
            counted: *counted,
            name: None,
        })?;
    }
    Ok(())
}

/// The first of some classes, of which the names are read.
fn first_of(classes: &[CountedClass]) -> &[CountedClass]
    ensures is { result.now ≡ take most_names classes.now }
    ensures few { length result.now ≤ most_names }
{
    if classes.len() <= MOST_NAMES {
        return classes;
    }
    &classes[..MOST_NAMES]
}

/// Those behind them.
fn rest_of(classes: &[CountedClass]) -> &[CountedClass]
    ensures { result.now ≡ drop most_names classes.now }
{
    if classes.len() <= MOST_NAMES {
        return &[];
    }
    &classes[MOST_NAMES..]
}

/// Classes with their names, those of the first 2,048. At most 16393 reads for each of these.
pub(crate) fn read_named<P: ProcessMemory>(
    alloc: Global,
    process: &mut P,
    layout: &Layout,
    places: &ClassPlaces,
    classes: &[CountedClass],
) -> Result<Vec<HeapClass>, AllocError>
    requires sound { IsSound layout.now }
    ensures { Reading names_reads (P.seen process.old) (P.seen process.new)
        (λ m. IfOk result (λ named. named.items ≡ named_classes layout.now places.now m classes.now)) }
{
    let mut named = read_each(alloc, process, layout, places, first_of(classes))?;
    push_unnamed(&mut named, rest_of(classes))?;
    Ok(named)
}
