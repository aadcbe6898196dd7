//! Where all that a heap's census reads stands.
ghost use Rattle.std.specs.Prelude.{◌≡◌};
ghost use Rattle.py_heap.specs.Places.{heap_places, small};

use gc_lists::{ListPlaces, list_places};
use py_census::{SetClasses, SizePlaces, size_places};
use py_exceptions::{ClassPlaces, class_of};
use py_fields::{Layout, Version};
use py_records::Records;

/// Where the collector's lists, the sizes of objects and the names of classes stand.
#[derive(Clone, Copy)]
pub struct HeapPlaces {
    /// The collector's lists.
    pub lists: ListPlaces,
    /// The sizes of objects.
    pub sizes: SizePlaces,
    /// The names of classes.
    pub classes: ClassPlaces,
}

/// A number of a version, where it is a small one.
fn small(number: u64) -> Option<u32>
    ensures { result ≡ small number }
{
    if number < 65536 {
        Some(number as u32)
    } else {
        None
    }
}

/// Where these stand in a version, by its layout, its records and the classes of sets. None where this crate's tables
/// lack the version (they have 3.7 to 3.13), or the records lack where classes keep their names.
pub fn heap_places(
    version: &Version,
    layout: &Layout,
    records: &Records,
    sets: Option<SetClasses>,
) -> Option<HeapPlaces>
    ensures { result ≡ heap_places version.now layout.now records.now sets }
{
    let major = small(version.major)?;
    let minor = small(version.minor)?;
    let lists = list_places(major, minor)?;
    let klass = records.types.klass?;
    let heap_type = records.types.heap_type?;
    let sizes = size_places(sets, heap_type.cached_keys as u64, major, minor)?;
    Some(HeapPlaces {
        lists,
        sizes,
        classes: class_of(layout, &klass, &heap_type),
    })
}
