//! What a heap holds, as it is read.
ghost use Rattle.std.specs.Prelude.{◌≡◌, ◌+◌, ◌*◌, IfOk};
ghost use Rattle.process_memory.specs.Seen.{Reading};
ghost use Rattle.py_fields.specs.Sound.{IsSound};
ghost use Rattle.gc_lists.specs.Lists.{four_of, members_in};
ghost use Rattle.gc_lists.specs.Walks.{listing_of};
ghost use Rattle.py_heap.specs.Heaps.{IsHeap, IsHeapAt, generation_of, heap_reads};
ghost use Rattle.py_heap.specs.Names.{names_reads};

use crate::names::read_named;
use crate::objects::objects_of;
use crate::{Generation, Heap, HeapPlaces, HeapTold};
use gc_lists::{Collected, GcList, Lists, read_lists};
use process_memory::ProcessMemory;
use py_census::count_objects;
use py_fields::Layout;
use std::alloc::{AllocError, Global};

/// A list by how many members it has, and how it ends.
fn generation_of(list: &GcList) -> Generation
    ensures { result ≡ generation_of (listing_of list.now) }
{
    Generation {
        objects: list.members.len(),
        end: list.end,
    }
}

/// What is told of lists. At most 24 reads of each object, and those of names.
fn read_counted<P: ProcessMemory>(
    alloc: Global,
    process: &mut P,
    layout: &Layout,
    places: &HeapPlaces,
    lists: &Lists,
) -> Result<Heap, AllocError>
    requires sound { IsSound layout.now }
    ensures { Reading (24 * members_in lists.now + names_reads) (P.seen process.old) (P.seen process.new)
        (λ m. IfOk result (λ heap. IsHeap layout.now places.now m (four_of lists.now) heap)) }
{
    let objects = objects_of(alloc, places.lists.head_size, lists)?;
    let census = count_objects(alloc, process, layout, &places.sizes, &objects)?;
    let classes = read_named(alloc, process, layout, &places.classes, &census.classes)?;
    Ok(Heap {
        collecting: lists.collecting,
        youngest: generation_of(&lists.youngest),
        middle: generation_of(&lists.middle),
        oldest: generation_of(&lists.oldest),
        permanent: generation_of(&lists.permanent),
        sets: places.sizes.sets.is_some(),
        classes,
        unreadable: census.unreadable,
    })
}

/// What the heap holds of the record at `base`: an interpreter's, or the runtime's up to 3.8. `bases` are the records of
/// all interpreters of the process, at whose lists' heads a list is torn; it may be among them.
///
/// Each of the four lists is told by how many objects it has and how it ends; all objects together are counted by class,
/// most bytes first, and the first 2,048 classes have their names. Where heads are to be checked and one isn't the head
/// of a list, the answer is `NoLists` with the first such.
///
/// The one error is out of memory. At most 25 reads of each object, 16393 for each name, and 21 more.
pub fn read_heap<P: ProcessMemory>(
    alloc: Global,
    process: &mut P,
    layout: &Layout,
    places: &HeapPlaces,
    bases: &[u64],
    base: u64,
) -> Result<HeapTold, AllocError>
    requires sound { IsSound layout.now }
    ensures right { Reading (heap_reads result) (P.seen process.old) (P.seen process.new)
        (λ m. IfOk result (λ told. IsHeapAt layout.now places.now bases.now m base told)) }
{
    let found = read_lists(alloc, process, &places.lists, bases, base)?;
    match &found {
        Collected::Elsewhere { head } => Ok(HeapTold::NoLists { head: *head }),
        Collected::Lists(lists) => {
            let heap = read_counted(alloc, process, layout, places, lists)?;
            Ok(HeapTold::Counted(heap))
        }
    }
}
