//! The lines of the heaps of a process.
ghost use Rattle.std.specs.Prelude.{◌≡◌, ◌++◌, OnOk, string_bytes};
ghost use Rattle.heap_texts.specs.Text.{classes_text, heap_text, heaps_text, interpreter_text, interpreters_text};
ghost use Rattle.heap_texts.specs.Text.{lists_text, none_line, runtime_text, table_text, told_text, whole_text};
ghost use Rattle.heap_texts.specs.Text.{wholes_text};

use crate::firsts::{first_of, rest_of};
use crate::lines::{
    push_class, push_collecting, push_counts, push_largest, push_lead, push_list, push_lost,
    push_rest, push_sets,
};
use py_heap::{Heap, HeapClass, HeapTold, Heaps, InterpreterHeap};
use std::alloc::{AllocError, Global};

/// How many classes have a line.
const MOST_LINES: usize = 40;

/// Of how many classes the largest objects are told.
pub(crate) const MOST_LARGEST: usize = 10;

/// How the lists end that don't end as whole ones do.
fn push_lists(text: &mut String, heap: &Heap) -> Result<(), AllocError>
    ensures { OnOk result (string_bytes text.new ≡ string_bytes text.old ++ lists_text heap.now) }
{
    push_list(text, "generation 0", heap.youngest)?;
    push_list(text, "generation 1", heap.middle)?;
    push_list(text, "generation 2", heap.oldest)?;
    push_list(text, "the permanent generation", heap.permanent)
}

/// The lines of some classes.
fn push_classes(alloc: Global, text: &mut String, classes: &[HeapClass]) -> Result<(), AllocError>
    ensures { OnOk result (string_bytes text.new ≡ string_bytes text.old ++ classes_text classes.now) }
{
    for class in classes {
        push_class(alloc, text, class)?;
    }
    Ok(())
}

/// A class with its largest objects.
fn push_whole(alloc: Global, text: &mut String, class: &HeapClass) -> Result<(), AllocError>
    ensures { OnOk result (string_bytes text.new ≡ string_bytes text.old ++ whole_text class.now) }
{
    push_class(alloc, text, class)?;
    push_largest(text, class.counted.largest)
}

/// The lines of some classes with their largest objects.
fn push_wholes(alloc: Global, text: &mut String, classes: &[HeapClass]) -> Result<(), AllocError>
    ensures { OnOk result (string_bytes text.new ≡ string_bytes text.old ++ wholes_text classes.now) }
{
    for class in classes {
        push_whole(alloc, text, class)?;
    }
    Ok(())
}

/// The lines of some classes, of which the first ones have their largest objects.
fn push_table(alloc: Global, text: &mut String, classes: &[HeapClass]) -> Result<(), AllocError>
    ensures { OnOk result (string_bytes text.new ≡ string_bytes text.old ++ table_text classes.now) }
{
    push_wholes(alloc, text, first_of(classes, MOST_LARGEST))?;
    push_classes(alloc, text, rest_of(classes, MOST_LARGEST))
}

/// What a heap holds.
fn push_heap(alloc: Global, text: &mut String, heap: &Heap) -> Result<(), AllocError>
    ensures { OnOk result (string_bytes text.new ≡ string_bytes text.old ++ heap_text heap.now) }
{
    push_counts(text, heap)?;
    push_sets(text, heap.sets)?;
    push_collecting(text, heap.collecting)?;
    push_lists(text, heap)?;
    push_lost(text, heap.unreadable)?;
    push_table(alloc, text, first_of(&heap.classes, MOST_LINES))?;
    push_rest(text, heap.classes.len())
}

/// That there are no lists.
fn push_none(text: &mut String, head: u64) -> Result<(), AllocError>
    ensures { OnOk result (string_bytes text.new ≡ string_bytes text.old ++ none_line head) }
{
    write!(text, "no list at 0x{head:x}\n")
}

/// What is told of the lists of an interpreter, or of the runtime.
fn push_told(
    alloc: Global,
    text: &mut String,
    owner: Option<u64>,
    told: &HeapTold,
) -> Result<(), AllocError>
    ensures { OnOk result (string_bytes text.new ≡ string_bytes text.old ++ told_text owner told.now) }
{
    push_lead(text, owner)?;
    match told {
        HeapTold::NoLists { head } => push_none(text, *head),
        HeapTold::Counted(heap) => push_heap(alloc, text, heap),
    }
}

fn push_interpreter(
    alloc: Global,
    text: &mut String,
    heap: &InterpreterHeap,
) -> Result<(), AllocError>
    ensures { OnOk result (string_bytes text.new ≡ string_bytes text.old ++ interpreter_text heap.now) }
{
    push_told(alloc, text, Some(heap.interpreter), &heap.told)
}

fn push_interpreters(
    alloc: Global,
    text: &mut String,
    heaps: &[InterpreterHeap],
) -> Result<(), AllocError>
    ensures { OnOk result (string_bytes text.new ≡ string_bytes text.old ++ interpreters_text heaps.now) }
{
    for heap in heaps {
        push_interpreter(alloc, text, heap)?;
    }
    Ok(())
}

/// What is told of the runtime's lists, where its record is known.
fn push_runtime(alloc: Global, text: &mut String, told: &Option<HeapTold>) -> Result<(), AllocError>
    ensures { OnOk result (string_bytes text.new ≡ string_bytes text.old ++ runtime_text told.now) }
{
    match told {
        Some(told) => push_told(alloc, text, None, told),
        None => text.push_str("Heap of the runtime: no symbol tells where it is\n"),
    }
}

/// Appends the lines of the heaps of a process: of each interpreter (up to 3.8 of the runtime) how many objects the
/// generations and the permanent one have, that tables of sets are not counted if they aren't, whether a collection
/// runs, how each list ends that isn't whole, of how many objects the class can't be read, a line for each of the first
/// 40 classes, behind those of the first ten their three largest objects, and how many more classes there are; or that
/// there is no list, or that heaps are not described. The one error is out of memory.
pub fn push_heaps(alloc: Global, text: &mut String, heaps: &Heaps) -> Result<(), AllocError>
    ensures { OnOk result (string_bytes text.new ≡ string_bytes text.old ++ heaps_text heaps.now) }
{
    match heaps {
        Heaps::NotDescribed => text.push_str("Heap: not described for this version\n"),
        Heaps::OfRuntime(told) => push_runtime(alloc, text, told),
        Heaps::OfInterpreters(heaps) => push_interpreters(alloc, text, heaps),
    }
}
