//! The heaps of a process, as a JSON value.
ghost use Rattle.std.specs.Prelude.{◌≡◌, ◌++◌, IfOk, OnOk, map, string_bytes};
ghost use Rattle.serde_json.specs.View.{view};
ghost use Rattle.heap_texts.specs.Trees.{address_text, class_tree, class_with, classes_tree, collecting_tree};
ghost use Rattle.heap_texts.specs.Trees.{end_tree, heap_tree, heaps_tree, interpreter_tree, interpreters_tree};
ghost use Rattle.heap_texts.specs.Trees.{large_tree, large_trees, largest_tree, list_tree, lists_tree, name_tree};
ghost use Rattle.heap_texts.specs.Trees.{owner_tree, place_tree, runtime_tree, told_tree, whole_tree, word_tree};

use crate::firsts::{first_of, left_of, rest_of};
use crate::text::MOST_LARGEST;
use exception_texts::push_named;
use gc_lists::ListEnd;
use py_census::{LargeObject, Largest};
use py_exceptions::ClassName;
use py_heap::{Generation, Heap, HeapClass, HeapTold, Heaps, InterpreterHeap};
use serde_json::{Value, json};
use std::alloc::{AllocError, Global};

/// How many classes are told of a heap.
const MOST_CLASSES: usize = 2048;

/// An address: `0x` and lower-case hexadecimal digits.
fn address_text(alloc: Global, address: u64) -> Result<String, AllocError>
    ensures { IfOk result (λ text. string_bytes text ≡ address_text address) }
{
    format!(in alloc; "0x{address:x}")
}

/// How a list ends at an address.
fn place_value(alloc: Global, kind: &str, addr: u64) -> Result<Value, AllocError>
    ensures { IfOk result (λ value. view value ≡ place_tree kind.now addr) }
{
    let address = address_text(alloc, addr)?;
    json!(in alloc; {
        "address": address.as_str(),
        "kind": kind
    })
}

/// How a list ends.
fn end_value(alloc: Global, end: ListEnd) -> Result<Value, AllocError>
    ensures { IfOk result (λ value. view value ≡ end_tree end) }
{
    match end {
        ListEnd::Whole => json!(in alloc; {"kind": "whole"}),
        ListEnd::Torn { addr } => place_value(alloc, "torn", addr),
        ListEnd::Unreadable { addr } => place_value(alloc, "unreadable", addr),
        ListEnd::Cut { addr } => place_value(alloc, "cut", addr),
    }
}

/// A list of the collector.
fn list_value(alloc: Global, generation: Generation) -> Result<Value, AllocError>
    ensures { IfOk result (λ value. view value ≡ list_tree generation) }
{
    let end = end_value(alloc, generation.end)?;
    json!(in alloc; {
        "end": end,
        "objects": generation.objects
    })
}

/// The four lists.
fn lists_value(alloc: Global, heap: &Heap) -> Result<Value, AllocError>
    ensures { IfOk result (λ value. view value ≡ lists_tree heap.now) }
{
    let middle = list_value(alloc, heap.middle)?;
    let oldest = list_value(alloc, heap.oldest)?;
    let permanent = list_value(alloc, heap.permanent)?;
    let youngest = list_value(alloc, heap.youngest)?;
    json!(in alloc; {
        "middle": middle,
        "oldest": oldest,
        "permanent": permanent,
        "youngest": youngest
    })
}

/// The name of a class, or null.
fn name_value(alloc: Global, name: &Option<ClassName>) -> Result<Value, AllocError>
    ensures { IfOk result (λ value. view value ≡ name_tree name.now) }
{
    if name.is_none() {
        return Ok(Value::Null);
    }
    let mut text = String::new(alloc);
    push_named(alloc, &mut text, name)?;
    Ok(Value::String(text))
}

/// An object with its bytes.
fn large_value(alloc: Global, large: LargeObject) -> Result<Value, AllocError>
    ensures { IfOk result (λ value. view value ≡ large_tree large) }
{
    let address = address_text(alloc, large.object)?;
    json!(in alloc; {
        "address": address.as_str(),
        "bytes": large.bytes
    })
}

/// Adds an object, where there is one.
fn push_large(
    alloc: Global,
    values: &mut Vec<Value>,
    large: Option<LargeObject>,
) -> Result<(), AllocError>
    ensures { OnOk result (map view values.new.items ≡ map view values.old.items ++ large_trees large) }
{
    match large {
        None => Ok(()),
        Some(large) => {
            values.push(large_value(alloc, large)?)?;
            Ok(())
        }
    }
}

/// The largest objects of a class.
fn largest_value(alloc: Global, largest: Largest) -> Result<Value, AllocError>
    ensures { IfOk result (λ value. view value ≡ largest_tree largest) }
{
    let mut values = Vec::new(alloc);
    push_large(alloc, &mut values, largest.first)?;
    push_large(alloc, &mut values, largest.second)?;
    push_large(alloc, &mut values, largest.third)?;
    Ok(Value::Array(values))
}

/// A class, with what is told of its largest objects.
fn class_with(alloc: Global, class: &HeapClass, largest: Value) -> Result<Value, AllocError>
    ensures { IfOk result (λ value. view value ≡ class_with class.now (view largest)) }
{
    let address = address_text(alloc, class.counted.class)?;
    let name = name_value(alloc, &class.name)?;
    json!(in alloc; {
        "address": address.as_str(),
        "bytes": class.counted.bytes,
        "largest": largest,
        "more": class.counted.more,
        "name": name,
        "objects": class.counted.objects,
        "unknown": class.counted.unknown,
        "unread": class.counted.unread
    })
}

/// A class with its largest objects.
fn whole_value(alloc: Global, class: &HeapClass) -> Result<Value, AllocError>
    ensures { IfOk result (λ value. view value ≡ whole_tree class.now) }
{
    let largest = largest_value(alloc, class.counted.largest)?;
    class_with(alloc, class, largest)
}

/// A class without them.
fn class_value(alloc: Global, class: &HeapClass) -> Result<Value, AllocError>
    ensures { IfOk result (λ value. view value ≡ class_tree class.now) }
{
    class_with(alloc, class, Value::Null)
}

/// Adds some classes with their largest objects.
fn push_wholes(
    alloc: Global,
    values: &mut Vec<Value>,
    classes: &[HeapClass],
) -> Result<(), AllocError>
    ensures { OnOk result (map view values.new.items
        ≡ map view values.old.items ++ map (λ c. whole_tree c) classes.now) }
{
    for class in classes {
        values.push(whole_value(alloc, class)?)?;
    }
    Ok(())
}

/// Adds some classes without them.
fn push_classes(
    alloc: Global,
    values: &mut Vec<Value>,
    classes: &[HeapClass],
) -> Result<(), AllocError>
    ensures { OnOk result (map view values.new.items
        ≡ map view values.old.items ++ map (λ c. class_tree c) classes.now) }
{
    for class in classes {
        values.push(class_value(alloc, class)?)?;
    }
    Ok(())
}

/// Some classes, of which the first ones have their largest objects.
fn classes_value(alloc: Global, classes: &[HeapClass]) -> Result<Value, AllocError>
    ensures { IfOk result (λ value. view value ≡ classes_tree classes.now) }
{
    let mut values = Vec::new(alloc);
    push_wholes(alloc, &mut values, first_of(classes, MOST_LARGEST))?;
    push_classes(alloc, &mut values, rest_of(classes, MOST_LARGEST))?;
    Ok(Value::Array(values))
}

/// Whether a collection runs, or null.
fn collecting_value(collecting: Option<bool>) -> Value
    ensures { view result ≡ collecting_tree collecting }
{
    match collecting {
        Some(collecting) => Value::Bool(collecting),
        None => Value::Null,
    }
}

/// What a heap holds.
fn heap_value(alloc: Global, owner: Value, heap: &Heap) -> Result<Value, AllocError>
    ensures { IfOk result (λ value. view value ≡ heap_tree (view owner) heap.now) }
{
    let classes = classes_value(alloc, first_of(&heap.classes, MOST_CLASSES))?;
    let left = left_of(&heap.classes, MOST_CLASSES);
    let collecting = collecting_value(heap.collecting);
    let lists = lists_value(alloc, heap)?;
    json!(in alloc; {
        "classes": classes,
        "collecting": collecting,
        "interpreter": owner,
        "kind": "heap",
        "lists": lists,
        "more_classes": left,
        "sets": heap.sets,
        "unreadable": heap.unreadable
    })
}

/// Something else than a heap, in a word.
fn word_value(alloc: Global, owner: Value, kind: &str) -> Result<Value, AllocError>
    ensures { IfOk result (λ value. view value ≡ word_tree (view owner) kind.now) }
{
    json!(in alloc; {
        "interpreter": owner,
        "kind": kind
    })
}

/// The address of an interpreter, or null of the runtime.
fn owner_value(alloc: Global, owner: Option<u64>) -> Result<Value, AllocError>
    ensures { IfOk result (λ value. view value ≡ owner_tree owner) }
{
    match owner {
        Some(address) => Ok(Value::String(address_text(alloc, address)?)),
        None => Ok(Value::Null),
    }
}

/// What is told of the lists of an interpreter, or of the runtime.
fn told_value(alloc: Global, owner: Option<u64>, told: &HeapTold) -> Result<Value, AllocError>
    ensures { IfOk result (λ value. view value ≡ told_tree owner told.now) }
{
    let owner = owner_value(alloc, owner)?;
    match told {
        HeapTold::NoLists { .. } => word_value(alloc, owner, "no lists"),
        HeapTold::Counted(heap) => heap_value(alloc, owner, heap),
    }
}

fn interpreter_value(alloc: Global, heap: &InterpreterHeap) -> Result<Value, AllocError>
    ensures { IfOk result (λ value. view value ≡ interpreter_tree heap.now) }
{
    told_value(alloc, Some(heap.interpreter), &heap.told)
}

fn interpreters_value(alloc: Global, heaps: &[InterpreterHeap]) -> Result<Value, AllocError>
    ensures { IfOk result (λ value. view value ≡ interpreters_tree heaps.now) }
{
    let mut values = Vec::new(alloc);
    for heap in heaps {
        values.push(interpreter_value(alloc, heap)?)?;
    }
    Ok(Value::Array(values))
}

/// What is told of the runtime's lists.
fn runtime_value(alloc: Global, told: &Option<HeapTold>) -> Result<Value, AllocError>
    ensures { IfOk result (λ value. view value ≡ runtime_tree told.now) }
{
    let value = match told {
        Some(told) => told_value(alloc, None, told)?,
        None => word_value(alloc, Value::Null, "no runtime")?,
    };
    json!(in alloc; [value])
}

/// The heaps of a process as a JSON value: null where they are not described, and else an array of an object for each
/// interpreter, in order, with its address under `interpreter`, or of one for the runtime, with null.
///
/// Its `kind` is `heap`, `no lists`, or `no runtime` where no symbol tells where the runtime's record is. A heap has
/// its `lists` (`youngest`, `middle`, `oldest`, `permanent`), each with how many `objects` it has and how it ends
/// (`kind` `whole`, `torn`, `unreadable` or `cut`, the last three with an `address`); whether a collection runs or
/// null; its first 2,048 `classes`, most bytes first, and how many more there are (`more_classes`); whether the tables
/// of sets are counted (`sets`); and of how many objects the class is `unreadable`.
///
/// A class has its `address`, `name` or null, `objects`, the `bytes` of their own blocks, those of lists' items, dicts'
/// keys and sets' tables (`more`), of how many of them the size is `unknown` and of how many that of these blocks
/// (`unread`); the first ten have their three `largest` objects, each with its `address` and `bytes`, the others null.
///
/// The keys of an object stand in the order of their bytes. The one error is out of memory.
pub fn heaps_value(alloc: Global, heaps: &Heaps) -> Result<Value, AllocError>
    ensures { IfOk result (λ value. view value ≡ heaps_tree heaps.now) }
{
    match heaps {
        Heaps::NotDescribed => Ok(Value::Null),
        Heaps::OfRuntime(told) => runtime_value(alloc, told),
        Heaps::OfInterpreters(heaps) => interpreters_value(alloc, heaps),
    }
}
