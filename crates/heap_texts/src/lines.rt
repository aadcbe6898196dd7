//! The parts of the lines of a heap.
ghost use Rattle.std.specs.Prelude.{◌≡◌, ◌++◌, OnOk, string_bytes};
ghost use Rattle.heap_texts.specs.Lines.{class_line, collecting_line, counted_text, counts_text, large_text};
ghost use Rattle.heap_texts.specs.Lines.{largest_line, lead_text, list_line, lost_line, more_text, rest_line};
ghost use Rattle.heap_texts.specs.Lines.{sets_line, size_text, unknown_text, unread_text};

use exception_texts::push_named;
use gc_lists::ListEnd;
use py_census::{CountedClass, LargeObject, Largest};
use py_heap::{Generation, Heap, HeapClass};
use std::alloc::{AllocError, Global};

/// Whose the lists are: an interpreter's, or the runtime's.
pub(crate) fn push_lead(text: &mut String, owner: Option<u64>) -> Result<(), AllocError>
    ensures { OnOk result (string_bytes text.new ≡ string_bytes text.old ++ lead_text owner) }
{
    match owner {
        Some(address) => write!(text, "Heap of the interpreter at 0x{address:x}: "),
        None => text.push_str("Heap of the runtime: "),
    }
}

/// How many objects the lists have.
pub(crate) fn push_counts(text: &mut String, heap: &Heap) -> Result<(), AllocError>
    ensures { OnOk result (string_bytes text.new ≡ string_bytes text.old ++ counts_text heap.now) }
{
    let youngest = heap.youngest.objects;
    let middle = heap.middle.objects;
    let oldest = heap.oldest.objects;
    let permanent = heap.permanent.objects;
    write!(
        text,
        "{youngest}, {middle}, {oldest} and {permanent} objects\n"
    )
}

/// That the tables of sets are not counted, where they aren't.
pub(crate) fn push_sets(text: &mut String, sets: bool) -> Result<(), AllocError>
    ensures { OnOk result (string_bytes text.new ≡ string_bytes text.old ++ sets_line sets) }
{
    if sets {
        return Ok(());
    }
    text.push_str("    tables of sets are not counted: no symbol names their classes\n")
}

/// Whether a collection runs, where it does.
pub(crate) fn push_collecting(text: &mut String, collecting: Option<bool>) -> Result<(), AllocError>
    ensures { OnOk result (string_bytes text.new ≡ string_bytes text.old ++ collecting_line collecting) }
{
    match collecting {
        Some(true) => text.push_str("    a collection runs\n"),
        Some(false) | None => Ok(()),
    }
}

/// How a list ends, where it doesn't end as a whole one does.
pub(crate) fn push_list(
    text: &mut String,
    name: &str,
    generation: Generation,
) -> Result<(), AllocError>
    ensures { OnOk result (string_bytes text.new ≡ string_bytes text.old ++ list_line name.now generation.end) }
{
    match generation.end {
        ListEnd::Whole => Ok(()),
        ListEnd::Torn { addr } => write!(text, "    {name} is torn at 0x{addr:x}\n"),
        ListEnd::Unreadable { addr } => write!(text, "    {name} can't be read at 0x{addr:x}\n"),
        ListEnd::Cut { addr } => write!(text, "    {name} has more, from 0x{addr:x} on\n"),
    }
}

/// Of how many objects the size is not known, where there is one.
fn push_unknown(text: &mut String, unknown: u64) -> Result<(), AllocError>
    ensures { OnOk result (string_bytes text.new ≡ string_bytes text.old ++ unknown_text unknown) }
{
    if unknown == 0 {
        return Ok(());
    }
    write!(text, ", {unknown} of unknown size")
}

/// Of how many objects the bytes of other blocks are not known, where there is one.
fn push_unread(text: &mut String, unread: u64) -> Result<(), AllocError>
    ensures { OnOk result (string_bytes text.new ≡ string_bytes text.old ++ unread_text unread) }
{
    if unread == 0 {
        return Ok(());
    }
    write!(text, ", {unread} of unknown other blocks")
}

/// How many bytes lists, dicts and sets have in blocks beside their own, where there are any.
fn push_more(text: &mut String, more: u64) -> Result<(), AllocError>
    ensures { OnOk result (string_bytes text.new ≡ string_bytes text.old ++ more_text more) }
{
    if more == 0 {
        return Ok(());
    }
    write!(text, " and {more} in other blocks")
}

/// How many objects there are of a class, and how many bytes.
fn push_size(text: &mut String, objects: u64, bytes: u64) -> Result<(), AllocError>
    ensures { OnOk result (string_bytes text.new ≡ string_bytes text.old ++ size_text objects bytes) }
{
    write!(text, "    {objects} objects, {bytes} bytes")
}

/// An object with its bytes, where there is one.
fn push_large(text: &mut String, before: &str, large: Option<LargeObject>) -> Result<(), AllocError>
    ensures { OnOk result (string_bytes text.new ≡ string_bytes text.old ++ large_text before.now large) }
{
    match large {
        None => Ok(()),
        Some(large) => {
            let object = large.object;
            let bytes = large.bytes;
            write!(text, "{before}{bytes} at 0x{object:x}")
        }
    }
}

/// The line of the largest objects of a class.
pub(crate) fn push_largest(text: &mut String, largest: Largest) -> Result<(), AllocError>
    ensures { OnOk result (string_bytes text.new ≡ string_bytes text.old ++ largest_line largest) }
{
    push_large(text, "        the largest: ", largest.first)?;
    push_large(text, ", ", largest.second)?;
    push_large(text, ", ", largest.third)?;
    text.push_str("\n")
}

/// What is counted of a class, before its name.
fn push_counted(text: &mut String, counted: &CountedClass) -> Result<(), AllocError>
    ensures { OnOk result (string_bytes text.new ≡ string_bytes text.old ++ counted_text counted.now) }
{
    push_size(text, counted.objects, counted.bytes)?;
    push_more(text, counted.more)?;
    push_unknown(text, counted.unknown)?;
    push_unread(text, counted.unread)
}

/// The line of a class.
pub(crate) fn push_class(
    alloc: Global,
    text: &mut String,
    class: &HeapClass,
) -> Result<(), AllocError>
    ensures { OnOk result (string_bytes text.new ≡ string_bytes text.old ++ class_line class.now) }
{
    push_counted(text, &class.counted)?;
    text.push_str(": ")?;
    push_named(alloc, text, &class.name)?;
    text.push_str("\n")
}

/// How many classes have no line, where there is one.
pub(crate) fn push_rest(text: &mut String, classes: usize) -> Result<(), AllocError>
    ensures { OnOk result (string_bytes text.new ≡ string_bytes text.old ++ rest_line classes) }
{
    if classes <= 40 {
        return Ok(());
    }
    let more = classes - 40;
    write!(text, "    and {more} more classes\n")
}

/// Of how many objects the class is not known, where there is one.
pub(crate) fn push_lost(text: &mut String, unreadable: u64) -> Result<(), AllocError>
    ensures { OnOk result (string_bytes text.new ≡ string_bytes text.old ++ lost_line unreadable) }
{
    if unreadable == 0 {
        return Ok(());
    }
    write!(text, "    {unreadable} objects whose class can't be read\n")
}
