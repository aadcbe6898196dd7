//! What the heap of each interpreter that is shown holds.
ghost use Rattle.std.specs.Prelude.{◌≡◌, ◌∷◌, [], IfOk, map};
ghost use Rattle.image_memory.specs.Backed.{regions_of};
ghost use Rattle.process_memory.specs.Memory.{byte_at};
ghost use Rattle.py_fields.specs.Sound.{IsSound};
ghost use Rattle.py_process.specs.Facts.{known_of, symbol_known};
ghost use Rattle.py_heap.specs.Heaps.{IsHeapAt};
ghost use Rattle.memory_sections.specs.Each.{EachTold};
ghost use Rattle.memory_sections.specs.Heap.{AreHeaps, AreHeapsBy, HeapIs, IsHeapOf, IsRuntimeHeap, address_of};
ghost use Rattle.memory_sections.specs.Heap.{classes_by, set_classes};

use crate::waits::runtime_of;
use core_stacks::Process;
use gc_lists::Home;
use missed_reads::{Missed, Misses};
use py_census::SetClasses;
use py_fronts::SalvagedInterpreter;
use py_heap::{HeapPlaces, HeapTold, Heaps, InterpreterHeap, heap_places, read_heap};
use py_records::Records;
use std::alloc::{AllocError, Global};

/// The classes of sets, by their symbols; none unless both are there.
fn classes_by(set: Option<u64>, frozenset: Option<u64>) -> Option<SetClasses>
    ensures { result ≡ classes_by set frozenset }
{
    let set = set?;
    let frozenset = frozenset?;
    Some(SetClasses { set, frozenset })
}

/// The address of a symbol of a process.
fn symbol_of(process: &Process, name: &[u8]) -> Option<u64>
    ensures { result ≡ symbol_known (known_of process.now.info) name.now }
{
    process.info.get_symbol(name).copied()
}

/// The classes of sets of a process, where symbols tell them.
fn set_classes(process: &Process) -> Option<SetClasses>
    ensures { result ≡ set_classes (known_of process.now.info) }
{
    classes_by(
        symbol_of(process, b"PySet_Type"),
        symbol_of(process, b"PyFrozenSet_Type"),
    )
}

/// The addresses of some interpreters.
fn addresses_of(alloc: Global, interpreters: &[SalvagedInterpreter]) -> Result<Vec<u64>, AllocError>
    ensures { IfOk result (λ addresses. addresses.items ≡ map address_of interpreters.now) }
{
    let mut addresses = Vec::new(alloc);
    for interpreter in interpreters {
        addresses.push(interpreter.front.address)?;
    }
    Ok(addresses)
}

/// What the heap holds of the record at an address. Reads that are refused are kept.
fn heap_at(
    alloc: Global,
    process: &Process,
    places: &HeapPlaces,
    misses: &mut Misses,
    bases: &[u64],
    base: u64,
) -> Result<HeapTold, AllocError>
    requires sound { IsSound process.now.layout }
    ensures { IfOk result
        (IsHeapAt process.now.layout places.now bases.now (byte_at (regions_of process.now.dump)) base) }
{
    let mut view = Missed::new(process.dump.view(), misses);
    read_heap(alloc, &mut view, &process.layout, places, bases, base)
}

/// What the runtime's lists hold, where a symbol tells where its record is.
fn runtime_heap(
    alloc: Global,
    process: &Process,
    places: &HeapPlaces,
    misses: &mut Misses,
) -> Result<Option<HeapTold>, AllocError>
    requires sound { IsSound process.now.layout }
    ensures { IfOk result (IsRuntimeHeap (known_of process.now.info) process.now.layout places.now
        (byte_at (regions_of process.now.dump))) }
{
    let Some(runtime) = runtime_of(process) else {
        return Ok(None);
    };
    let told = heap_at(alloc, process, places, misses, &[runtime], runtime)?;
    Ok(Some(told))
}

/// What the heap of an interpreter holds.
fn interpreter_heap(
    alloc: Global,
    process: &Process,
    places: &HeapPlaces,
    misses: &mut Misses,
    bases: &[u64],
    interpreter: &SalvagedInterpreter,
) -> Result<InterpreterHeap, AllocError>
    requires sound { IsSound process.now.layout }
    ensures { IfOk result (IsHeapOf process.now.layout places.now bases.now
        (byte_at (regions_of process.now.dump)) interpreter.now) }
{
    let address = interpreter.front.address;
    let told = heap_at(alloc, process, places, misses, bases, address)?;
    Ok(InterpreterHeap {
        interpreter: address,
        told,
    })
}

/// Those of each interpreter, in order.
fn each_heap(
    alloc: Global,
    process: &Process,
    places: &HeapPlaces,
    misses: &mut Misses,
    bases: &[u64],
    interpreters: &[SalvagedInterpreter],
) -> Result<Vec<InterpreterHeap>, AllocError>
    requires sound { IsSound process.now.layout }
    ensures { IfOk result (λ told. EachTold (IsHeapOf process.now.layout places.now bases.now
        (byte_at (regions_of process.now.dump))) interpreters.now told.items) }
{
    let mut told = Vec::new(alloc);
    for interpreter in interpreters {
        told.push(interpreter_heap(alloc, process, places, misses, bases, interpreter)?)?;
    }
    Ok(told)
}

/// The heaps of a process, by whose record has the lists.
fn heaps_by(
    alloc: Global,
    process: &Process,
    places: &HeapPlaces,
    misses: &mut Misses,
    interpreters: &[SalvagedInterpreter],
) -> Result<Heaps, AllocError>
    requires sound { IsSound process.now.layout }
    ensures { IfOk result (AreHeapsBy (known_of process.now.info) process.now.layout places.now
        (byte_at (regions_of process.now.dump)) interpreters.now places.now.lists.home) }
{
    match places.lists.home {
        Home::Runtime => Ok(Heaps::OfRuntime(runtime_heap(alloc, process, places, misses)?)),
        Home::Interpreter => {
            let bases = addresses_of(alloc, interpreters)?;
            let told = each_heap(alloc, process, places, misses, &bases, interpreters)?;
            Ok(Heaps::OfInterpreters(told))
        }
    }
}

/// The heaps of a process, where its version is described.
fn heaps_of(
    alloc: Global,
    process: &Process,
    records: &Records,
    misses: &mut Misses,
    interpreters: &[SalvagedInterpreter],
) -> Result<Heaps, AllocError>
    requires sound { IsSound process.now.layout }
    ensures { IfOk result (AreHeaps (known_of process.now.info) process.now.version process.now.layout records.now
        (byte_at (regions_of process.now.dump)) interpreters.now) }
{
    let sets = set_classes(process);
    let places = heap_places(&process.version, &process.layout, records, sets);
    match &places {
        Some(places) => heaps_by(alloc, process, places, misses, interpreters),
        None => Ok(Heaps::NotDescribed),
    }
}

/// The same, where they are asked for.
pub(crate) fn heap_section(
    alloc: Global,
    asked: bool,
    process: &Process,
    records: &Records,
    misses: &mut Misses,
    interpreters: &[SalvagedInterpreter],
) -> Result<Option<Heaps>, AllocError>
    requires sound { IsSound process.now.layout }
    ensures { IfOk result (HeapIs asked (known_of process.now.info) process.now.version process.now.layout records.now
        (byte_at (regions_of process.now.dump)) interpreters.now) }
{
    if !asked {
        return Ok(None);
    }
    let told = heaps_of(alloc, process, records, misses, interpreters)?;
    Ok(Some(told))
}
