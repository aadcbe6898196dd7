//! Values, one behind the other.
ghost use Rattle.std.specs.Prelude.{◌≡◌, ◌*◌, ◌≤◌, IfOk, Some, min};
ghost use Rattle.process_memory.specs.Seen.{Reads, Reading};
ghost use Rattle.py_fields.specs.Sound.{IsSound};
ghost use Rattle.py_builtins.specs.Items.{item_at};
ghost use Rattle.py_names.specs.NamesError.{names_fault};
ghost use Rattle.py_exceptions.specs.Faults.{known};
ghost use Rattle.py_exceptions.specs.ValueLists.{first_values, item_value_at, items_found_at, shown_if, values_by};
ghost use Rattle.py_exceptions.specs.ValueLists.{values_at, values_in, values_shown};

use crate::fault::or_none;
use crate::value::{Value, read_value};
use process_memory::{ProcessMemory, ReadFault};
use py_builtins::{Items, Sequence, read_item, read_items};
use py_fields::Layout;
use py_names::NamesError;
use std::alloc::Global;
use thread_exceptions::ExceptionsError;

/// How many values are told at most.
const VALUE_LIMIT: u64 = 16;

/// Values, one behind the other: the first 16, and how many more there are.
#[derive(Debug, Drop)]
pub struct Values {
    /// Each is none where it can't be read.
    pub values: Vec<Option<Value>>,
    pub left_out: u64,
}

/// The address of the item of a number; none where that is not in memory. At most one read.
fn read_item_address<P: ProcessMemory>(
    process: &mut P,
    items: &Items,
    number: u64,
) -> Result<Option<u64>, ExceptionsError>
    ensures { Reading 1 (P.seen process.old) (P.seen process.new)
        (λ m. IfOk result (λ word. word ≡ known (item_at m items.now number))) }
{
    match read_item(process, items, number) {
        Ok(word) => Ok(Some(word)),
        Err(ReadFault::Unreadable { .. }) => Ok(None),
        Err(ReadFault::OutOfMemory) => Err(ExceptionsError::OutOfMemory),
    }
}

/// The item of a number as a value; none where it can't be read. At most 6 reads.
fn read_item_value<P: ProcessMemory>(
    alloc: Global,
    process: &mut P,
    layout: &Layout,
    items: &Items,
    number: u64,
) -> Result<Option<Value>, ExceptionsError>
    requires sound { IsSound layout.now }
    ensures { Reading 6 (P.seen process.old) (P.seen process.new)
        (λ m. IfOk result (λ value. value ≡ item_value_at layout.now m items.now number)) }
{
    let word = read_item_address(process, items, number)?;
    match word {
        None => Ok(None),
        Some(addr) => read_value(alloc, process, layout, addr),
    }
}

/// The first items as values, so many of them. At most 6 reads for each.
fn read_values<P: ProcessMemory>(
    alloc: Global,
    process: &mut P,
    layout: &Layout,
    items: &Items,
    count: u64,
) -> Result<Vec<Option<Value>>, ExceptionsError>
    requires sound { IsSound layout.now }
    ensures { Reading (6 * count) (P.seen process.old) (P.seen process.new)
        (λ m. IfOk result (λ values. values.items ≡ first_values layout.now m items.now count)) }
{
    let mut values = Vec::new(alloc);
    for number in 0..count {
        let value = read_item_value(alloc, process, layout, items, number)?;
        values.push(value)?;
    }
    Ok(values)
}

/// A count, and at most 16.
fn told_count(count: u64) -> u64
    ensures value { result ≡ min count 16 }
    ensures few { result ≤ 16 }
    ensures all { result ≤ count }
{
    if count < VALUE_LIMIT {
        count
    } else {
        VALUE_LIMIT
    }
}

/// Items as values. At most 96 reads.
fn read_in<P: ProcessMemory>(
    alloc: Global,
    process: &mut P,
    layout: &Layout,
    items: &Items,
) -> Result<Values, ExceptionsError>
    requires sound { IsSound layout.now }
    ensures { Reading 96 (P.seen process.old) (P.seen process.new)
        (λ m. IfOk result (λ told. values_shown told ≡ values_in layout.now m items.now)) }
{
    let count = told_count(items.count);
    let values = read_values(alloc, process, layout, items, count)?;
    Ok(Values {
        values,
        left_out: items.count - count,
    })
}

/// The same of what items there may be. At most 96 reads.
fn read_if_items<P: ProcessMemory>(
    alloc: Global,
    process: &mut P,
    layout: &Layout,
    items: Option<Items>,
) -> Result<Option<Values>, ExceptionsError>
    requires sound { IsSound layout.now }
    ensures { Reading 96 (P.seen process.old) (P.seen process.new)
        (λ m. IfOk result (λ told. shown_if told ≡ values_by layout.now m items)) }
{
    match items {
        None => Ok(None),
        Some(items) => {
            let told = read_in(alloc, process, layout, &items)?;
            Ok(Some(told))
        }
    }
}

/// Where the items of a list or a tuple stand. One read.
fn read_sequence<P: ProcessMemory>(
    alloc: Global,
    process: &mut P,
    layout: &Layout,
    sequence: Sequence,
    at: u64,
) -> Result<Option<Items>, NamesError>
    requires sound { IsSound layout.now }
    ensures { Reads names_fault 1 (P.seen process.old) (P.seen process.new)
        (λ m. items_found_at layout.now m sequence at) result }
{
    let items = read_items(alloc, process, layout, sequence, at)?;
    Ok(Some(items))
}

/// The items of the list or the tuple at an address as values; none where its record can't be read. At most 97 reads.
pub(crate) fn read_listed<P: ProcessMemory>(
    alloc: Global,
    process: &mut P,
    layout: &Layout,
    sequence: Sequence,
    at: u64,
) -> Result<Option<Values>, ExceptionsError>
    requires sound { IsSound layout.now }
    ensures { Reading 97 (P.seen process.old) (P.seen process.new)
        (λ m. IfOk result (λ told. shown_if told ≡ values_at layout.now m sequence at)) }
{
    let found = read_sequence(alloc, process, layout, sequence, at);
    let items = or_none(found)?;
    read_if_items(alloc, process, layout, items)
}
