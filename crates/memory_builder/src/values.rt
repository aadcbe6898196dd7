//! Values, as they are laid: numbers, texts, and lists with their items.
ghost use Rattle.std.specs.Prelude.{◌≡◌, ◌≤◌, ◌<◌, ◌++◌, ◌^◌, ◌+◌, map, length, unsigned_abs, IfOk};
ghost use Rattle.std.specs.List.{AllByRecursion, flat_map, sum_by};
ghost use Rattle.py_fields.specs.Sound.{IsSound};
ghost use Rattle.memory_builder.specs.Chains.{addresses_from};
ghost use Rattle.memory_builder.specs.Mirror.{item_in, program_value};
ghost use Rattle.object_builder.specs.Objects.{aligned, object};
ghost use Rattle.memory_builder.specs.Program.Held.{Items};
ghost use Rattle.memory_builder.specs.Sizes.{held_size, item_size, number_len};
ghost use Rattle.memory_builder.specs.Validity.{IsValidHeld, IsValidItem};
ghost use Rattle.memory_builder.specs.Values.{address_array, count_for, digit_count, digits_word, laid_item};
ghost use Rattle.memory_builder.specs.Values.{laid_value, number_writes};

use crate::parts::{ProgramItem, ProgramValue};
use crate::sizes::{item_size, list_len, number_len};
use object_builder::{Value, Write, add_aligned, add_object, add_text, rounded};
use py_fields::{Integers, Layout};
use std::alloc::{AllocError, Global};

/// Where the records of the three types stand.
#[derive(Clone, Copy, Debug)]
pub struct TypesAt {
    /// That of numbers.
    pub integer: u64,
    /// That of texts.
    pub text: u64,
    /// That of lists.
    pub list: u64,
}

/// How many digits of 30 bits a number has.
fn digit_count(number: u64) -> u64
    ensures value { result ≡ digit_count number }
    ensures few { result ≤ 2 }
{
    if number == 0 {
        0
    } else if number < 1 << 30 {
        1
    } else {
        2
    }
}

/// The count of a number's digits, which has its sign.
fn count_for(integers: Integers, number: i64) -> u64
    ensures { result ≡ count_for integers number }
{
    let count = digit_count(number.unsigned_abs());
    match integers {
        Integers::Signed => {
            if number < 0 {
                u64::MAX - count + 1
            } else {
                count
            }
        }
        Integers::Tagged => { if number < 0 { count * 8 + 2 } else { count * 8 } }
    }
}

/// Two digits of a number, of 4 bytes each.
fn digits_word(number: u64) -> u64
    requires { number < 2 ^ 60 }
    ensures { result ≡ digits_word number }
{
    number % (1 << 30) + number / (1 << 30) * (1 << 32)
}

/// Adds a number. The one error is out of memory.
fn add_number(out: &mut Vec<u8>, layout: &Layout, klass: u64, number: i64) -> Result<(), AllocError>
    requires sound { IsSound layout.now }
    requires small { unsigned_abs number < 2 ^ 60 }
    ensures { IfOk result (λ _. out.new.items ≡ out.old.items
        ++ aligned (object (number_len layout.now) (number_writes layout.now klass number))) }
{
    let writes = [
        Write {
            at: layout.long.count,
            value: Value::U64(count_for(layout.integers, number)),
        },
        Write {
            at: layout.long.digits,
            value: Value::U64(digits_word(number.unsigned_abs())),
        },
        Write {
            at: layout.object.klass,
            value: Value::U64(klass),
        },
    ];
    add_object(out, number_len(layout) as usize, &writes)
}

/// Adds an item of a list. The one error is out of memory.
#[tactic(auto, unfolding(crate::specs::Values::laid_item))]
fn add_item(
    alloc: Global,
    out: &mut Vec<u8>,
    layout: &Layout,
    types: TypesAt,
    item: &ProgramItem,
) -> Result<(), AllocError>
    requires sound { IsSound layout.now }
    requires valid { IsValidItem (item_in item.now) }
    ensures { IfOk result (λ _. out.new.items ≡ out.old.items ++ laid_item layout.now types (item_in item.now)) }
{
    match item {
        ProgramItem::Number(number) => add_number(out, layout, types.integer, *number),
        ProgramItem::Words(text) => add_text(alloc, out, layout, Some(types.text), text),
    }
}

/// Adds the items of a list. The one error is out of memory.
fn add_items(
    alloc: Global,
    out: &mut Vec<u8>,
    layout: &Layout,
    types: TypesAt,
    items: &[ProgramItem],
) -> Result<(), AllocError>
    requires sound { IsSound layout.now }
    requires valid { AllByRecursion IsValidItem (map item_in items.now) }
    ensures { IfOk result (λ _. out.new.items ≡ out.old.items
        ++ flat_map (laid_item layout.now types) (map item_in items.now)) }
{
    for item in items {
        add_item(alloc, out, layout, types, item)?;
    }
    Ok(())
}

/// The addresses of items that stand one behind the other. The one error is out of memory.
fn item_addresses(
    alloc: Global,
    layout: &Layout,
    at: u64,
    items: &[ProgramItem],
) -> Result<Vec<u8>, AllocError>
    requires sound { IsSound layout.now }
    requires valid { AllByRecursion IsValidItem (map item_in items.now) }
    requires fits { at + sum_by (item_size layout.now) (map item_in items.now) < 2 ^ 63 }
    ensures { IfOk result (λ found. found.items
        ≡ address_array (addresses_from (item_size layout.now) at (map item_in items.now))) }
{
    let mut found = Vec::new(alloc);
    let mut here = at;
    for item in items {
        found.extend_from_slice(&here.to_le_bytes())?;
        here += item_size(layout, item);
    }
    Ok(found)
}

/// Adds a list that is to stand at an address: its record, the addresses of its items, and these. The one error is
/// out of memory.
fn add_list(
    alloc: Global,
    out: &mut Vec<u8>,
    layout: &Layout,
    types: TypesAt,
    at: u64,
    items: &[ProgramItem],
) -> Result<(), AllocError>
    requires sound { IsSound layout.now }
    requires few { length items.now < 65536 }
    requires valid { AllByRecursion IsValidItem (map item_in items.now) }
    requires fits { at + held_size layout.now (Items (map item_in items.now)) < 2 ^ 63 }
    ensures { IfOk result (λ _. out.new.items ≡ out.old.items
        ++ laid_value layout.now types at (Items (map item_in items.now))) }
{
    let count = items.len() as u64;
    let addresses_at = at + rounded(list_len(layout));
    let first = addresses_at + rounded(8 * count);
    let writes = [
        Write {
            at: layout.list.count,
            value: Value::U64(count),
        },
        Write {
            at: layout.list.items,
            value: Value::U64(addresses_at),
        },
        Write {
            at: layout.object.klass,
            value: Value::U64(types.list),
        },
    ];
    add_object(out, list_len(layout) as usize, &writes)?;
    let addresses = item_addresses(alloc, layout, first, items)?;
    add_aligned(out, &addresses)?;
    add_items(alloc, out, layout, types, items)
}

/// Adds a value that is to stand at an address. The one error is out of memory.
pub(crate) fn add_value(
    alloc: Global,
    out: &mut Vec<u8>,
    layout: &Layout,
    types: TypesAt,
    at: u64,
    value: &ProgramValue,
) -> Result<(), AllocError>
    requires sound { IsSound layout.now }
    requires valid { IsValidHeld (program_value value.now) }
    requires fits { at + held_size layout.now (program_value value.now) < 2 ^ 63 }
    ensures { IfOk result (λ _. out.new.items ≡ out.old.items
        ++ laid_value layout.now types at (program_value value.now)) }
{
    match value {
        ProgramValue::Number(number) => add_number(out, layout, types.integer, *number),
        ProgramValue::Words(text) => add_text(alloc, out, layout, Some(types.text), text),
        ProgramValue::List(items) => add_list(alloc, out, layout, types, at, items),
    }
}
