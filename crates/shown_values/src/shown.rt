//! The values of locals, as they are shown.
ghost use Rattle.std.specs.Prelude.{◌≡◌, IfOk, OnOk, Some, option_copied};
ghost use Rattle.local_values.specs.Addresses.{shown_addresses};
ghost use Rattle.py_reprs.specs.Trees.{tree_of};
ghost use Rattle.local_values.specs.Values.{type_in, value_in};
ghost use Rattle.repr_json.specs.Shown.{KeepsType};
ghost use Rattle.shown_values.specs.Values.{AreShown, Keeps, KeepsFound, KeepsOne};

use elf64_core::Text;
use local_values::{LocalValues, shown_addresses};
use py_fronts::SalvagedInterpreter;
use py_reprs::Repr;
use repr_json::ShownValues;
use std::alloc::{AllocError, Global};

/// Keeps the text of a value for an address, and its JSON where that is wanted.
fn keep(
    alloc: Global,
    json: bool,
    shown: &mut ShownValues,
    addr: u64,
    value: &Repr,
) -> Result<(), AllocError>
    ensures { OnOk result (Keeps json addr (tree_of value.now) shown.old shown.new) }
{
    shown.keep_text(alloc, addr, value)?;
    if json {
        return shown.keep_json(alloc, addr, value);
    }
    Ok(())
}

/// Keeps the value at an address, where there is one.
fn keep_found(
    alloc: Global,
    json: bool,
    shown: &mut ShownValues,
    values: &LocalValues,
    addr: u64,
) -> Result<(), AllocError>
    ensures { OnOk result (KeepsFound json addr (value_in values.now addr) shown.old shown.new) }
{
    match values.get(addr) {
        Some(value) => keep(alloc, json, shown, addr, value),
        None => Ok(()),
    }
}

/// A name once more, if there is one.
fn shared(name: Option<&Text>) -> Result<Option<Text>, AllocError>
    ensures { IfOk result (λ own. own ≡ option_copied name.entry) }
{
    match name {
        Some(name) => Ok(Some(name.share()?)),
        None => Ok(None),
    }
}

/// Keeps the name of the type of the value at an address, or that it has none.
fn keep_type(shown: &mut ShownValues, values: &LocalValues, addr: u64) -> Result<(), AllocError>
    ensures { OnOk result (KeepsType addr (type_in values.now addr) shown.old shown.new) }
{
    let name = shared(values.type_name(addr))?;
    shown.keep_type(addr, name)
}

/// Keeps what there is for an address.
fn keep_one(
    alloc: Global,
    json: bool,
    shown: &mut ShownValues,
    values: &LocalValues,
    addr: u64,
) -> Result<(), AllocError>
    ensures { OnOk result (KeepsOne json addr (value_in values.now addr) (type_in values.now addr)
        shown.old shown.new) }
{
    keep_found(alloc, json, shown, values, addr)?;
    keep_type(shown, values, addr)
}

/// The values at some addresses, as they are shown.
fn show_each(
    alloc: Global,
    json: bool,
    values: &LocalValues,
    addresses: &[u64],
) -> Result<ShownValues, AllocError>
    ensures { IfOk result (AreShown json (Some values.now) addresses.now) }
{
    let mut shown = ShownValues::new(alloc);
    for addr in addresses {
        keep_one(alloc, json, &mut shown, values, *addr)?;
    }
    Ok(shown)
}

/// The values of the locals of some interpreters, as they are shown, with the names of their types: none where none are
/// asked for. The one error is out of memory.
pub fn shown_values(
    alloc: Global,
    json: bool,
    values: &Option<LocalValues>,
    interpreters: &[SalvagedInterpreter],
) -> Result<ShownValues, AllocError>
    ensures { IfOk result (AreShown json values.now (shown_addresses interpreters.now)) }
{
    let Some(values) = values else {
        return Ok(ShownValues::new(alloc));
    };
    let addresses = shown_addresses(alloc, interpreters)?;
    show_each(alloc, json, values, &addresses)
}
