//! Values, with the values within them.
ghost use Rattle.std.specs.Prelude.{◌≡◌, ◌*◌, ◌+◌, IfOk, length, map};
ghost use Rattle.process_memory.specs.Seen.{Reading};
ghost use Rattle.py_fields.specs.Sound.{IsSound};
ghost use Rattle.py_reprs.specs.Levels.{level_at, level_of};
ghost use Rattle.py_reprs.specs.Trees.{tree_of};
ghost use Rattle.py_reprs.specs.Values.{closed, level_cost, opened, placed, repr_at, value_cost};

use crate::error::ReprError;
use crate::kinds::{Kind, ReprTypes};
use crate::levels::{Level, read_level};
use crate::limits::Limits;
use crate::places::Place;
use crate::repr::Repr;
use process_memory::ProcessMemory;
use py_fields::Layout;
use std::alloc::Global;

/// The value at an address, as it is shown within limits.
///
/// It is told what it is by the address of its type, else by the flags of that, else it is an object of another type:
/// its class's name and its address are shown, and its first attributes with their names, as the entries of a dict are,
/// where it has some that can be read and it is said how instances have theirs (`ReprTypes::instances`). A coroutine, a
/// generator and an async generator show their names and how far they have come, where that can be read and it is said
/// how they stand (`ReprTypes::coroutines`). A text and bytes show their first characters, and a container its first
/// items, each as a value, with how much is left out. Of so many nodes each of a container's shown items has an equal share for the
/// values within it, less the items themselves; below the last level, and where no node is left, nothing of a container is
/// shown but how many items it has. So a list of itself ends.
///
/// What is not in memory is `Lost`, and a record that can't be is `Damaged`: each costs the value that it breaks. An
/// address of 0 is `Absent`. The one error is out of memory, and memory is taken for what is shown alone, whatever length
/// a record states.
///
/// At most 1 more than the nodes times one read for each 1,024 characters, 8 for each item and 16 more; each of fewer than
/// 65,536 bytes.
pub fn read_repr<P: ProcessMemory>(
    alloc: Global,
    process: &mut P,
    layout: &Layout,
    types: &ReprTypes,
    limits: &Limits,
    addr: u64,
) -> Result<Repr, ReprError>
    requires sound { IsSound layout.now }
    ensures { Reading (value_cost limits.now limits.now.nodes) (P.seen process.old) (P.seen process.new)
        (λ m. IfOk result (λ value. tree_of value
        ≡ repr_at layout.now types.now limits.now m limits.now.levels limits.now.nodes addr)) }
{
    read_value(
        alloc,
        process,
        layout,
        types,
        limits,
        limits.levels,
        limits.nodes,
        addr,
    )
}

/// The value at an address, where so many levels are opened, and so many nodes are left for the values within it.
#[cycle(value)]
fn read_value<P: ProcessMemory>(
    alloc: Global,
    process: &mut P,
    layout: &Layout,
    types: &ReprTypes,
    limits: &Limits,
    levels: u32,
    nodes: u32,
    addr: u64,
) -> Result<Repr, ReprError>
    requires sound { IsSound layout.now }
    ensures { Reading (value_cost limits.now nodes) (P.seen process.old) (P.seen process.new)
        (λ m. IfOk result (λ value. tree_of value
        ≡ repr_at layout.now types.now limits.now m levels nodes addr)) }
{
    if levels == 0 {
        return read_closed(alloc, process, layout, types, limits, addr);
    }
    read_opened(
        alloc,
        process,
        layout,
        types,
        limits,
        levels - 1,
        nodes,
        addr,
    )
}

/// The value at an address, of which nothing within is shown.
fn read_closed<P: ProcessMemory>(
    alloc: Global,
    process: &mut P,
    layout: &Layout,
    types: &ReprTypes,
    limits: &Limits,
    addr: u64,
) -> Result<Repr, ReprError>
    requires sound { IsSound layout.now }
    ensures { Reading (level_cost limits.now) (P.seen process.old) (P.seen process.new)
        (λ m. IfOk result (λ value. tree_of value ≡ closed (level_at layout.now types.now limits.now m 0 addr))) }
{
    let level = read_level(alloc, process, layout, types, limits, 0, addr)?;
    Ok(closed(alloc, level))
}

/// A value of which nothing within is shown.
fn closed(alloc: Global, level: Level) -> Repr
    ensures { tree_of result ≡ closed (level_of level) }
{
    match level {
        Level::Whole(value) => value,
        Level::Row { form, left_out, .. } => Repr::Items {
            form,
            items: Vec::new(alloc),
            left_out,
        },
        Level::Entries { left_out, .. } => Repr::Pairs {
            keys: Vec::new(alloc),
            values: Vec::new(alloc),
            left_out,
        },
        Level::Attributes {
            class,
            addr,
            left_out,
            ..
        } => Repr::Instance {
            class,
            addr,
            names: Vec::new(alloc),
            values: Vec::new(alloc),
            left_out,
        },
    }
}

/// The value at an address, whose items have so many levels.
#[cycle(value)]
fn read_opened<P: ProcessMemory>(
    alloc: Global,
    process: &mut P,
    layout: &Layout,
    types: &ReprTypes,
    limits: &Limits,
    levels: u32,
    nodes: u32,
    addr: u64,
) -> Result<Repr, ReprError>
    requires sound { IsSound layout.now }
    ensures { Reading (value_cost limits.now nodes) (P.seen process.old) (P.seen process.new)
        (λ m. IfOk result (λ value. tree_of value
        ≡ opened (λ s x. repr_at layout.now types.now limits.now m levels s x)
        (level_at layout.now types.now limits.now m nodes addr))) }
{
    let level = read_level(alloc, process, layout, types, limits, nodes, addr)?;
    match level {
        Level::Whole(value) => Ok(value),
        Level::Row {
            form,
            places,
            share,
            left_out,
        } => {
            let items = read_all(
                alloc, process, layout, types, limits, levels, share, &places,
            )?;
            Ok(Repr::Items {
                form,
                items,
                left_out,
            })
        }
        Level::Entries {
            keys,
            values,
            share,
            left_out,
        } => {
            let keys = read_all(alloc, process, layout, types, limits, levels, share, &keys)?;
            let values = read_all(
                alloc, process, layout, types, limits, levels, share, &values,
            )?;
            Ok(Repr::Pairs {
                keys,
                values,
                left_out,
            })
        }
        Level::Attributes {
            class,
            addr: at,
            names,
            values,
            share,
            left_out,
        } => {
            let names = read_all(alloc, process, layout, types, limits, levels, share, &names)?;
            let values = read_all(
                alloc, process, layout, types, limits, levels, share, &values,
            )?;
            Ok(Repr::Instance {
                class,
                addr: at,
                names,
                values,
                left_out,
            })
        }
    }
}

/// The values at some places, each with this share of the nodes.
#[cycle(value)]
fn read_all<P: ProcessMemory>(
    alloc: Global,
    process: &mut P,
    layout: &Layout,
    types: &ReprTypes,
    limits: &Limits,
    levels: u32,
    share: u32,
    places: &[Place],
) -> Result<Vec<Repr>, ReprError>
    requires sound { IsSound layout.now }
    ensures { Reading (length places.now * value_cost limits.now share) (P.seen process.old) (P.seen process.new)
        (λ m. IfOk result (λ values. map tree_of values.items
        ≡ map (placed (λ s x. repr_at layout.now types.now limits.now m levels s x) share) places.now)) }
{
    let mut values = Vec::new(alloc);
    for number in 0..places.len() {
        let value = read_placed(
            alloc,
            process,
            layout,
            types,
            limits,
            levels,
            share,
            places[number],
        )?;
        values.push(value)?;
    }
    Ok(values)
}

/// The value at a place, with this share of the nodes.
#[cycle(value)]
fn read_placed<P: ProcessMemory>(
    alloc: Global,
    process: &mut P,
    layout: &Layout,
    types: &ReprTypes,
    limits: &Limits,
    levels: u32,
    share: u32,
    place: Place,
) -> Result<Repr, ReprError>
    requires sound { IsSound layout.now }
    ensures { Reading (value_cost limits.now share) (P.seen process.old) (P.seen process.new)
        (λ m. IfOk result (λ value. tree_of value
        ≡ placed (λ s x. repr_at layout.now types.now limits.now m levels s x) share place)) }
{
    match place {
        Place::At(addr) => read_value(alloc, process, layout, types, limits, levels, share, addr),
        Place::Gap { addr, len } => Ok(Repr::Lost {
            kind: Kind::Other,
            addr,
            len,
        }),
    }
}
