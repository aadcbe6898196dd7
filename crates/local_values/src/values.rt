//! The values of locals.
ghost use Rattle.std.specs.Prelude.{◌≡◌, ◌*◌, ℕ, IfOk, OnOk, length, option_copied, option_map};
ghost use Rattle.process_memory.specs.Seen.{Reading};
ghost use Rattle.py_fields.specs.Sound.{IsSound};
ghost use Rattle.py_reprs.specs.Trees.{tree_of};
ghost use Rattle.local_values.specs.Addresses.{shown_addresses};
ghost use Rattle.py_reprs.specs.Values.{repr_at};
ghost use Rattle.local_values.specs.Values.{AreLocalValues, AreValues, IsRound, held_in, local_cost, rounds_cost};
ghost use Rattle.local_values.specs.Values.{rounds_of, type_in, value_in, values_cost, with_value};

use crate::addresses::shown_addresses;
use crate::nodes::left_after;
use crate::types::read_type_names;
use elf64_core::Text;
use process_memory::ProcessMemory;
use py_fields::Layout;
use py_fronts::SalvagedInterpreter;
use py_reprs::{Limits, Repr, ReprError, ReprTypes, read_repr};
use std::alloc::Global;
use std::collections::BTreeMap;

/// How many values are read of a process, with those within them, until no other is begun.
const NODE_LIMIT: u64 = 1_048_576;

/// The values of the locals that are shown, by their addresses.
#[derive(Drop)]
pub struct LocalValues {
    values: BTreeMap<u64, Repr>,
    left_out: u64,
    names: BTreeMap<u64, Option<Text>>,
}

impl LocalValues {
    /// The value at an address; none where it was not read: no local that is shown has it, or so many nodes were taken
    /// by the values before it. It takes the time of some comparisons, as many as halve the values.
    pub fn get(&self, addr: u64) -> Option<&Repr>
        ensures { option_map tree_of (option_copied result) ≡ value_in self.now addr }
    {
        self.values.get(&addr)
    }

    /// How many addresses of locals that are shown have no value here, each counted once: before them so many nodes
    /// were taken.
    pub fn left_out(&self) -> u64
        ensures { result ≡ self.now.left_out }
    {
        self.left_out
    }

    /// The name of the type of the value at an address; none where no local that is shown has that, or the name can't
    /// be read. It is known of what is left out too.
    pub fn type_name(&self, addr: u64) -> Option<&Text>
        ensures { option_copied result ≡ type_in self.now addr }
    {
        match self.names.get(&addr) {
            Some(name) => name.as_ref(),
            None => None,
        }
    }
}

/// The values that were read in some rounds.
#[derive(Drop)]
struct Rounds {
    values: BTreeMap<u64, Repr>,
    left_out: u64,
}

/// Keeps the value at an address. The one error is out of memory.
fn keep(values: &mut BTreeMap<u64, Repr>, addr: u64, value: Repr) -> Result<(), ReprError>
    ensures { OnOk result ((a : ℕ) → held_in values.new a ≡ with_value (held_in values.old) addr (tree_of value) a) }
{
    values.insert(addr, value)?;
    Ok(())
}

/// Reads the values at some addresses, as they are shown within limits, until those that were read have so many nodes:
/// each takes the place of the one that was there before. How many addresses are behind is told.
fn read_round<P: ProcessMemory>(
    alloc: Global,
    process: &mut P,
    layout: &Layout,
    types: &ReprTypes,
    limits: &Limits,
    addresses: &[u64],
    values: &mut BTreeMap<u64, Repr>,
) -> Result<u64, ReprError>
    requires sound { IsSound layout.now }
    ensures { Reading (length addresses.now * local_cost limits.now) (P.seen process.old) (P.seen process.new)
        (λ m. IfOk result (IsRound
        (λ a. repr_at layout.now types.now limits.now m limits.now.levels limits.now.nodes a)
        addresses.now (held_in values.old) (held_in values.new))) }
{
    let mut left = NODE_LIMIT;
    for number in 0..addresses.len() {
        if left == 0 {
            return Ok((addresses.len() - number) as u64);
        }
        let addr = addresses[number];
        let value = read_repr(alloc, process, layout, types, limits, addr)?;
        left = left_after(left, &value);
        keep(values, addr, value)?;
    }
    Ok(0)
}

/// The values at some addresses, by so many rounds. See `read_local_values`.
fn read_rounds<P: ProcessMemory>(
    alloc: Global,
    process: &mut P,
    layout: &Layout,
    types: &ReprTypes,
    rounds: u32,
    addresses: &[u64],
) -> Result<Rounds, ReprError>
    requires sound { IsSound layout.now }
    ensures { Reading (rounds_cost (length addresses.now) rounds) (P.seen process.old) (P.seen process.new)
        (λ m. IfOk result (λ found. AreValues layout.now types.now m rounds addresses.now
        (held_in found.values) found.left_out)) }
{
    if rounds == 0 {
        return Ok(Rounds {
            values: BTreeMap::new(alloc),
            left_out: addresses.len() as u64,
        });
    }
    let found = read_rounds(alloc, process, layout, types, rounds - 1, addresses)?;
    let limits = Limits::at(rounds);
    let mut values = found.values;
    let behind = read_round(
        alloc,
        process,
        layout,
        types,
        &limits,
        addresses,
        &mut values,
    )?;
    let left_out = found.left_out.min(behind);
    Ok(Rounds { values, left_out })
}

/// How many rounds there are by so many `-l`: from one to five.
fn rounds_of(times: u32) -> u32
    ensures { result ≡ rounds_of times }
{
    times.max(1).min(5)
}

/// The values of the locals of all frames that are shown of these interpreters, by so many `-l`.
///
/// They are read in rounds: each address by one `-l` (`Limits::at`), then each by two, and so on, from one round to
/// five. In each the addresses stand in the order of `shown_addresses`, and one is read where those before it have
/// fewer than 2^20 nodes together in that round, one for each value and one for each within it. The value at an address
/// is that of the last round in which it was read, so that an address that has one by fewer `-l` has one by more. The
/// addresses that were read in no round are left out, and counted.
///
/// What is not in memory is told in the values. The one error is out of memory. At most as many reads for each address
/// and round as `read_repr` makes, and 17 for each address.
pub fn read_local_values<P: ProcessMemory>(
    alloc: Global,
    process: &mut P,
    layout: &Layout,
    types: &ReprTypes,
    l: u32,
    interpreters: &[SalvagedInterpreter],
) -> Result<LocalValues, ReprError>
    requires sound { IsSound layout.now }
    ensures { Reading (values_cost (length (shown_addresses interpreters.now)) (rounds_of l))
        (P.seen process.old) (P.seen process.new)
        (λ m. IfOk result (AreLocalValues layout.now types.now l m interpreters.now)) }
{
    let addresses = shown_addresses(alloc, interpreters)?;
    let rounds = rounds_of(l);
    let found = read_rounds(alloc, process, layout, types, rounds, &addresses)?;
    let names = read_type_names(alloc, process, layout, types, &addresses)?;
    Ok(LocalValues {
        values: found.values,
        left_out: found.left_out,
        names,
    })
}
