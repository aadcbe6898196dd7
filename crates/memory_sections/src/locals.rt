//! The values of the locals of the frames that are shown.
ghost use Rattle.std.specs.Prelude.{◌≡◌, IfOk, Ok};
ghost use Rattle.image_memory.specs.Backed.{regions_of};
ghost use Rattle.process_memory.specs.Memory.{byte_at};
ghost use Rattle.py_fields.specs.Sound.{IsSound};
ghost use Rattle.py_process.specs.Facts.{known_of};
ghost use Rattle.repr_types.specs.Symbols.{repr_types_at};
ghost use Rattle.local_values.specs.Values.{AreLocalValues};
ghost use Rattle.memory_sections.specs.Locals.{ValuesAre, instances_of, levels_of, types_told, with_rules};
ghost use Rattle.memory_sections.specs.Told.{coroutine_rule_of, rule_of};

use crate::rule::{coroutine_rule_of, rule_of};
use core_stacks::Process;
use local_values::{LocalValues, read_local_values};
use missed_reads::{Missed, Misses};
use py_fronts::SalvagedInterpreter;
use py_records::Records;
use py_reprs::{CoroutineRule, InstanceRule, ReprError, ReprTypes};
use repr_types::find_repr_types;
use std::alloc::{AllocError, Global};
use thread_names::DictRule;

/// What was read, or that there was no memory left.
fn read_or_wanting<T: Drop>(read: Result<T, ReprError>) -> Result<T, AllocError>
    ensures { IfOk result (λ value. read ≡ Ok value) }
{
    match read {
        Ok(value) => Ok(value),
        Err(_) => Err(AllocError),
    }
}

/// The types by which values are told. Reads that are refused are kept.
fn own_types(alloc: Global, process: &Process, misses: &mut Misses) -> Result<ReprTypes, AllocError>
    ensures { IfOk result (λ types. types ≡ repr_types_at (known_of process.now.info) process.now.layout
        (byte_at (regions_of process.now.dump))) }
{
    let mut view = Missed::new(process.dump.view(), misses);
    let read = find_repr_types(alloc, &process.info, &mut view, &process.layout);
    let types = read_or_wanting(read)?;
    Ok(types)
}

/// By what the attributes of instances are found, by the rule of their dicts.
fn instances_of(rule: Option<DictRule>) -> Option<InstanceRule>
    ensures { result ≡ instances_of rule }
{
    match rule {
        Some(rule) => Some(InstanceRule {
            fields: rule.fields,
            form: rule.form,
        }),
        None => None,
    }
}

/// The same types, with by what attributes are found, and names and states of coroutines.
fn with_rules(
    types: ReprTypes,
    instances: Option<InstanceRule>,
    coroutines: Option<CoroutineRule>,
) -> ReprTypes
    ensures { result ≡ with_rules types instances coroutines }
{
    ReprTypes {
        instances,
        coroutines,
        ..types
    }
}

/// By what values are told, by the rule of instances' dicts and that of coroutines. Reads that are refused are kept.
fn types_told(
    alloc: Global,
    process: &Process,
    rule: Option<DictRule>,
    coroutines: Option<CoroutineRule>,
    misses: &mut Misses,
) -> Result<ReprTypes, AllocError>
    ensures { IfOk result (λ types. types ≡ types_told rule coroutines (known_of process.now.info)
        process.now.layout (byte_at (regions_of process.now.dump))) }
{
    let types = own_types(alloc, process, misses)?;
    Ok(with_rules(types, instances_of(rule), coroutines))
}

/// The values, by so many `-l`. Reads that are refused are kept.
fn own_values(
    alloc: Global,
    process: &Process,
    misses: &mut Misses,
    types: &ReprTypes,
    levels: u32,
    interpreters: &[SalvagedInterpreter],
) -> Result<LocalValues, AllocError>
    requires sound { IsSound process.now.layout }
    ensures { IfOk result (AreLocalValues process.now.layout types.now levels
        (byte_at (regions_of process.now.dump)) interpreters.now) }
{
    let mut view = Missed::new(process.dump.view(), misses);
    let read = read_local_values(
        alloc,
        &mut view,
        &process.layout,
        types,
        levels,
        interpreters,
    );
    let values = read_or_wanting(read)?;
    Ok(values)
}

/// By how many `-l` values are shown: by five at most.
fn levels_of(times: u64) -> u32
    ensures { result ≡ levels_of times }
{
    times.min(5) as u32
}

/// The values of the locals of the frames that are shown, where `-l` was given at least once. Reads that are refused
/// are kept.
pub(crate) fn values_section(
    alloc: Global,
    times: u64,
    process: &Process,
    records: &Records,
    misses: &mut Misses,
    interpreters: &[SalvagedInterpreter],
) -> Result<Option<LocalValues>, AllocError>
    requires sound { IsSound process.now.layout }
    ensures { IfOk result (ValuesAre times (known_of process.now.info) process.now.layout
        (rule_of process.now.layout records.now) (coroutine_rule_of process.now.layout records.now)
        (byte_at (regions_of process.now.dump)) interpreters.now) }
{
    if times == 0 {
        return Ok(None);
    }
    let rule = rule_of(&process.layout, records);
    let coroutines = coroutine_rule_of(&process.layout, records);
    let types = types_told(alloc, process, rule, coroutines, misses)?;
    let levels = levels_of(times);
    let values = own_values(alloc, process, misses, &types, levels, interpreters)?;
    Ok(Some(values))
}
