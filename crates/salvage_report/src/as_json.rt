//! What is left of a process, and what is told in its sections, as JSON.
ghost use Rattle.std.specs.Prelude.{◌≡◌, false, IfOk, OnOk, string_bytes};
ghost use Rattle.serde_json.specs.Data.{no_members};
ghost use Rattle.serde_json.specs.View.{members_view, view};
ghost use Rattle.serde_json.specs.Written.{has_float};
ghost use Rattle.crash_signal.specs.Trees.{signal_tree as info_tree};
ghost use Rattle.thread_registers.specs.Trees.{threads_tree};
ghost use Rattle.missed_reads.specs.Told.{missed_tree, told_of};
ghost use Rattle.py_selftest.specs.Trees.{check_tree};
ghost use Rattle.repr_json.specs.Shown.{HasNoFloat};
ghost use Rattle.salvage_report.specs.LayoutChecked.{check_of};
ghost use Rattle.salvage_report.specs.Tree.{first_members, left_json, left_tree, most_members, missing_json};
ghost use Rattle.salvage_report.specs.Tree.{missing_tree, pretty_text, section_tree, told_version, with_last};
ghost use Rattle.salvage_report.specs.Sections.{missing_shown, registers_shown};

use crate::left::Left;
use crash_signal::{CrashSignal, Untold};
use memory_sections::{
    exceptions_value, heap_value, names_told, names_value, native_value, paired_value, tasks_value,
    waits_value,
};
use missed_reads::{MissedBlocks, Misses, missed_blocks, missed_value};
use py_layout::Version;
use py_selftest::{LayoutCheck, check_value};
use salvage_json::{ended_value, interpreters_value, process_value, signal_value};
use serde_json::{Map, Value, json, put};
use shown_values::put_left_out;
use std::alloc::{AllocError, Global};
use thread_registers::{ThreadRegisters, threads_value};

/// How the signal came about, or null.
fn info_value(
    alloc: Global,
    told: &Option<Result<CrashSignal, Untold>>,
) -> Result<Value, AllocError>
    ensures { IfOk result (λ value. view value ≡ section_tree info_tree told.now) }
{
    match told {
        Some(told) => crash_signal::signal_value(alloc, told),
        None => Ok(Value::Null),
    }
}

/// The threads with their registers, or null.
fn registers_value(alloc: Global, told: &Option<Vec<ThreadRegisters>>) -> Result<Value, AllocError>
    ensures { IfOk result (λ value. view value ≡ section_tree threads_tree (registers_shown told.now)) }
{
    match told {
        Some(threads) => threads_value(alloc, threads),
        None => Ok(Value::Null),
    }
}

/// Which reads were refused, or null.
fn missing_value(alloc: Global, told: &Option<MissedBlocks>) -> Result<Value, AllocError>
    ensures { IfOk result (λ value. view value ≡ section_tree missed_tree (missing_shown told.now)) }
{
    match told {
        Some(missed) => missed_value(alloc, missed),
        None => Ok(Value::Null),
    }
}

/// What the process says of the layout, or null.
fn layout_value(alloc: Global, check: &Option<LayoutCheck>) -> Result<Value, AllocError>
    ensures { IfOk result (λ value. view value ≡ section_tree check_tree (check_of check.now)) }
{
    match check {
        Some(check) => check_value(alloc, check),
        None => Ok(Value::Null),
    }
}

/// The version; of one that the names of files tell the major and the minor number alone.
fn version_of(alloc: Global, named: bool, version: &Version) -> Result<String, AllocError>
    ensures { IfOk result (λ text. string_bytes text ≡ told_version named version.now) }
{
    if named {
        let (major, minor) = (version.major, version.minor);
        return format!(in alloc; "{major}.{minor}");
    }
    format!(in alloc; "{version}")
}

/// The members whose keys stand first in the order of their bytes.
fn first_members(alloc: Global, limit: usize, left: &Left) -> Result<Map<String, Value>, AllocError>
    ensures { IfOk result (λ map. members_view map.entries ≡ first_members limit left.now no_members) }
{
    let salvaged = &left.salvaged;
    let exceptions = exceptions_value(alloc, &left.memory)?;
    let heap = heap_value(alloc, &left.memory)?;
    let told = names_told(&left.memory);
    let interpreters = interpreters_value(
        alloc,
        &left.values,
        salvaged.crash,
        told,
        &salvaged.interpreters,
    )?;
    let layout_check = layout_value(alloc, &left.check)?;
    let missing = missing_value(alloc, &left.told.missing)?;
    let names = names_value(alloc, &left.memory)?;
    let native = native_value(alloc, limit, &left.memory)?;
    let mut map = Map::new(alloc);
    put(&mut map, alloc, "exceptions", exceptions)?;
    put(&mut map, alloc, "heap", heap)?;
    put(&mut map, alloc, "interpreters", interpreters)?;
    put(&mut map, alloc, "layout_check", layout_check)?;
    put(&mut map, alloc, "missing", missing)?;
    put(&mut map, alloc, "more", Value::Bool(salvaged.more))?;
    put(&mut map, alloc, "names", names)?;
    put(&mut map, alloc, "native", native)?;
    Ok(map)
}

/// These and those behind them, but the last ones: how many values are left out, and the version.
fn most_members(alloc: Global, limit: usize, left: &Left) -> Result<Map<String, Value>, AllocError>
    ensures { IfOk result (λ map. members_view map.entries ≡ most_members limit left.now no_members) }
{
    let mut map = first_members(alloc, limit, left)?;
    let process = process_value(alloc, &left.process)?;
    let registers = registers_value(alloc, &left.told.registers)?;
    let search_ended = ended_value(alloc, &left.salvaged.looked)?;
    let signal = signal_value(alloc, left.signal)?;
    let signal_info = info_value(alloc, &left.told.signal)?;
    let stacks = paired_value(alloc, &left.memory)?;
    let tasks = tasks_value(alloc, &left.memory)?;
    put(&mut map, alloc, "process", process)?;
    put(&mut map, alloc, "registers", registers)?;
    put(&mut map, alloc, "search_ended", search_ended)?;
    put(&mut map, alloc, "signal", signal)?;
    put(&mut map, alloc, "signal_info", signal_info)?;
    put(&mut map, alloc, "stacks", stacks)?;
    put(&mut map, alloc, "tasks", tasks)?;
    Ok(map)
}

/// How many values are left out, the version, and what threads wait for.
fn put_last(alloc: Global, map: &mut Map<String, Value>, left: &Left) -> Result<(), AllocError>
    ensures { OnOk result (members_view map.new.entries ≡ with_last left.now (members_view map.old.entries)) }
{
    let version = version_of(alloc, left.named, &left.version)?;
    let waits = waits_value(alloc, &left.memory)?;
    put_left_out(alloc, map, &left.memory.values)?;
    put(map, alloc, "version", Value::String(version))?;
    put(map, alloc, "version_by_names", Value::Bool(left.named))?;
    put(map, alloc, "waits", waits)
}

fn left_value(alloc: Global, limit: usize, left: &Left) -> Result<Value, AllocError>
    ensures { IfOk result (λ value. view value ≡ left_tree limit left.now) }
{
    let mut map = most_members(alloc, limit, left)?;
    put_last(alloc, &mut map, left)?;
    Ok(Value::Object(map))
}

/// The text of a value that has no float.
fn pretty(alloc: Global, value: &Value) -> Result<String, AllocError>
    requires { has_float (view value.now) ≡ false }
    ensures { IfOk result (λ text. string_bytes text ≡ pretty_text (view value.now)) }
{
    value.to_string_pretty(alloc)
}

/// All of it as one object, on lines, with a line feed at the end. The keys stand in the order of their bytes. The key
/// of a section that isn't asked for is null. Of a native stack the first and the last `limit` frames are there. The
/// one error is out of memory.
pub(crate) fn left_json(alloc: Global, limit: usize, left: &Left) -> Result<String, AllocError>
    requires { HasNoFloat left.now.values }
    ensures { IfOk result (λ text. string_bytes text ≡ left_json limit left.now) }
{
    let value = left_value(alloc, limit, left)?;
    let mut text = pretty(alloc, &value)?;
    text.push_str("\n")?;
    Ok(text)
}

/// An object that tells which reads were refused.
fn refused_value(alloc: Global, misses: &Misses) -> Result<Value, AllocError>
    ensures { IfOk result (λ value. view value ≡ missing_tree (told_of misses.now)) }
{
    let missed = missed_blocks(alloc, misses)?;
    let missing = missed_value(alloc, &missed)?;
    json!(in alloc; {"missing": missing})
}

/// Which reads were refused, as one object, on lines, with a line feed at the end. The one error is out of memory.
pub(crate) fn missing_json(alloc: Global, misses: &Misses) -> Result<String, AllocError>
    ensures { IfOk result (λ text. string_bytes text ≡ missing_json (told_of misses.now)) }
{
    let value = refused_value(alloc, misses)?;
    let mut text = pretty(alloc, &value)?;
    text.push_str("\n")?;
    Ok(text)
}
