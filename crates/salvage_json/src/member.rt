//! Members: frames with their locals, and those that have no names.
ghost use Rattle.std.specs.Prelude.{◌≡◌, IfOk};
ghost use Rattle.serde_json.specs.View.{view};
ghost use Rattle.repr_json.specs.Shown.{data_in, text_in, type_in};
ghost use Rattle.salvage_json.specs.Members.{frame_tree, kept_text, kept_tree, kind_word, local_tree, locals_tree};
ghost use Rattle.salvage_json.specs.Members.{shown_tree, standing_tree, standings_tree, text_tree};

use crate::kind::{address_value, fault_or_null, why_value};
use elf64_core::Text;
use py_fronts::{Standing, shown_line};
use py_stacks::{Frame, LocalVariable, StackError};
use repr_json::ShownValues;
use serde_json::{Value, json};
use std::alloc::{AllocError, Global};

/// A text, or null.
fn text_value(alloc: Global, text: &Option<Text>) -> Result<Value, AllocError>
    ensures { IfOk result (λ value. view value ≡ text_tree text.now) }
{
    match text {
        Some(text) => Value::try_from_str(alloc, text.as_str()),
        None => Ok(Value::Null),
    }
}

/// The text of a local's value, where one is kept for its address.
fn repr_value(
    alloc: Global,
    values: &ShownValues,
    local: &LocalVariable,
) -> Result<Value, AllocError>
    ensures { IfOk result (λ value. view value
        ≡ kept_text (text_in values.now local.now.addr) (text_tree local.now.repr)) }
{
    match values.text_at(local.addr) {
        Some(text) => Value::try_from_str(alloc, text.as_str()),
        None => text_value(alloc, &local.repr),
    }
}

/// The tree of a value, where one is kept for its address, or null.
fn tree_value(values: &ShownValues, addr: u64) -> Result<Value, AllocError>
    ensures { IfOk result (λ value. view value ≡ kept_tree (data_in values.now addr)) }
{
    match values.tree_at(addr) {
        Some(tree) => tree.clone(),
        None => Ok(Value::Null),
    }
}

/// What a variable is to its function.
fn kind_word(arg: bool) -> &'static str
    ensures { result.now ≡ kind_word arg }
{
    if arg { "argument" } else { "local" }
}

/// The name of the type of a value, where one is kept for its address, or null.
fn type_value(alloc: Global, values: &ShownValues, addr: u64) -> Result<Value, AllocError>
    ensures { IfOk result (λ value. view value ≡ text_tree (type_in values.now addr)) }
{
    match values.type_at(addr) {
        Some(name) => Value::try_from_str(alloc, name.as_str()),
        None => Ok(Value::Null),
    }
}

fn local_value(
    alloc: Global,
    values: &ShownValues,
    local: &LocalVariable,
) -> Result<Value, AllocError>
    ensures { IfOk result (λ value. view value ≡ local_tree values.now local.now) }
{
    let address = address_value(alloc, local.addr)?;
    let repr = repr_value(alloc, values, local)?;
    let tree = tree_value(values, local.addr)?;
    let class = type_value(alloc, values, local.addr)?;
    json!(in alloc; {
        "address": address,
        "arg": local.arg,
        "kind": kind_word(local.arg),
        "name": local.name.as_str(),
        "repr": repr,
        "type": class,
        "value": tree
    })
}

fn locals_value(
    alloc: Global,
    values: &ShownValues,
    locals: &[LocalVariable],
) -> Result<Value, AllocError>
    ensures { IfOk result (λ value. view value ≡ locals_tree values.now locals.now) }
{
    let mut own = Vec::new(alloc);
    for local in locals {
        own.push(local_value(alloc, values, local)?)?;
    }
    Ok(Value::Array(own))
}

/// The locals, where they were asked for and are there.
fn shown_value(
    alloc: Global,
    values: &ShownValues,
    locals: &Option<Vec<LocalVariable>>,
) -> Result<Value, AllocError>
    ensures { IfOk result (λ value. view value ≡ shown_tree values.now locals.now) }
{
    match locals {
        Some(locals) => locals_value(alloc, values, locals),
        None => Ok(Value::Null),
    }
}

fn frame_value(
    alloc: Global,
    values: &ShownValues,
    frame: &Frame,
    fault: &Option<StackError>,
) -> Result<Value, AllocError>
    ensures { IfOk result (λ value. view value ≡ frame_tree values.now frame.now fault.now) }
{
    let line = shown_line(frame.line);
    let locals = shown_value(alloc, values, &frame.locals)?;
    let locals_fault = fault_or_null(alloc, fault)?;
    json!(in alloc; {
        "filename": frame.filename.as_str(),
        "line": line,
        "locals": locals,
        "locals_fault": locals_fault,
        "name": frame.name.as_str()
    })
}

/// What stands for a member.
fn standing_value(
    alloc: Global,
    values: &ShownValues,
    standing: &Standing,
) -> Result<Value, AllocError>
    ensures { IfOk result (λ value. view value ≡ standing_tree values.now standing.now) }
{
    match standing {
        Standing::Frame { frame, fault } => frame_value(alloc, values, frame, fault),
        Standing::Member { address, why } => {
            let address = address_value(alloc, *address)?;
            let why = why_value(alloc, why)?;
            json!(in alloc; {
                "address": address,
                "why": why
            })
        }
    }
}

pub(crate) fn standings_value(
    alloc: Global,
    values: &ShownValues,
    standings: &[Standing],
) -> Result<Value, AllocError>
    ensures { IfOk result (λ value. view value ≡ standings_tree values.now standings.now) }
{
    let mut own = Vec::new(alloc);
    for standing in standings {
        own.push(standing_value(alloc, values, standing)?)?;
    }
    Ok(Value::Array(own))
}
