//! What threads raise and handle, as a JSON value.
ghost use Rattle.std.specs.Prelude.{◌≡◌, IfOk};
ghost use Rattle.serde_json.specs.View.{view};
ghost use Rattle.exception_texts.specs.Trees.{end_at, fault_tree, item_tree, items_tree, named_tree, own_parts_tree};
ghost use Rattle.exception_texts.specs.Trees.{parts_tree, raised_tree, running_tree, thread_tree, threads_tree};

use crate::told::ThreadTold;
use crate::tree::{
    address_value, class_value, end_at, end_value, link_value, lost_value, objects_value,
    own_frames_value, repr_value,
};
use py_exceptions::RaisedParts;
use serde_json::{Value, json};
use std::alloc::{AllocError, Global};
use thread_exceptions::{Handled, Owner, Raised, Value as Named};

/// What is raised by its type and what it is made of.
fn parts_value(alloc: Global, value: u64, parts: &RaisedParts) -> Result<Value, AllocError>
    ensures { IfOk result (λ own. view own ≡ parts_tree value parts.now) }
{
    let address = link_value(alloc, value)?;
    let frames = own_frames_value(alloc, &parts.traceback)?;
    let class = class_value(alloc, &parts.class)?;
    let made_of = repr_value(alloc, &parts.value)?;
    json!(in alloc; {
        "address": address,
        "frames": frames,
        "kind": "parts",
        "type": class,
        "value": made_of
    })
}

/// The same, where it is told.
fn own_parts_value(
    alloc: Global,
    value: u64,
    parts: &Option<RaisedParts>,
) -> Result<Value, AllocError>
    ensures { IfOk result (λ own. view own ≡ own_parts_tree value parts.now) }
{
    match parts {
        Some(parts) => parts_value(alloc, value, parts),
        None => end_at(alloc, "parts", value),
    }
}

/// What is raised, or null.
fn raised_value(
    alloc: Global,
    raised: Raised,
    parts: &Option<RaisedParts>,
) -> Result<Value, AllocError>
    ensures { IfOk result (λ own. view own ≡ raised_tree raised parts.now) }
{
    match raised {
        Raised::Nothing => Ok(Value::Null),
        Raised::Exception { addr } => end_at(alloc, "exception", addr),
        Raised::Parts { value, .. } => own_parts_value(alloc, value, parts),
        Raised::Unreadable(lost) => lost_value(alloc, lost),
    }
}

/// Whose an item is: what runs, or null where it is the thread's own.
fn owner_of_item(alloc: Global, owner: Owner) -> Result<Value, AllocError>
    ensures { IfOk result (λ own. view own ≡ running_tree owner) }
{
    match owner {
        Owner::Thread => Ok(Value::Null),
        Owner::Running { addr } => address_value(alloc, addr),
    }
}

/// The address that an item names, or null.
fn named_value(alloc: Global, value: Named) -> Result<Value, AllocError>
    ensures { IfOk result (λ own. view own ≡ named_tree value) }
{
    match value {
        Named::At(addr) => link_value(alloc, addr),
        Named::Unreadable(_) => Ok(Value::Null),
    }
}

/// Why it is not known what an item names, or null.
fn fault_value(alloc: Global, value: Named) -> Result<Value, AllocError>
    ensures { IfOk result (λ own. view own ≡ fault_tree value) }
{
    match value {
        Named::At(_) => Ok(Value::Null),
        Named::Unreadable(lost) => lost_value(alloc, lost),
    }
}

/// An item.
fn item_value(alloc: Global, item: &Handled) -> Result<Value, AllocError>
    ensures { IfOk result (λ own. view own ≡ item_tree item.now) }
{
    let address = named_value(alloc, item.value)?;
    let fault = fault_value(alloc, item.value)?;
    let running = owner_of_item(alloc, item.owner)?;
    json!(in alloc; {
        "address": address,
        "fault": fault,
        "running": running
    })
}

/// The items, the newest one first.
fn items_value(alloc: Global, items: &[Handled]) -> Result<Value, AllocError>
    ensures { IfOk result (λ own. view own ≡ items_tree items.now) }
{
    let mut own = Vec::new(alloc);
    for item in items {
        own.push(item_value(alloc, item)?)?;
    }
    Ok(Value::Array(own))
}

/// A thread.
fn thread_value(alloc: Global, thread: &ThreadTold) -> Result<Value, AllocError>
    ensures { IfOk result (λ own. view own ≡ thread_tree thread.now) }
{
    let told = &thread.told;
    let end = end_value(alloc, told.thread.end)?;
    let objects = objects_value(alloc, told)?;
    let items = items_value(alloc, &told.thread.handled)?;
    let raised = raised_value(alloc, told.thread.raised, &told.raised)?;
    json!(in alloc; {
        "end": end,
        "exceptions": objects,
        "handled": items,
        "raised": raised,
        "thread_id": thread.thread_id
    })
}

/// Threads, in order.
pub(crate) fn threads_value(alloc: Global, threads: &[ThreadTold]) -> Result<Value, AllocError>
    ensures { IfOk result (λ own. view own ≡ threads_tree threads.now) }
{
    let mut own = Vec::new(alloc);
    for thread in threads {
        own.push(thread_value(alloc, thread)?)?;
    }
    Ok(Value::Array(own))
}
