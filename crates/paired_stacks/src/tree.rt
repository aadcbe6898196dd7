//! Paired stacks as a JSON value.
ghost use Rattle.std.specs.Prelude.{◌≡◌, IfOk, false, get_or, string_bytes};
ghost use Rattle.serde_json.specs.View.{view};
ghost use Rattle.serde_json.specs.Written.{has_float};
ghost use Rattle.native_frames.specs.Text.{address_text};
ghost use Rattle.thread_registers.specs.Trees.{kind_tree};
ghost use Rattle.paired_stacks.specs.Trees.{all_tree, item_tree, items_tree, native_tree, pairing_name};
ghost use Rattle.paired_stacks.specs.Trees.{python_tree, stack_tree, stack_tree_if};

use crate::laid::Pairing;
use crate::stack::PairedStack;
use native_pairs::Item;
use serde_json::{Value, json};
use std::alloc::{AllocError, Global};

/// An address: `0x` and lower-case hexadecimal digits.
fn address_text(alloc: Global, address: u64) -> Result<String, AllocError>
    ensures { IfOk result (λ text. string_bytes text ≡ address_text address) }
{
    format!(in alloc; "0x{address:x}")
}

/// A kind without values.
fn kind_value(alloc: Global, kind: &str) -> Result<Value, AllocError>
    ensures { IfOk result (λ value. view value ≡ kind_tree kind.now) }
{
    json!(in alloc; {"kind": kind})
}

fn python_value(alloc: Global, frame: usize) -> Result<Value, AllocError>
    ensures { IfOk result (λ value. view value ≡ python_tree frame) }
{
    json!(in alloc; {
        "frame": frame as u64,
        "kind": "python"
    })
}

fn native_value(alloc: Global, frame: usize, is_hidden: bool) -> Result<Value, AllocError>
    ensures { IfOk result (λ value. view value ≡ native_tree frame is_hidden) }
{
    json!(in alloc; {
        "frame": frame as u64,
        "hidden": is_hidden,
        "kind": "native"
    })
}

/// Whether the native frame of a number is hidden.
fn hidden_at(hidden: &[bool], frame: usize) -> bool
    ensures { result ≡ get_or hidden.now frame false }
{
    match hidden.get(frame) {
        Some(is_hidden) => *is_hidden,
        None => false,
    }
}

fn item_value(alloc: Global, hidden: &[bool], item: Item) -> Result<Value, AllocError>
    ensures { IfOk result (λ value. view value ≡ item_tree hidden.now item) }
{
    match item {
        Item::Python(frame) => python_value(alloc, frame),
        Item::Native(frame) => native_value(alloc, frame, hidden_at(hidden, frame)),
        Item::NotFound => kind_value(alloc, "not found"),
        Item::Beside => kind_value(alloc, "beside"),
    }
}

fn items_value(alloc: Global, hidden: &[bool], items: &[Item]) -> Result<Value, AllocError>
    ensures { IfOk result (λ value. view value ≡ items_tree hidden.now items.now) }
{
    let mut values = Vec::new(alloc);
    for item in items {
        values.push(item_value(alloc, hidden, *item)?)?;
    }
    Ok(Value::Array(values))
}

fn pairing_name(pairing: Pairing) -> &'static str
    ensures { result.now ≡ pairing_name pairing }
{
    match pairing {
        Pairing::Address => "address",
        Pairing::Order => "order",
        Pairing::Apart => "apart",
    }
}

fn stack_value(alloc: Global, stack: &PairedStack) -> Result<Value, AllocError>
    ensures { IfOk result (λ value. view value ≡ stack_tree stack.now) }
{
    let items = items_value(alloc, &stack.hidden, &stack.items)?;
    let thread = address_text(alloc, stack.thread)?;
    json!(in alloc; {
        "items": items,
        "pairing": pairing_name(stack.pairing),
        "thread": thread.as_str()
    })
}

/// A stack, or null.
fn known_value(alloc: Global, stack: &Option<PairedStack>) -> Result<Value, AllocError>
    ensures { IfOk result (λ value. view value ≡ stack_tree_if stack.now) }
{
    match stack {
        Some(stack) => stack_value(alloc, stack),
        None => Ok(Value::Null),
    }
}

/// Paired stacks as a JSON value: an array with null for each thread that is none of Python's, and an object for each
/// other one. `pairing`: `address`, `order` or `apart`; `items`: the frames, the newest first, each an object whose
/// `kind` is `python` or `native` with the number of the `frame`, of a native one whether it is `hidden`, or else `not
/// found` (no native frame is found for the Python frames that follow) or `beside` (nothing tells where between the
/// native frames those belong that follow); `thread`: the address of the thread's record.
///
/// The keys of an object stand in the order of their bytes. The one error is out of memory.
pub fn paired_value(alloc: Global, stacks: &[Option<PairedStack>]) -> Result<Value, AllocError>
    ensures value { IfOk result (λ value. view value ≡ all_tree stacks.now) }
    ensures no_float { has_float (all_tree stacks.now) ≡ false }
{
    let mut values = Vec::new(alloc);
    for stack in stacks {
        values.push(known_value(alloc, stack)?)?;
    }
    Ok(Value::Array(values))
}
