//! How a chain ends, what is known of a lock, and why something is not there: each an object with its kind.
ghost use Rattle.std.specs.Prelude.{◌≡◌, IfOk, string_bytes};
ghost use Rattle.serde_json.specs.View.{view};
ghost use Rattle.salvage_json.specs.Kinds.{address_tree, end_tree, fault_or_null, fault_tree, holder_tree};
ghost use Rattle.salvage_json.specs.Kinds.{kind_tree, lock_tree, missing_tree, stray_tree, why_tree};
ghost use Rattle.core_texts.specs.Parts.{address_text};

use py_builtins::ObjectError;
use py_fronts::{ChainEnd, LockState};
use py_stacks::StackError;
use serde_json::{Value, json};
use std::alloc::{AllocError, Global};

/// An address: `0x` and lower-case hexadecimal digits.
fn address_text(alloc: Global, address: u64) -> Result<String, AllocError>
    ensures { IfOk result (λ text. string_bytes text ≡ address_text address) }
{
    format!(in alloc; "0x{address:x}")
}

/// The same, as a value.
pub(crate) fn address_value(alloc: Global, address: u64) -> Result<Value, AllocError>
    ensures { IfOk result (λ value. view value ≡ address_tree address) }
{
    let text = address_text(alloc, address)?;
    Value::try_from_str(alloc, text.as_str())
}

/// A kind without values.
fn kind_value(alloc: Global, kind: &str) -> Result<Value, AllocError>
    ensures { IfOk result (λ value. view value ≡ kind_tree kind.now) }
{
    json!(in alloc; {"kind": kind})
}

/// A range that is not in memory.
fn missing_value(alloc: Global, addr: u64, len: u64) -> Result<Value, AllocError>
    ensures { IfOk result (λ value. view value ≡ missing_tree addr len) }
{
    let address = address_value(alloc, addr)?;
    json!(in alloc; {
        "address": address,
        "kind": "unreadable",
        "length": len
    })
}

/// The interpreter that a thread's record names.
fn stray_value(alloc: Global, interpreter: u64) -> Result<Value, AllocError>
    ensures { IfOk result (λ value. view value ≡ stray_tree interpreter) }
{
    let address = address_value(alloc, interpreter)?;
    json!(in alloc; {
        "interpreter": address,
        "kind": "stray"
    })
}

/// How a chain ends.
pub(crate) fn end_value(alloc: Global, end: ChainEnd) -> Result<Value, AllocError>
    ensures { IfOk result (λ value. view value ≡ end_tree end) }
{
    match end {
        ChainEnd::Whole => kind_value(alloc, "whole"),
        ChainEnd::Cut => kind_value(alloc, "cut"),
        ChainEnd::Unreadable { addr, len } => missing_value(alloc, addr, len),
        ChainEnd::Stray { interpreter } => stray_value(alloc, interpreter),
    }
}

/// The holder of a lock.
fn holder_value(alloc: Global, holder: u64) -> Result<Value, AllocError>
    ensures { IfOk result (λ value. view value ≡ holder_tree holder) }
{
    json!(in alloc; {
        "holder": holder,
        "kind": "read"
    })
}

/// The lock of an interpreter.
pub(crate) fn lock_value(alloc: Global, lock: LockState) -> Result<Value, AllocError>
    ensures { IfOk result (λ value. view value ≡ lock_tree lock) }
{
    match lock {
        LockState::Holder(holder) => holder_value(alloc, holder),
        LockState::Unreadable { addr, len } => missing_value(alloc, addr, len),
    }
}

/// Why a member has no names.
pub(crate) fn why_value(alloc: Global, why: &ObjectError) -> Result<Value, AllocError>
    ensures { IfOk result (λ value. view value ≡ why_tree why.now) }
{
    match why {
        ObjectError::Unreadable { addr, len } => missing_value(alloc, *addr, *len),
        ObjectError::TooLong { len } => {
            let len = *len;
            json!(in alloc; {
                "kind": "too long",
                "length": len
            })
        }
        _ => kind_value(alloc, "no text"),
    }
}

/// Why the locals of a frame can't be read.
fn fault_value(alloc: Global, fault: &StackError) -> Result<Value, AllocError>
    ensures { IfOk result (λ value. view value ≡ fault_tree fault.now) }
{
    match fault {
        StackError::Unreadable { addr, len } => missing_value(alloc, *addr, *len),
        StackError::LocalsLimit { count } => {
            let count = *count;
            json!(in alloc; {
                "count": count,
                "kind": "too many"
            })
        }
        _ => kind_value(alloc, "bad"),
    }
}

/// That, or null.
pub(crate) fn fault_or_null(alloc: Global, fault: &Option<StackError>) -> Result<Value, AllocError>
    ensures { IfOk result (λ value. view value ≡ fault_or_null fault.now) }
{
    match fault {
        Some(fault) => fault_value(alloc, fault),
        None => Ok(Value::Null),
    }
}
