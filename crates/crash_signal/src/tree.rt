//! How a signal came about, as a JSON value.
ghost use Rattle.std.specs.Prelude.{◌≡◌, false, IfOk, option_copied, string_bytes};
ghost use Rattle.serde_json.specs.View.{view};
ghost use Rattle.serde_json.specs.Written.{has_float};
ghost use Rattle.crash_signal.specs.Trees.{call_tree, cause_tree, fault_tree, kind_tree, plain_tree, sender_tree};
ghost use Rattle.crash_signal.specs.Trees.{signal_tree, untold_tree, word_tree};
ghost use Rattle.crash_signal.specs.Text.{address_text};

use crate::tables::{meaning_of, name_of};
use crate::told::{Cause, CrashSignal, Untold};
use serde_json::{Value, json};
use std::alloc::{AllocError, Global};

/// An address: `0x` and lower-case hexadecimal digits.
fn address_text(alloc: Global, address: u64) -> Result<String, AllocError>
    ensures { IfOk result (λ text. string_bytes text ≡ address_text address) }
{
    format!(in alloc; "0x{address:x}")
}

/// A word of a table, or null.
fn word_value(alloc: Global, word: Option<&'static str>) -> Result<Value, AllocError>
    ensures { IfOk result (λ value. view value ≡ word_tree (option_copied word.entry)) }
{
    match word {
        Some(word) => Value::try_from_str(alloc, word),
        None => Ok(Value::Null),
    }
}

/// A kind that has nothing beside the signal.
fn plain_value(alloc: Global, kind: &str, signal: i32, code: i32) -> Result<Value, AllocError>
    ensures { IfOk result (λ value. view value ≡ plain_tree kind.now signal code) }
{
    let name = word_value(alloc, name_of(signal))?;
    json!(in alloc; {
        "code": code,
        "kind": kind,
        "name": name,
        "signal": signal
    })
}

/// A sender.
fn sender_value(
    alloc: Global,
    kind: &str,
    signal: i32,
    code: i32,
    pid: i32,
    uid: u32,
) -> Result<Value, AllocError>
    ensures { IfOk result (λ value. view value ≡ sender_tree kind.now signal code pid uid) }
{
    let name = word_value(alloc, name_of(signal))?;
    json!(in alloc; {
        "code": code,
        "kind": kind,
        "name": name,
        "pid": pid,
        "signal": signal,
        "uid": uid
    })
}

/// An address that was wrong.
fn fault_value(alloc: Global, signal: i32, code: i32, address: u64) -> Result<Value, AllocError>
    ensures { IfOk result (λ value. view value ≡ fault_tree signal code address) }
{
    let address = address_text(alloc, address)?;
    let meaning = word_value(alloc, meaning_of(signal, code))?;
    let name = word_value(alloc, name_of(signal))?;
    json!(in alloc; {
        "address": address.as_str(),
        "code": code,
        "kind": "fault",
        "meaning": meaning,
        "name": name,
        "signal": signal
    })
}

/// A call that was refused.
fn call_value(
    alloc: Global,
    signal: i32,
    code: i32,
    address: u64,
    call: i32,
) -> Result<Value, AllocError>
    ensures { IfOk result (λ value. view value ≡ call_tree signal code address call) }
{
    let address = address_text(alloc, address)?;
    let name = word_value(alloc, name_of(signal))?;
    json!(in alloc; {
        "call": call,
        "call_address": address.as_str(),
        "code": code,
        "kind": "call",
        "name": name,
        "signal": signal
    })
}

fn cause_value(alloc: Global, signal: i32, code: i32, cause: Cause) -> Result<Value, AllocError>
    ensures { IfOk result (λ value. view value ≡ cause_tree signal code cause) }
{
    match cause {
        Cause::Itself { pid, uid } => sender_value(alloc, "itself", signal, code, pid, uid),
        Cause::Process { pid, uid } => sender_value(alloc, "process", signal, code, pid, uid),
        Cause::Fault { address } => fault_value(alloc, signal, code, address),
        Cause::NoAddress => plain_value(alloc, "no address", signal, code),
        Cause::System => plain_value(alloc, "system", signal, code),
        Cause::Call { address, number } => call_value(alloc, signal, code, address, number),
        Cause::Code => plain_value(alloc, "code", signal, code),
    }
}

/// A kind without values.
fn kind_value(alloc: Global, kind: &str) -> Result<Value, AllocError>
    ensures { IfOk result (λ value. view value ≡ kind_tree kind.now) }
{
    json!(in alloc; {"kind": kind})
}

fn untold_value(alloc: Global, why: Untold) -> Result<Value, AllocError>
    ensures { IfOk result (λ value. view value ≡ untold_tree why) }
{
    match why {
        Untold::NoSignal => kind_value(alloc, "no signal"),
        Untold::NoNote => kind_value(alloc, "no note"),
        Untold::Short => kind_value(alloc, "short note"),
        Untold::Other { signal } => json!(in alloc; {
            "kind": "another signal",
            "signal": signal
        }),
    }
}

/// How a signal came about, or why that is not told, as a JSON value: an object whose `kind` says which.
///
/// Told, it has `signal`, its `name` (null where it has none) and the `code`, and by its kind: `process` and `itself`:
/// the sender's `pid` and `uid`; `fault`: the `address`, a text in hexadecimal digits, and the code's `meaning` (null
/// where it has none); `call`: the number of the `call` and its `call_address`; `no address`, `system` and `code`:
/// nothing. Untold, the kind is `no signal`, `no note`, `short note`, or `another signal` with that `signal`.
/// The keys stand in the order of their bytes. The one error is out of memory.
pub fn signal_value(alloc: Global, told: &Result<CrashSignal, Untold>) -> Result<Value, AllocError>
    ensures value { IfOk result (λ value. view value ≡ signal_tree told.now) }
    ensures no_float { has_float (signal_tree told.now) ≡ false }
{
    match told {
        Ok(signal) => cause_value(alloc, signal.signal, signal.code, signal.cause),
        Err(why) => untold_value(alloc, *why),
    }
}
