//! Threads, as a JSON value.
ghost use Rattle.std.specs.Prelude.{◌≡◌, false, IfOk, OnOk, map, string_bytes};
ghost use Rattle.serde_json.specs.Data.{no_members, object, put, string};
ghost use Rattle.serde_json.specs.View.{members_view, view};
ghost use Rattle.serde_json.specs.Written.{has_float};
ghost use Rattle.thread_registers.specs.Threads.{named_of, registers_shown, thread_shown};
ghost use Rattle.thread_registers.specs.Trees.{kind_tree, registers_put, registers_tree, thread_tree, threads_tree};
ghost use Rattle.thread_registers.specs.Trees.{value_text, whose_tree};

use crate::threads::{Register, ThreadRegisters, Whose};
use serde_json::{Map, Value, json};
use std::alloc::{AllocError, Global};

/// A value: `0x` and lower-case hexadecimal digits.
fn value_text(alloc: Global, value: u64) -> Result<String, AllocError>
    ensures { IfOk result (λ text. string_bytes text ≡ value_text value) }
{
    format!(in alloc; "0x{value:x}")
}

/// Puts a register among the members of an object.
fn put_register(
    alloc: Global,
    members: &mut Map<String, Value>,
    register: &Register,
) -> Result<(), AllocError>
    ensures { OnOk result (members_view members.new.entries
        ≡ put register.now.name.now (string (value_text register.now.value)) (members_view members.old.entries)) }
{
    let text = value_text(alloc, register.value)?;
    let value = Value::try_from_str(alloc, text.as_str())?;
    serde_json::put(members, alloc, register.name, value)
}

/// An object of registers.
fn object_of(alloc: Global, registers: &[Register]) -> Result<Value, AllocError>
    ensures { IfOk result (λ value. view value
        ≡ object (registers_put (map named_of registers.now) no_members)) }
{
    let mut members = Map::new(alloc);
    for register in registers {
        put_register(alloc, &mut members, register)?;
    }
    Ok(Value::Object(members))
}

fn registers_value(alloc: Global, registers: &Option<Vec<Register>>) -> Result<Value, AllocError>
    ensures { IfOk result (λ value. view value ≡ registers_tree (registers_shown registers.now)) }
{
    match registers {
        Some(registers) => object_of(alloc, registers),
        None => Ok(Value::Null),
    }
}

/// A kind without values.
fn kind_value(alloc: Global, kind: &str) -> Result<Value, AllocError>
    ensures { IfOk result (λ value. view value ≡ kind_tree kind.now) }
{
    json!(in alloc; {"kind": kind})
}

fn whose_value(alloc: Global, whose: Whose) -> Result<Value, AllocError>
    ensures { IfOk result (λ value. view value ≡ whose_tree whose) }
{
    match whose {
        Whose::Python(found) => json!(in alloc; {
            "kind": "thread",
            "thread_id": found.thread_id
        }),
        Whose::Other => kind_value(alloc, "none"),
        Whose::Untold => kind_value(alloc, "not told"),
    }
}

fn thread_value(alloc: Global, thread: &ThreadRegisters) -> Result<Value, AllocError>
    ensures { IfOk result (λ value. view value ≡ thread_tree (thread_shown thread.now)) }
{
    let python = whose_value(alloc, thread.whose)?;
    let registers = registers_value(alloc, &thread.registers)?;
    json!(in alloc; {
        "python": python,
        "registers": registers,
        "system_id": thread.system_id
    })
}

/// Threads as a JSON value, in order: of each an object with its `system_id`, its `registers` by name, each a text in
/// hexadecimal digits, or null where there are none, and `python`, whose it is: an object whose `kind` is `thread`,
/// with the `thread_id` that the interpreter gave, `none` (of Python's), or `not told`.
///
/// The keys of an object stand in the order of their bytes. The one error is out of memory.
pub fn threads_value(alloc: Global, threads: &[ThreadRegisters]) -> Result<Value, AllocError>
    ensures value { IfOk result (λ value. view value ≡ threads_tree (map thread_shown threads.now)) }
    ensures no_float { has_float (threads_tree (map thread_shown threads.now)) ≡ false }
{
    let mut values = Vec::new(alloc);
    for thread in threads {
        values.push(thread_value(alloc, thread)?)?;
    }
    Ok(Value::Array(values))
}
