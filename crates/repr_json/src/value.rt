//! The JSON of a value.
ghost use Rattle.std.specs.Prelude.{◌≡◌, IfOk, codes, map};
ghost use Rattle.serde_json.specs.View.{view};
ghost use Rattle.py_reprs.specs.Trees.{tree_of, trees_of};
ghost use Rattle.repr_json.specs.Leaves.{instance_tree};
ghost use Rattle.repr_json.specs.Trees.{AreJson, IsJson, items_kind, items_tree, pair_tree, pair_trees};

use crate::leaves::{
    bytes_value, coroutine_value, damaged_value, function_value, instance_value, kind_value,
    lost_value, named_value, opaque_value, text_value, truth_value,
};
use crate::numbers::{complex_value, float_value, huge_value, integer_value, small_integer_value};
use elf64_core::Text;
use py_reprs::{ItemsForm, Repr};
use serde_json::{Value, json};
use std::alloc::{AllocError, Global};

/// The word for a container.
fn items_kind(form: ItemsForm) -> &'static str
    ensures { result.now ≡ items_kind form }
{
    match form {
        ItemsForm::List => "list",
        ItemsForm::Tuple => "tuple",
        ItemsForm::Set => "set",
        ItemsForm::FrozenSet => "frozenset",
        ItemsForm::Range => "range",
        ItemsForm::Slice => "slice",
        ItemsForm::Cell => "cell",
        ItemsForm::Method => "method",
    }
}

/// A container by what it shows.
fn container(
    alloc: Global,
    kind: &str,
    items: Vec<Value>,
    left_out: u64,
) -> Result<Value, AllocError>
    ensures { IfOk result (λ own. view own ≡ items_tree kind.now (map view items.items) left_out) }
{
    let items = Value::Array(items);
    json!(in alloc; {
        "items": items,
        "kind": kind,
        "more": left_out
    })
}

/// A key and its value.
fn pair(alloc: Global, key: Value, value: Value) -> Result<Value, AllocError>
    ensures { IfOk result (λ own. view own ≡ pair_tree (view key) (view value)) }
{
    json!(in alloc; [key, value])
}

/// Keys and values side by side.
fn pairs_of(alloc: Global, keys: Vec<Value>, values: Vec<Value>) -> Result<Vec<Value>, AllocError>
    ensures { IfOk result (λ pairs. map view pairs.items
        ≡ pair_trees (map view keys.items) (map view values.items)) }
{
    let mut pairs = Vec::new(alloc);
    let mut left = values.into_iter();
    for key in keys {
        let Some(value) = left.next() else {
            return Ok(pairs);
        };
        pairs.push(pair(alloc, key, value)?)?;
    }
    Ok(pairs)
}

/// A dict by what it shows.
fn dict(
    alloc: Global,
    keys: Vec<Value>,
    values: Vec<Value>,
    left_out: u64,
) -> Result<Value, AllocError>
    ensures { IfOk result (λ own. view own ≡ items_tree (codes "dict")
        (pair_trees (map view keys.items) (map view values.items)) left_out) }
{
    let pairs = pairs_of(alloc, keys, values)?;
    container(alloc, "dict", pairs, left_out)
}

/// An instance by what it shows.
fn instance(
    alloc: Global,
    class: &Option<Text>,
    addr: u64,
    names: Vec<Value>,
    values: Vec<Value>,
    left_out: u64,
) -> Result<Value, AllocError>
    ensures { IfOk result (λ own. view own ≡ instance_tree class.now addr
        (pair_trees (map view names.items) (map view values.items)) left_out) }
{
    let pairs = pairs_of(alloc, names, values)?;
    instance_value(alloc, class, addr, pairs, left_out)
}

/// A value as JSON: an object whose `kind` says what it is, with its parts. The one error is out of memory.
#[cycle(values)]
pub fn repr_value(alloc: Global, value: &Repr) -> Result<Value, AllocError>
    ensures { IfOk result (λ own. IsJson (tree_of value.now) (view own)) }
{
    match value {
        Repr::Absent => kind_value(alloc, "absent"),
        Repr::Nothing => kind_value(alloc, "none"),
        Repr::Ellipsis => kind_value(alloc, "ellipsis"),
        Repr::NotImplemented => kind_value(alloc, "not implemented"),
        Repr::Truth(truth) => truth_value(alloc, *truth),
        Repr::Integer {
            form,
            is_negative,
            digits,
        } => integer_value(alloc, *form, *is_negative, digits),
        Repr::SmallInteger(number) => small_integer_value(alloc, number),
        Repr::HugeInteger {
            form,
            is_negative,
            digits,
            ..
        } => huge_value(alloc, *form, *is_negative, *digits),
        Repr::Float { bits } => float_value(alloc, *bits),
        Repr::Complex { real, imaginary } => complex_value(alloc, *real, *imaginary),
        Repr::Text {
            form,
            front,
            length,
        } => text_value(alloc, *form, front, *length),
        Repr::Bytes {
            form,
            front,
            length,
        } => bytes_value(alloc, *form, front, *length),
        Repr::Items {
            form,
            items,
            left_out,
        } => {
            let items = each_value(alloc, items)?;
            container(alloc, items_kind(*form), items, *left_out)
        }
        Repr::Pairs {
            keys,
            values,
            left_out,
        } => {
            let keys = each_value(alloc, keys)?;
            let values = each_value(alloc, values)?;
            dict(alloc, keys, values, *left_out)
        }
        Repr::Class { name, addr } => named_value(alloc, "class", name, *addr),
        Repr::Function {
            name,
            file,
            line,
            addr,
        } => function_value(alloc, name, file, *line, *addr),
        Repr::Builtin { name, addr } => named_value(alloc, "builtin", name, *addr),
        Repr::Module { name, addr } => named_value(alloc, "module", name, *addr),
        Repr::Coroutine {
            form,
            name,
            state,
            addr,
        } => coroutine_value(alloc, *form, name, *state, *addr),
        Repr::Opaque { class, addr } => opaque_value(alloc, class, *addr),
        Repr::Instance {
            class,
            addr,
            names,
            values,
            left_out,
        } => {
            let names = each_value(alloc, names)?;
            let values = each_value(alloc, values)?;
            instance(alloc, class, *addr, names, values, *left_out)
        }
        Repr::Lost { kind, addr, len } => lost_value(alloc, *kind, *addr, *len),
        Repr::Damaged { kind, addr } => damaged_value(alloc, *kind, *addr),
    }
}

/// Some values as JSON, in order.
#[cycle(values)]
fn each_value(alloc: Global, values: &[Repr]) -> Result<Vec<Value>, AllocError>
    ensures { IfOk result (λ own. AreJson (trees_of (map tree_of values.now)) (map view own.items)) }
{
    let mut own = Vec::new(alloc);
    for number in 0..values.len() {
        own.push(repr_value(alloc, &values[number])?)?;
    }
    Ok(own)
}
