//! The text of a value.
ghost use Rattle.std.specs.Prelude.{◌≡◌, ◌++◌, OnOk, map, string_bytes};
ghost use Rattle.py_reprs.specs.Trees.{tree_of, trees_of};
ghost use Rattle.repr_texts.specs.Writing.{Adds, AddsFull, AddsDict, AddsInstance, AddsItems, AddsJoined};
ghost use Rattle.repr_texts.specs.Writing.{Writes, between, between_text, closing};
ghost use Rattle.repr_texts.specs.Writing.{comma_text, empty_text, is_empty_set, more_text, opening};

use crate::coroutines::push_coroutine;
use crate::identifiers::push_attribute_name;
use crate::leaves::{
    push_builtin, push_bytes, push_class, push_damaged, push_digits, push_function, push_huge,
    push_instance_opening, push_lost, push_module, push_opaque, push_text, push_truth,
};
use py_reprs::{ItemsForm, Repr};
use python_literals::{push_complex, push_float};
use std::alloc::{AllocError, Global};

/// What stands before the items of a container.
fn opening(form: ItemsForm) -> &'static str
    ensures { result.now ≡ opening form }
{
    match form {
        ItemsForm::List => "[",
        ItemsForm::Tuple => "(",
        ItemsForm::Set => "{",
        ItemsForm::FrozenSet => "frozenset({",
        ItemsForm::Range => "range(",
        ItemsForm::Slice => "slice(",
        ItemsForm::Cell => "<cell: ",
        ItemsForm::Method => "<bound method ",
    }
}

/// What stands between them.
fn between(form: ItemsForm) -> &'static str
    ensures { result.now ≡ between form }
{
    match form {
        ItemsForm::List => ", ",
        ItemsForm::Tuple => ", ",
        ItemsForm::Set => ", ",
        ItemsForm::FrozenSet => ", ",
        ItemsForm::Range => ", ",
        ItemsForm::Slice => ", ",
        ItemsForm::Cell => ", ",
        ItemsForm::Method => " of ",
    }
}

/// What stands behind them.
fn closing(form: ItemsForm) -> &'static str
    ensures { result.now ≡ closing form }
{
    match form {
        ItemsForm::List => "]",
        ItemsForm::Tuple => ")",
        ItemsForm::Set => "}",
        ItemsForm::FrozenSet => "})",
        ItemsForm::Range => ")",
        ItemsForm::Slice => ")",
        ItemsForm::Cell => ">",
        ItemsForm::Method => ">",
    }
}

/// Appends how many more there are than are shown.
fn push_more(
    text: &mut String,
    separator: &str,
    shown: u64,
    left_out: u64,
) -> Result<(), AllocError>
    ensures { OnOk result (string_bytes text.new
        ≡ string_bytes text.old ++ more_text separator.now shown left_out) }
{
    if left_out == 0 {
        return Ok(());
    }
    if shown != 0 {
        text.push_str(separator)?;
    }
    write!(text, ".. {left_out} more")
}

/// Appends the comma behind the one item of a tuple.
fn push_comma(
    text: &mut String,
    form: ItemsForm,
    shown: u64,
    left_out: u64,
) -> Result<(), AllocError>
    ensures { OnOk result (string_bytes text.new ≡ string_bytes text.old ++ comma_text form shown left_out) }
{
    match form {
        ItemsForm::Tuple => {
            if shown == 1 && left_out == 0 {
                return text.push_str(",");
            }
            Ok(())
        }
        ItemsForm::List => Ok(()),
        ItemsForm::Set => Ok(()),
        ItemsForm::FrozenSet => Ok(()),
        ItemsForm::Range => Ok(()),
        ItemsForm::Slice => Ok(()),
        ItemsForm::Cell => Ok(()),
        ItemsForm::Method => Ok(()),
    }
}

/// Whether a container is one that has a word of its own where it is empty, and is empty.
fn is_empty_set(form: ItemsForm, shown: u64, left_out: u64) -> bool
    ensures { result ≡ is_empty_set form shown left_out }
{
    let is_set = match form {
        ItemsForm::Set => true,
        ItemsForm::FrozenSet => true,
        ItemsForm::Tuple => false,
        ItemsForm::List => false,
        ItemsForm::Range => false,
        ItemsForm::Slice => false,
        ItemsForm::Cell => false,
        ItemsForm::Method => false,
    };
    is_set && shown == 0 && left_out == 0
}

/// Appends a value in the manner of Python's `repr`: specs/Writing.antt and Leaves.antt say where it departs. The one
/// error is out of memory.
#[cycle(repr)]
pub fn push_repr(alloc: Global, text: &mut String, value: &Repr) -> Result<(), AllocError>
    ensures { OnOk result (Adds (Writes (tree_of value.now)) (string_bytes text.old) (string_bytes text.new)) }
{
    match value {
        Repr::Absent => text.push_str("empty")?,
        Repr::Nothing => text.push_str("None")?,
        Repr::Ellipsis => text.push_str("Ellipsis")?,
        Repr::NotImplemented => text.push_str("NotImplemented")?,
        Repr::Truth(truth) => push_truth(text, *truth)?,
        Repr::Integer {
            form,
            is_negative,
            digits,
        } => push_digits(alloc, text, *form, *is_negative, digits)?,
        Repr::SmallInteger(value) => write!(text, "{value}")?,
        Repr::HugeInteger {
            is_negative,
            digits,
            ..
        } => push_huge(text, *is_negative, *digits)?,
        Repr::Float { bits } => push_float(alloc, text, *bits)?,
        Repr::Complex { real, imaginary } => push_complex(alloc, text, *real, *imaginary)?,
        Repr::Text {
            form,
            front,
            length,
        } => push_text(text, *form, front, *length)?,
        Repr::Bytes {
            form,
            front,
            length,
        } => push_bytes(alloc, text, *form, front, *length)?,
        Repr::Items {
            form,
            items,
            left_out,
        } => push_items(alloc, text, *form, items, *left_out)?,
        Repr::Pairs { .. } => push_dict(alloc, text, value)?,
        Repr::Class { name, .. } => push_class(alloc, text, name)?,
        Repr::Function {
            name,
            file,
            line,
            addr,
        } => push_function(alloc, text, name, file, *line, *addr)?,
        Repr::Builtin { name, .. } => push_builtin(alloc, text, name)?,
        Repr::Module { name, .. } => push_module(alloc, text, name)?,
        Repr::Coroutine {
            form,
            name,
            state,
            addr,
        } => push_coroutine(alloc, text, *form, name, *state, *addr)?,
        Repr::Opaque { class, addr } => push_opaque(alloc, text, class, *addr)?,
        Repr::Instance { .. } => push_instance(alloc, text, value)?,
        Repr::Lost { kind, addr, len } => push_lost(text, *kind, *addr, *len)?,
        Repr::Damaged { kind, addr } => push_damaged(text, *kind, *addr)?,
    }
    Ok(())
}

/// Appends what stands between two items, where one is shown already.
fn push_between(text: &mut String, separator: &str, shown: usize) -> Result<(), AllocError>
    ensures { OnOk result (string_bytes text.new ≡ string_bytes text.old ++ between_text separator.now shown) }
{
    if shown == 0 {
        return Ok(());
    }
    text.push_str(separator)
}

/// Appends the items of a container, with what stands between them.
#[cycle(repr)]
fn push_joined(
    alloc: Global,
    text: &mut String,
    separator: &str,
    items: &[Repr],
) -> Result<(), AllocError>
    ensures { OnOk result (AddsJoined separator.now (trees_of (map tree_of items.now)) (string_bytes text.old)
        (string_bytes text.new)) }
{
    for number in 0..items.len() {
        push_between(text, separator, number)?;
        push_repr(alloc, text, &items[number])?;
    }
    Ok(())
}

/// Appends a container whose items stand between what opens and what closes it.
#[cycle(repr)]
fn push_full(
    alloc: Global,
    text: &mut String,
    form: ItemsForm,
    items: &[Repr],
    left_out: u64,
) -> Result<(), AllocError>
    ensures { OnOk result (AddsFull form left_out (trees_of (map tree_of items.now)) (string_bytes text.old)
        (string_bytes text.new)) }
{
    let shown = items.len() as u64;
    text.push_str(opening(form))?;
    push_joined(alloc, text, between(form), items)?;
    push_more(text, between(form), shown, left_out)?;
    push_comma(text, form, shown, left_out)?;
    text.push_str(closing(form))?;
    Ok(())
}

/// Appends the word for an empty set.
fn push_empty(text: &mut String, form: ItemsForm) -> Result<(), AllocError>
    ensures { OnOk result (string_bytes text.new ≡ string_bytes text.old ++ empty_text form) }
{
    match form {
        ItemsForm::FrozenSet => text.push_str("frozenset()"),
        ItemsForm::Set => text.push_str("set()"),
        ItemsForm::Tuple => text.push_str("set()"),
        ItemsForm::List => text.push_str("set()"),
        ItemsForm::Range => text.push_str("set()"),
        ItemsForm::Slice => text.push_str("set()"),
        ItemsForm::Cell => text.push_str("set()"),
        ItemsForm::Method => text.push_str("set()"),
    }
}

/// Appends a container.
#[cycle(repr)]
fn push_items(
    alloc: Global,
    text: &mut String,
    form: ItemsForm,
    items: &[Repr],
    left_out: u64,
) -> Result<(), AllocError>
    ensures { OnOk result (AddsItems form left_out (trees_of (map tree_of items.now)) (string_bytes text.old)
        (string_bytes text.new)) }
{
    if is_empty_set(form, items.len() as u64, left_out) {
        push_empty(text, form)?;
        return Ok(());
    }
    push_full(alloc, text, form, items, left_out)?;
    Ok(())
}

/// Appends a dict: nothing of another value.
#[cycle(repr)]
fn push_dict(alloc: Global, text: &mut String, value: &Repr) -> Result<(), AllocError>
    ensures { OnOk result (AddsDict (tree_of value.now) (string_bytes text.old) (string_bytes text.new)) }
{
    let Repr::Pairs {
        keys,
        values,
        left_out,
    } = value
    else {
        return Ok(());
    };
    let shown = keys.len().min(values.len());
    text.push_str("{")?;
    for number in 0..shown {
        push_between(text, ", ", number)?;
        push_repr(alloc, text, &keys[number])?;
        text.push_str(": ")?;
        push_repr(alloc, text, &values[number])?;
    }
    push_more(text, ", ", shown as u64, *left_out)?;
    text.push_str("}")?;
    Ok(())
}

/// Appends an instance with its attributes: nothing of another value.
#[cycle(repr)]
fn push_instance(alloc: Global, text: &mut String, value: &Repr) -> Result<(), AllocError>
    ensures { OnOk result (AddsInstance (tree_of value.now) (string_bytes text.old) (string_bytes text.new)) }
{
    let Repr::Instance {
        class,
        addr,
        names,
        values,
        left_out,
    } = value
    else {
        return Ok(());
    };
    let shown = names.len().min(values.len());
    push_instance_opening(alloc, text, class, *addr)?;
    for number in 0..shown {
        push_between(text, ", ", number)?;
        let mut name = String::new(alloc);
        push_repr(alloc, &mut name, &names[number])?;
        push_attribute_name(text, name.as_str())?;
        text.push_str("=")?;
        push_repr(alloc, text, &values[number])?;
    }
    push_more(text, ", ", shown as u64, *left_out)?;
    text.push_str(">")?;
    Ok(())
}
