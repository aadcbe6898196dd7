//! Numbers.
ghost use Rattle.std.specs.Prelude.{◌≡◌, ◌≤◌, IfOk, IfSome, string_bytes};
ghost use Rattle.std.specs.Fmt.{signed_decimal};
ghost use Rattle.serde_json.specs.View.{view};
ghost use Rattle.python_literals.specs.Floats.{IsFloatText};
ghost use Rattle.python_literals.specs.Integers.{integer_text};
ghost use Rattle.repr_json.specs.Leaves.{huge_tree, integer_kind, integer_tree, number_or_text, signed};
ghost use Rattle.repr_json.specs.Leaves.{small_integer_tree, small_number, valued_tree};
ghost use Rattle.repr_json.specs.Trees.{IsComplexTree, IsFloatTree, IsPartTree};

use crate::leaves::hex_value;
use py_reprs::IntegerForm;
use python_literals::{push_float, push_integer};
use serde_json::{Value, json};
use std::alloc::{AllocError, Global};

/// A kind and a value.
pub(crate) fn valued(alloc: Global, kind: &str, value: Value) -> Result<Value, AllocError>
    ensures { IfOk result (λ own. view own ≡ valued_tree kind.now (view value)) }
{
    json!(in alloc; {
        "kind": kind,
        "value": value
    })
}

/// The word for an integer.
fn integer_kind(form: IntegerForm) -> &'static str
    ensures { result.now ≡ integer_kind form }
{
    match form {
        IntegerForm::Int => "int",
        IntegerForm::Long => "long",
    }
}

/// The largest integer up to which each reader of JSON has all of them exactly.
const EXACT: u64 = 9_007_199_254_740_992;

/// The number of two digits of 30 bits at most, where it is that small.
fn small_number(digits: &[u32]) -> Option<u64>
    ensures value { result ≡ small_number digits.now }
    ensures small { IfSome result (λ n. n ≤ 9007199254740992) }
{
    match digits {
        [] => Some(0),
        [low] => Some(u64::from(*low)),
        [low, high] => {
            let number = u64::from(*low) + u64::from(*high) * 1_073_741_824;
            if number <= EXACT { Some(number) } else { None }
        }
        [_, _, _, ..] => None,
    }
}

/// A number that is small, with its sign.
fn signed(is_negative: bool, small: u64) -> i64
    requires { small ≤ 9007199254740992 }
    ensures { result ≡ signed is_negative small }
{
    let size = small as i64;
    if is_negative { -size } else { size }
}

/// The decimal of an integer.
fn integer_text(alloc: Global, is_negative: bool, digits: &[u32]) -> Result<String, AllocError>
    ensures { IfOk result (λ text. string_bytes text ≡ integer_text is_negative digits.now) }
{
    let mut text = String::new(alloc);
    push_integer(alloc, &mut text, is_negative, digits)?;
    Ok(text)
}

/// An integer: a number where it is small, else a text of its decimal.
fn number_or_text(alloc: Global, is_negative: bool, digits: &[u32]) -> Result<Value, AllocError>
    ensures { IfOk result (λ own. view own
        ≡ number_or_text is_negative digits.now (small_number digits.now)) }
{
    match small_number(digits) {
        Some(small) => json!(in alloc; signed(is_negative, small)),
        None => Ok(Value::String(integer_text(alloc, is_negative, digits)?)),
    }
}

/// An integer, by its digits of 30 bits.
pub(crate) fn integer_value(
    alloc: Global,
    form: IntegerForm,
    is_negative: bool,
    digits: &[u32],
) -> Result<Value, AllocError>
    ensures { IfOk result (λ own. view own ≡ integer_tree form is_negative digits.now) }
{
    let number = number_or_text(alloc, is_negative, digits)?;
    valued(alloc, integer_kind(form), number)
}

/// The decimal of Python 2's `int`.
fn small_text(alloc: Global, number: i64) -> Result<String, AllocError>
    ensures { IfOk result (λ text. string_bytes text ≡ signed_decimal number) }
{
    format!(in alloc; "{number}")
}

/// Python 2's `int`.
pub(crate) fn small_integer_value(alloc: Global, number: &i64) -> Result<Value, AllocError>
    ensures { IfOk result (λ own. view own ≡ small_integer_tree number.now) }
{
    let number = *number;
    if -9_007_199_254_740_992 <= number && number <= 9_007_199_254_740_992 {
        let small = json!(in alloc; number)?;
        return valued(alloc, "int", small);
    }
    let text = small_text(alloc, number)?;
    valued(alloc, "int", Value::String(text))
}

/// An integer that is too long to be told.
pub(crate) fn huge_value(
    alloc: Global,
    form: IntegerForm,
    is_negative: bool,
    digits: u64,
) -> Result<Value, AllocError>
    ensures { IfOk result (λ own. view own ≡ huge_tree form is_negative digits) }
{
    let kind = integer_kind(form);
    json!(in alloc; {
        "digits": digits,
        "kind": kind,
        "negative": is_negative,
        "value": null
    })
}

/// The decimal of a float.
fn decimal(alloc: Global, bits: u64) -> Result<String, AllocError>
    ensures { IfOk result (λ text. IsFloatText bits (string_bytes text)) }
{
    let mut text = String::new(alloc);
    push_float(alloc, &mut text, bits)?;
    Ok(text)
}

/// A float by its bits, with its decimal.
pub(crate) fn float_value(alloc: Global, bits: u64) -> Result<Value, AllocError>
    ensures { IfOk result (λ own. IsFloatTree bits (view own)) }
{
    let text = decimal(alloc, bits)?;
    let hex = hex_value(alloc, bits)?;
    json!(in alloc; {
        "bits": hex,
        "kind": "float",
        "text": text
    })
}

/// A part of a complex number.
fn part_value(alloc: Global, bits: u64) -> Result<Value, AllocError>
    ensures { IfOk result (λ own. IsPartTree bits (view own)) }
{
    let text = decimal(alloc, bits)?;
    let hex = hex_value(alloc, bits)?;
    json!(in alloc; {
        "bits": hex,
        "text": text
    })
}

/// A complex number.
pub(crate) fn complex_value(alloc: Global, real: u64, imaginary: u64) -> Result<Value, AllocError>
    ensures { IfOk result (λ own. IsComplexTree real imaginary (view own)) }
{
    let right = part_value(alloc, imaginary)?;
    let left = part_value(alloc, real)?;
    json!(in alloc; {
        "imaginary": right,
        "kind": "complex",
        "real": left
    })
}
