//! Floats.
ghost use Rattle.std.specs.Prelude.{◌≡◌, ◌++◌, IfOk, IsTrue, List, OnOk, Some, string_bytes, true, ℕ};
ghost use Rattle.std.specs.Float.{binary64, float_is_finite};
ghost use Rattle.std.specs.Str.Parse.{starts_with_minus};
ghost use Rattle.ryu.specs.Parse.{parse_float};
ghost use Rattle.python_literals.specs.Floats.{IsComplexText, IsDecimalOf, IsFloatText, complex_parts, parts_text};
ghost use Rattle.python_literals.specs.Floats.{signed_part};

use ryu::Buffer;
use std::alloc::{AllocError, Global};

/// Whether a text reads back as a finite float, with its sign.
fn reads_back(text: &str, x: f64) -> bool
    ensures { result ≡ true → IsDecimalOf x text.now }
{
    let y: f64 = match fast_float::parse(text) {
        Ok(y) => y,
        Err(_) => return false,
    };
    if !y.is_finite() {
        return false;
    }
    if !x.is_finite() {
        return false;
    }
    y <= x && x <= y && y.is_sign_negative() == x.is_sign_negative()
}

/// The decimal of a finite float, laid out as Python has it, from the shortest one: an exponent has two digits at
/// least, and stands where more than three zeros would follow the point.
fn laid_out(alloc: Global, shortest: &str) -> Result<String, AllocError> {
    let mut text = String::new(alloc);
    if let Some((digits, exponent)) = shortest.split_once('e') {
        text.push_str(digits)?;
        text.push_str("e")?;
        push_exponent(&mut text, exponent)?;
        return Ok(text);
    }
    match shortest.split_once("0.0000") {
        Some((sign, digits)) => push_small(&mut text, sign, digits)?,
        None => text.push_str(shortest)?,
    }
    Ok(text)
}

/// Appends an exponent, which has a sign, with two digits at least.
fn push_exponent(text: &mut String, exponent: &str) -> Result<(), AllocError> {
    let mut chars = exponent.chars();
    if let Some(sign) = chars.next() {
        text.push(sign)?;
    }
    if exponent.len() == 2 {
        text.push('0')?;
    }
    text.push_str(chars.as_str())
}

/// Appends a float that is written with four zeros behind the point, by the digits that follow them.
fn push_small(text: &mut String, sign: &str, digits: &str) -> Result<(), AllocError> {
    let mut chars = digits.chars();
    text.push_str(sign)?;
    if let Some(first) = chars.next() {
        text.push(first)?;
    }
    let rest = chars.as_str();
    if !rest.is_empty() {
        text.push('.')?;
        text.push_str(rest)?;
    }
    text.push_str("e-05")
}

/// The decimal of a finite float, laid out as Python has it: with a point or an exponent, or, in a complex number,
/// without a fraction of 0.
fn python_decimal(alloc: Global, shortest: &str, is_part: bool) -> Result<String, AllocError> {
    let text = laid_out(alloc, shortest)?;
    if !is_part {
        return Ok(text);
    }
    match text.as_str().strip_suffix(".0") {
        Some(whole) => String::from_str(alloc, whole),
        None => Ok(text),
    }
}

/// Appends a finite float: as Python lays it out, where that reads back, and else the shortest decimal.
fn push_finite(alloc: Global, text: &mut String, is_part: bool, x: f64) -> Result<(), AllocError>
    requires { IsTrue (float_is_finite x) }
    ensures { OnOk result ((t : List ℕ) × (string_bytes text.new ≡ string_bytes text.old ++ t) × IsDecimalOf x t) }
{
    let mut buffer = Buffer::new();
    let shortest = buffer.format_finite_with_plus(x);
    let python = python_decimal(alloc, shortest, is_part)?;
    if reads_back(&python, x) {
        return text.push_str(&python);
    }
    text.push_str(shortest)?;
    Ok(())
}

/// The bits of infinity's size; above it there is no number.
const INFINITY: u64 = 0x7ff0_0000_0000_0000;

/// Where the sign stands.
const SIGN: u64 = 1 << 63;

/// Appends a float, by its bits; in a complex number without a fraction of 0.
fn push_by_bits(
    alloc: Global,
    text: &mut String,
    is_part: bool,
    bits: u64,
) -> Result<(), AllocError>
    ensures { OnOk result ((t : List ℕ) × (string_bytes text.new ≡ string_bytes text.old ++ t) × IsFloatText bits t) }
{
    let size = bits % SIGN;
    if size > INFINITY {
        text.push_str("nan")?;
        return Ok(());
    }
    if size < INFINITY {
        return push_finite(alloc, text, is_part, f64::from_bits(bits));
    }
    text.push_str(if bits < SIGN { "inf" } else { "-inf" })?;
    Ok(())
}

/// Appends a float as Python's `repr` writes it, by the bits of its 8 bytes. The one error is out of memory.
pub fn push_float(alloc: Global, text: &mut String, bits: u64) -> Result<(), AllocError>
    ensures { OnOk result ((t : List ℕ) × (string_bytes text.new ≡ string_bytes text.old ++ t) × IsFloatText bits t) }
{
    push_by_bits(alloc, text, false, bits)
}

/// The text of a part of a complex number.
fn part_text(alloc: Global, bits: u64) -> Result<String, AllocError>
    ensures { IfOk result (λ t. IsFloatText bits (string_bytes t)) }
{
    let mut text = String::new(alloc);
    push_by_bits(alloc, &mut text, true, bits)?;
    Ok(text)
}

/// Whether a text begins with a minus.
fn is_signed(part: &str) -> bool
    ensures { result ≡ starts_with_minus part.now }
{
    let bytes = part.as_bytes();
    !bytes.is_empty() && bytes[0] == b'-'
}

/// Appends the imaginary part, behind the real one where that is shown.
fn push_imaginary(text: &mut String, part: &str) -> Result<(), AllocError>
    ensures { OnOk result (string_bytes text.new ≡ string_bytes text.old ++ signed_part part.now) }
{
    if is_signed(part) {
        return text.push_str(part);
    }
    text.push_str("+")?;
    text.push_str(part)
}

/// Appends both parts.
fn push_parts(text: &mut String, real: &str, imaginary: &str) -> Result<(), AllocError>
    ensures { OnOk result (string_bytes text.new ≡ string_bytes text.old ++ parts_text real.now imaginary.now) }
{
    text.push_str("(")?;
    text.push_str(real)?;
    push_imaginary(text, imaginary)?;
    text.push_str("j)")
}

/// Appends a complex number whose parts have these texts, and the real one these bits.
fn push_complex_parts(
    text: &mut String,
    bits: u64,
    real: &str,
    imaginary: &str,
) -> Result<(), AllocError>
    ensures { OnOk result (string_bytes text.new ≡ string_bytes text.old ++ complex_parts bits real.now imaginary.now) }
{
    if bits == 0 {
        text.push_str(imaginary)?;
        return text.push_str("j");
    }
    push_parts(text, real, imaginary)
}

/// Appends a complex number as Python's `repr` writes it, by the bits of its two floats: without a real part that is 0
/// and has no sign. The one error is out of memory.
pub fn push_complex(
    alloc: Global,
    text: &mut String,
    real: u64,
    imaginary: u64,
) -> Result<(), AllocError>
    ensures { OnOk result
        ((t : List ℕ) × (string_bytes text.new ≡ string_bytes text.old ++ t) × IsComplexText real imaginary t) }
{
    let left = part_text(alloc, real)?;
    let right = part_text(alloc, imaginary)?;
    push_complex_parts(text, real, &left, &right)?;
    Ok(())
}
