//! What the errors of Unicode's say.
ghost use Rattle.std.specs.Prelude.{◌≡◌, ◌++◌, ◌^◌, ◌-◌, false, [], codes, OnOk, string_bytes};
ghost use Rattle.std.specs.Fmt.{digits, format_spec, padded_integral};
ghost use Rattle.python_literals.specs.Quotes.{hex_of};
ghost use Rattle.exception_texts.specs.Unicode.{before, byte_text, character_text, codec_text, coded_shown, data_shown};
ghost use Rattle.exception_texts.specs.Unicode.{deed_text, is_known, is_whole, object_shown, one_said, one_shown};
ghost use Rattle.exception_texts.specs.Unicode.{number_text, one_text, place_shown, quoted_number, reason_text};
ghost use Rattle.exception_texts.specs.Unicode.{several_said, several_text, signed_text, span_shown, unicode_text};

use crate::values::{push_arguments, push_str_of};
use py_exceptions::{InvalidData, Unit, Value, Values};
use std::alloc::{AllocError, Global};

/// What could not be done with the data.
#[derive(Clone, Copy)]
pub(crate) enum Deed {
    Encode,
    Decode,
    Translate,
}

/// What is shown of data that can't be coded.
#[derive(Clone, Copy)]
pub(crate) enum Shown {
    /// Nothing is said: the error was not initialized.
    Nothing,
    /// One character or byte, and its place.
    One { unit: u32, at: u64 },
    /// The places of the first and the last one.
    Several { first: u64, last: u64 },
    /// What is said can't be told.
    Unknown,
}

// ---- what is shown

/// The number before one; before 0 is the largest.
fn before(number: u64) -> u64
    ensures { result ≡ before number }
{
    number.wrapping_sub(1)
}

/// One character or byte, where the object has it.
fn one_shown(first: Option<Unit>, at: u64) -> Shown
    ensures { result ≡ one_shown first at }
{
    match first {
        None => Shown::Unknown,
        Some(Unit::Outside) => Shown::Several {
            first: at,
            last: at,
        },
        Some(Unit::Is(unit)) => Shown::One { unit, at },
    }
}

/// What is shown of data from one place to before another one.
fn span_shown(first: Option<Unit>, start: u64, end: u64) -> Shown
    ensures { result ≡ span_shown first start end }
{
    let last = before(end);
    if last == start {
        return one_shown(first, start);
    }
    Shown::Several { first: start, last }
}

/// The same of places that may not be known.
fn place_shown(first: Option<Unit>, start: Option<u64>, end: Option<u64>) -> Shown
    ensures { result ≡ place_shown first start end }
{
    match (start, end) {
        (Some(start), Some(end)) => span_shown(first, start, end),
        (Some(_), None) => Shown::Unknown,
        (None, _) => Shown::Unknown,
    }
}

/// Whether a value is a text that is told whole.
fn is_whole(value: &Option<Value>) -> bool
    ensures { result ≡ is_whole value.now }
{
    match value {
        Some(Value::Text(_)) => true,
        Some(Value::LongText { .. }) => false,
        Some(Value::Absent) => false,
        Some(Value::Nothing) => false,
        Some(Value::Number(_)) => false,
        Some(Value::LongNumber { .. }) => false,
        Some(Value::Truth(_)) => false,
        Some(Value::Float { .. }) => false,
        Some(Value::Other { .. }) => false,
        None => false,
    }
}

/// What is shown by the object, where the rest is told.
fn object_shown(object: Option<u64>, is_told: bool, shown: Shown) -> Shown
    ensures { result ≡ object_shown object is_told shown }
{
    let Some(addr) = object else {
        return Shown::Unknown;
    };
    if addr == 0 {
        return Shown::Nothing;
    }
    if is_told { shown } else { Shown::Unknown }
}

/// What is shown of the data of an error that translates.
pub(crate) fn data_shown(invalid: &InvalidData) -> Shown
    ensures { result ≡ data_shown invalid.now }
{
    let shown = place_shown(invalid.first, invalid.start, invalid.end);
    object_shown(invalid.object, is_whole(&invalid.reason), shown)
}

/// The same of one that codes.
pub(crate) fn coded_shown(encoding: &Option<Value>, invalid: &InvalidData) -> Shown
    ensures { result ≡ coded_shown encoding.now invalid.now }
{
    let shown = place_shown(invalid.first, invalid.start, invalid.end);
    let is_told = is_whole(encoding) && is_whole(&invalid.reason);
    object_shown(invalid.object, is_told, shown)
}

/// Whether what is said can be told.
pub(crate) fn is_known(shown: Shown) -> bool
    ensures { result ≡ is_known shown }
{
    match shown {
        Shown::Nothing => true,
        Shown::One { .. } => true,
        Shown::Several { .. } => true,
        Shown::Unknown => false,
    }
}

// ---- its text

/// A number with its sign.
fn push_signed(text: &mut String, number: u64) -> Result<(), AllocError>
    ensures { OnOk result (string_bytes text.new ≡ string_bytes text.old ++ signed_text number) }
{
    let signed = number.cast_signed();
    write!(text, "{signed}")
}

/// A character below 256, by its number.
fn push_two(text: &mut String, point: u32) -> Result<(), AllocError>
    ensures { OnOk result (string_bytes text.new ≡ string_bytes text.old ++ (codes "\\x"
        ++ padded_integral (format_spec 32 0 4 2 (2 ^ 64 - 1)) false [] (digits 16 false point))) }
{
    write!(text, "\\x{point:02x}")
}

/// One below 65536.
fn push_four(text: &mut String, point: u32) -> Result<(), AllocError>
    ensures { OnOk result (string_bytes text.new ≡ string_bytes text.old ++ (codes "\\u"
        ++ padded_integral (format_spec 32 0 4 4 (2 ^ 64 - 1)) false [] (digits 16 false point))) }
{
    write!(text, "\\u{point:04x}")
}

/// Any one.
fn push_eight(text: &mut String, point: u32) -> Result<(), AllocError>
    ensures { OnOk result (string_bytes text.new ≡ string_bytes text.old ++ (codes "\\U"
        ++ padded_integral (format_spec 32 0 4 8 (2 ^ 64 - 1)) false [] (digits 16 false point))) }
{
    write!(text, "\\U{point:08x}")
}

/// A character by its number.
fn push_hex(text: &mut String, point: u32) -> Result<(), AllocError>
    ensures { OnOk result (string_bytes text.new ≡ string_bytes text.old ++ number_text point) }
{
    if point < 0x100 {
        return push_two(text, point);
    }
    if point < 0x1_0000 {
        return push_four(text, point);
    }
    push_eight(text, point)
}

/// The same in quotes.
fn push_quoted_number(text: &mut String, point: u32) -> Result<(), AllocError>
    ensures { OnOk result (string_bytes text.new ≡ string_bytes text.old ++ quoted_number point) }
{
    text.push_str("'")?;
    push_hex(text, point)?;
    text.push_str("'")
}

/// A character.
fn push_character(text: &mut String, point: u32) -> Result<(), AllocError>
    ensures { OnOk result (string_bytes text.new ≡ string_bytes text.old ++ character_text point) }
{
    text.push_str("character ")?;
    push_quoted_number(text, point)
}

/// The digits of a byte.
#[tactic(auto, using(python_literals::proofs::Hexes::two_digits))]
fn push_digits(text: &mut String, byte: u32) -> Result<(), AllocError>
    ensures { OnOk result (string_bytes text.new ≡ string_bytes text.old ++ hex_of 2 byte) }
{
    write!(text, "{byte:02x}")
}

/// A byte.
fn push_byte(text: &mut String, byte: u32) -> Result<(), AllocError>
    ensures { OnOk result (string_bytes text.new ≡ string_bytes text.old ++ byte_text byte) }
{
    text.push_str("byte 0x")?;
    push_digits(text, byte)
}

/// One of what can't be coded.
fn push_one(text: &mut String, deed: Deed, unit: u32) -> Result<(), AllocError>
    ensures { OnOk result (string_bytes text.new ≡ string_bytes text.old ++ one_text deed unit) }
{
    match deed {
        Deed::Encode => push_character(text, unit),
        Deed::Decode => push_byte(text, unit),
        Deed::Translate => push_character(text, unit),
    }
}

/// Several of it.
fn push_several(text: &mut String, deed: Deed) -> Result<(), AllocError>
    ensures { OnOk result (string_bytes text.new ≡ string_bytes text.old ++ several_text deed) }
{
    match deed {
        Deed::Encode => text.push_str("characters"),
        Deed::Decode => text.push_str("bytes"),
        Deed::Translate => text.push_str("characters"),
    }
}

/// The coding.
fn push_codec(
    alloc: Global,
    text: &mut String,
    is_raw: bool,
    encoding: &Option<Value>,
) -> Result<(), AllocError>
    ensures { OnOk result (string_bytes text.new ≡ string_bytes text.old ++ codec_text is_raw encoding.now) }
{
    text.push_str("'")?;
    push_str_of(alloc, text, is_raw, encoding)?;
    text.push_str("' codec ")
}

/// What could not be done.
fn push_deed(
    alloc: Global,
    text: &mut String,
    deed: Deed,
    is_raw: bool,
    encoding: &Option<Value>,
) -> Result<(), AllocError>
    ensures { OnOk result (string_bytes text.new ≡ string_bytes text.old ++ deed_text deed is_raw encoding.now) }
{
    match deed {
        Deed::Encode => {
            push_codec(alloc, text, is_raw, encoding)?;
            text.push_str("can't encode ")
        }
        Deed::Decode => {
            push_codec(alloc, text, is_raw, encoding)?;
            text.push_str("can't decode ")
        }
        Deed::Translate => text.push_str("can't translate "),
    }
}

/// Why.
fn push_reason(
    alloc: Global,
    text: &mut String,
    is_raw: bool,
    invalid: &InvalidData,
) -> Result<(), AllocError>
    ensures { OnOk result (string_bytes text.new ≡ string_bytes text.old ++ reason_text is_raw invalid.now) }
{
    text.push_str(": ")?;
    push_str_of(alloc, text, is_raw, &invalid.reason)
}

/// One of what can't be coded, and its place.
fn push_one_said(text: &mut String, deed: Deed, unit: u32, at: u64) -> Result<(), AllocError>
    ensures { OnOk result (string_bytes text.new ≡ string_bytes text.old ++ one_said deed unit at) }
{
    push_one(text, deed, unit)?;
    text.push_str(" in position ")?;
    push_signed(text, at)
}

/// Several of it, and the places of the first and the last one.
fn push_several_said(text: &mut String, deed: Deed, first: u64, last: u64) -> Result<(), AllocError>
    ensures { OnOk result (string_bytes text.new ≡ string_bytes text.old ++ several_said deed first last) }
{
    push_several(text, deed)?;
    text.push_str(" in position ")?;
    push_signed(text, first)?;
    text.push_str("-")?;
    push_signed(text, last)
}

/// What such an error says, by what is shown of its data.
pub(crate) fn push_unicode(
    alloc: Global,
    text: &mut String,
    deed: Deed,
    is_raw: bool,
    encoding: &Option<Value>,
    invalid: &InvalidData,
    arguments: &Option<Values>,
    shown: Shown,
) -> Result<(), AllocError>
    ensures { OnOk result (string_bytes text.new
        ≡ string_bytes text.old ++ unicode_text deed is_raw encoding.now invalid.now arguments.now shown) }
{
    match shown {
        Shown::Nothing => Ok(()),
        Shown::One { unit, at } => {
            push_deed(alloc, text, deed, is_raw, encoding)?;
            push_one_said(text, deed, unit, at)?;
            push_reason(alloc, text, is_raw, invalid)
        }
        Shown::Several { first, last } => {
            push_deed(alloc, text, deed, is_raw, encoding)?;
            push_several_said(text, deed, first, last)?;
            push_reason(alloc, text, is_raw, invalid)
        }
        Shown::Unknown => push_arguments(alloc, text, is_raw, arguments),
    }
}
