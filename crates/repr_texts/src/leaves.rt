//! Values without others in them.
ghost use Rattle.std.specs.Prelude.{◌≡◌, ◌++◌, IfOk, OnOk, string_bytes};
ghost use Rattle.repr_texts.specs.Leaves.{builtin_opening, builtin_text, bytes_text, class_text, damaged_text};
ghost use Rattle.repr_texts.specs.Leaves.{function_text, huge_text, instance_opening};
ghost use Rattle.repr_texts.specs.Leaves.{kind_text, lost_text, module_text, opaque_text, quoted_bytes, quoted_text};
ghost use Rattle.repr_texts.specs.Leaves.{rest_text, suffix_of, text_text, truth_text};
ghost use Rattle.python_literals.specs.Integers.{integer_text};

use crate::coroutines::form_word;
use crate::names::{push_address, push_name, push_quoted_name};
use elf64_core::Text;
use py_reprs::{BytesForm, IntegerForm, Kind, TextForm};
use python_literals::{Style, push_integer, push_quoted};
use std::alloc::{AllocError, Global};

/// Appends `True` or `False`.
pub(crate) fn push_truth(text: &mut String, truth: bool) -> Result<(), AllocError>
    ensures { OnOk result (string_bytes text.new ≡ string_bytes text.old ++ truth_text truth) }
{
    text.push_str(if truth { "True" } else { "False" })
}

/// Appends an integer, by its digits of 30 bits.
pub(crate) fn push_digits(
    alloc: Global,
    text: &mut String,
    form: IntegerForm,
    is_negative: bool,
    digits: &[u32],
) -> Result<(), AllocError>
    ensures { OnOk result (string_bytes text.new
        ≡ string_bytes text.old ++ (integer_text is_negative digits.now ++ suffix_of form)) }
{
    push_integer(alloc, text, is_negative, digits)?;
    match form {
        IntegerForm::Int => Ok(()),
        IntegerForm::Long => text.push_str("L"),
    }
}

/// Appends how many digits an integer has that is too long.
pub(crate) fn push_huge(text: &mut String, is_negative: bool, digits: u64) -> Result<(), AllocError>
    ensures { OnOk result (string_bytes text.new ≡ string_bytes text.old ++ huge_text is_negative digits) }
{
    text.push_str(if is_negative {
        "<negative int of "
    } else {
        "<int of "
    })?;
    write!(text, "{digits} digits of 30 bits>")
}

/// Appends how many there are, where not all are shown.
fn push_rest(text: &mut String, shown: u64, length: u64, what: &str) -> Result<(), AllocError>
    ensures { OnOk result (string_bytes text.new ≡ string_bytes text.old ++ rest_text shown length what.now) }
{
    if shown == length {
        return Ok(());
    }
    write!(text, ".. {length}{what}")
}

/// Appends the first characters of a text in quotes.
fn push_front(text: &mut String, form: TextForm, front: &[u32]) -> Result<(), AllocError>
    ensures { OnOk result (string_bytes text.new ≡ string_bytes text.old ++ quoted_text form front.now) }
{
    match form {
        TextForm::Str => push_quoted(text, Style::Printable, front),
        TextForm::Unicode => {
            text.push_str("u")?;
            push_quoted(text, Style::Ascii, front)
        }
    }
}

/// Appends a text, and how long it is where not all of it is shown.
pub(crate) fn push_text(
    text: &mut String,
    form: TextForm,
    front: &[u32],
    length: u64,
) -> Result<(), AllocError>
    ensures { OnOk result (string_bytes text.new ≡ string_bytes text.old ++ text_text form front.now length) }
{
    push_front(text, form, front)?;
    push_rest(text, front.len() as u64, length, " characters")
}

/// The numbers of bytes.
fn points_of(alloc: Global, bytes: &[u8]) -> Result<Vec<u32>, AllocError>
    ensures { IfOk result (λ found. found.items ≡ bytes.now) }
{
    let mut points = Vec::new(alloc);
    for byte in bytes {
        points.push(u32::from(*byte))?;
    }
    Ok(points)
}

/// Appends the first bytes of bytes in quotes, by their numbers.
fn push_quoted_bytes(text: &mut String, form: BytesForm, points: &[u32]) -> Result<(), AllocError>
    ensures { OnOk result (string_bytes text.new ≡ string_bytes text.old ++ quoted_bytes form points.now) }
{
    match form {
        BytesForm::Bytes => {
            text.push_str("b")?;
            push_quoted(text, Style::Ascii, points)
        }
        BytesForm::ByteArray => {
            text.push_str("bytearray(b")?;
            push_quoted(text, Style::ByteArray, points)?;
            text.push_str(")")
        }
        BytesForm::Str => push_quoted(text, Style::Ascii, points),
    }
}

/// Appends bytes, and how many there are where not all are shown.
pub(crate) fn push_bytes(
    alloc: Global,
    text: &mut String,
    form: BytesForm,
    front: &[u8],
    length: u64,
) -> Result<(), AllocError>
    ensures { OnOk result (string_bytes text.new ≡ string_bytes text.old ++ bytes_text form front.now length) }
{
    let points = points_of(alloc, front)?;
    push_quoted_bytes(text, form, &points)?;
    push_rest(text, front.len() as u64, length, " bytes")
}

/// Appends a class.
pub(crate) fn push_class(
    alloc: Global,
    text: &mut String,
    name: &Option<Text>,
) -> Result<(), AllocError>
    ensures { OnOk result (string_bytes text.new ≡ string_bytes text.old ++ class_text name.now) }
{
    text.push_str("<class ")?;
    push_quoted_name(alloc, text, name)?;
    text.push_str(">")
}

/// Appends a function: where it stands in memory, and where its definition begins.
pub(crate) fn push_function(
    alloc: Global,
    text: &mut String,
    name: &Option<Text>,
    file: &Option<Text>,
    line: u32,
    addr: u64,
) -> Result<(), AllocError>
    ensures { OnOk result (string_bytes text.new
        ≡ string_bytes text.old ++ function_text name.now file.now line addr) }
{
    text.push_str("<function ")?;
    push_name(alloc, text, name)?;
    push_address(text, addr)?;
    text.push_str(" (")?;
    push_name(alloc, text, file)?;
    write!(text, ":{line})>")
}

/// Appends what stands before the name of a function of C's.
#[tactic(auto, unfolding(crate::specs::Leaves::builtin_opening))]
fn push_builtin_opening(text: &mut String) -> Result<(), AllocError>
    ensures { OnOk result (string_bytes text.new ≡ string_bytes text.old ++ builtin_opening) }
{
    text.push_str("<built-in function ")
}

/// Appends a function of C's.
pub(crate) fn push_builtin(
    alloc: Global,
    text: &mut String,
    name: &Option<Text>,
) -> Result<(), AllocError>
    ensures { OnOk result (string_bytes text.new ≡ string_bytes text.old ++ builtin_text name.now) }
{
    push_builtin_opening(text)?;
    push_name(alloc, text, name)?;
    text.push_str(">")
}

/// Appends a module.
pub(crate) fn push_module(
    alloc: Global,
    text: &mut String,
    name: &Option<Text>,
) -> Result<(), AllocError>
    ensures { OnOk result (string_bytes text.new ≡ string_bytes text.old ++ module_text name.now) }
{
    text.push_str("<module ")?;
    push_quoted_name(alloc, text, name)?;
    text.push_str(">")
}

/// Appends an object of another type.
pub(crate) fn push_opaque(
    alloc: Global,
    text: &mut String,
    class: &Option<Text>,
    addr: u64,
) -> Result<(), AllocError>
    ensures { OnOk result (string_bytes text.new ≡ string_bytes text.old ++ opaque_text class.now addr) }
{
    text.push_str("<")?;
    push_name(alloc, text, class)?;
    push_address(text, addr)?;
    text.push_str(">")
}

/// Appends what stands before the attributes of an instance of a class.
#[tactic(auto, unfolding(crate::specs::Leaves::instance_opening))]
pub(crate) fn push_instance_opening(
    alloc: Global,
    text: &mut String,
    class: &Option<Text>,
    addr: u64,
) -> Result<(), AllocError>
    ensures { OnOk result (string_bytes text.new ≡ string_bytes text.old ++ instance_opening class.now addr) }
{
    text.push_str("<")?;
    push_name(alloc, text, class)?;
    push_address(text, addr)?;
    text.push_str(": ")
}

/// The word for a kind.
fn kind_word(kind: Kind) -> &'static str
    ensures { result.now ≡ kind_text kind }
{
    match kind {
        Kind::Nothing => "None",
        Kind::Ellipsis => "Ellipsis",
        Kind::NotImplemented => "NotImplemented",
        Kind::Truth => "bool",
        Kind::Integer => "int",
        Kind::SmallInteger => "int",
        Kind::Float => "float",
        Kind::Complex => "complex",
        Kind::Text => "str",
        Kind::Bytes => "bytes",
        Kind::ByteArray => "bytearray",
        Kind::List => "list",
        Kind::Tuple => "tuple",
        Kind::Dict => "dict",
        Kind::Set => "set",
        Kind::FrozenSet => "frozenset",
        Kind::Range => "range",
        Kind::Slice => "slice",
        Kind::Cell => "cell",
        Kind::Class => "class",
        Kind::Function => "function",
        Kind::Method => "method",
        Kind::Builtin => "built-in function",
        Kind::Module => "module",
        Kind::Coroutine(form) => form_word(form),
        Kind::Other => "object",
    }
}

/// Appends that bytes of a value are not in memory.
pub(crate) fn push_lost(
    text: &mut String,
    kind: Kind,
    addr: u64,
    len: u64,
) -> Result<(), AllocError>
    ensures { OnOk result (string_bytes text.new ≡ string_bytes text.old ++ lost_text kind addr len) }
{
    text.push_str("<")?;
    text.push_str(kind_word(kind))?;
    write!(text, ": {len} bytes unreadable")?;
    push_address(text, addr)?;
    text.push_str(">")
}

/// Appends that the record of a value can't be.
pub(crate) fn push_damaged(text: &mut String, kind: Kind, addr: u64) -> Result<(), AllocError>
    ensures { OnOk result (string_bytes text.new ≡ string_bytes text.old ++ damaged_text kind addr) }
{
    text.push_str("<")?;
    text.push_str(kind_word(kind))?;
    text.push_str(": broken")?;
    push_address(text, addr)?;
    text.push_str(">")
}
