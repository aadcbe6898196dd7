//! Numbers.
ghost use Rattle.std.specs.Prelude.{◌≡◌, ◌<◌, ◌≤◌, ◌^◌, ◌*◌, ◌+◌, ◌-◌, ◌%◌, map, IfOk, Ok, length};
ghost use Rattle.std.specs.Int.{w32};
ghost use Rattle.process_memory.specs.Seen.{Reads};
ghost use Rattle.py_fields.specs.Sound.{IsSound};
ghost use Rattle.py_builtins.specs.Integers.{digits_of};
ghost use Rattle.py_builtins.specs.ObjectError.{object_fault};
ghost use Rattle.py_builtins.specs.TextKind.{numbers_of};
ghost use Rattle.py_reprs.specs.Found.{trees_found};
ghost use Rattle.py_reprs.specs.Numbers.{complex_at, digits_at, float_at, highest_at, integer_at, integer_by, integer_form};
ghost use Rattle.py_reprs.specs.Numbers.{small_integer_at, truth_by};

use crate::kinds::is_python_2;
use crate::repr::{IntegerForm, Repr};
use elf64_core::{u32_in, u64_in};
use process_memory::{ProcessMemory, record, record_wide, word_past};
use py_builtins::{Digits, ObjectError, copy_int, copy_long};
use py_fields::{Integers, Layout};
use std::alloc::{AllocError, Global};

/// How many digits of an integer are read at most.
const DIGIT_LIMIT: u64 = 110;

fn integer_form(layout: &Layout) -> IntegerForm
    ensures { result ≡ integer_form layout.now }
{
    if is_python_2(layout) {
        IntegerForm::Long
    } else {
        IntegerForm::Int
    }
}

/// The digits that the count in an integer's record states.
fn digits_of(integers: Integers, count: u64) -> Digits
    ensures { result ≡ digits_of integers count }
{
    match integers {
        Integers::Signed => Digits {
            count: count.cast_signed().unsigned_abs(),
            negative: count.cast_signed() < 0,
        },
        Integers::Tagged => Digits {
            count: count / 8,
            negative: count % 4 == 2,
        },
    }
}

/// Numbers of 4 bytes each, the lowest byte first.
pub(crate) fn numbers_of_4(alloc: Global, bytes: &[u8]) -> Result<Vec<u32>, AllocError>
    ensures { IfOk result (λ numbers. numbers.items ≡ numbers_of w32 4 bytes.now) }
{
    let (groups, _) = bytes.as_chunks::<4>();
    groups
        .iter()
        .map(|group| u32::from_le_bytes(*group))
        .collect(alloc)
}

/// An integer of at most 110 digits. One read.
fn read_digits<P: ProcessMemory>(
    alloc: Global,
    process: &mut P,
    layout: &Layout,
    addr: u64,
    digits: Digits,
) -> Result<Repr, ObjectError>
    requires few { digits.count ≤ 110 }
    ensures { Reads object_fault 1 (P.seen process.old) (P.seen process.new)
        (λ m. digits_at layout.now m addr digits) (trees_found result) }
{
    let place = addr as u128 + layout.long.digits as u128;
    let bytes = record_wide(alloc, process, place, 4 * digits.count)?;
    let numbers = numbers_of_4(alloc, &bytes)?;
    Ok(Repr::Integer {
        form: integer_form(layout),
        is_negative: digits.negative,
        digits: numbers,
    })
}

/// An integer of more digits, by the highest of them. One read.
fn read_highest<P: ProcessMemory>(
    alloc: Global,
    process: &mut P,
    layout: &Layout,
    addr: u64,
    digits: Digits,
) -> Result<Repr, ObjectError>
    requires many { 110 < digits.count }
    requires counted { digits.count < 2 ^ 64 }
    ensures { Reads object_fault 1 (P.seen process.old) (P.seen process.new)
        (λ m. highest_at layout.now m addr digits) (trees_found result) }
{
    let place = addr as u128 + layout.long.digits as u128 + 4 * (digits.count - 1) as u128;
    let bytes = record_wide(alloc, process, place, 4)?;
    Ok(Repr::HugeInteger {
        form: integer_form(layout),
        is_negative: digits.negative,
        digits: digits.count,
        highest: u32_in(&bytes, 0),
    })
}

/// An integer of these digits. One read.
#[tactic(auto, unfolding(crate::specs::Numbers::integer_by))]
fn read_integer_by<P: ProcessMemory>(
    alloc: Global,
    process: &mut P,
    layout: &Layout,
    addr: u64,
    digits: Digits,
) -> Result<Repr, ObjectError>
    requires counted { digits.count < 2 ^ 64 }
    ensures { Reads object_fault 1 (P.seen process.old) (P.seen process.new)
        (λ m. integer_by layout.now m addr digits) (trees_found result) }
{
    if digits.count <= DIGIT_LIMIT {
        return read_digits(alloc, process, layout, addr, digits);
    }
    read_highest(alloc, process, layout, addr, digits)
}

/// The integer at an address. At most 2 reads.
pub(crate) fn read_integer<P: ProcessMemory>(
    alloc: Global,
    process: &mut P,
    layout: &Layout,
    addr: u64,
) -> Result<Repr, ObjectError>
    requires sound { IsSound layout.now }
    ensures { Reads object_fault 2 (P.seen process.old) (P.seen process.new)
        (λ m. integer_at layout.now m addr) (trees_found result) }
{
    let object = record(alloc, process, addr, layout.long.size as u64)?;
    let digits = digits_of(layout.integers, u64_in(&object, layout.long.count as usize));
    read_integer_by(alloc, process, layout, addr, digits)
}

/// Python 2's `int` at an address. One read.
pub(crate) fn read_small_integer<P: ProcessMemory>(
    process: &mut P,
    layout: &Layout,
    addr: u64,
) -> Result<Repr, ObjectError>
    requires sound { IsSound layout.now }
    ensures { Reads object_fault 1 (P.seen process.old) (P.seen process.new)
        (λ m. small_integer_at layout.now m addr) (trees_found result) }
{
    let number = copy_int(process, layout, addr)?;
    Ok(Repr::SmallInteger(number))
}

/// The truth value at an address. At most 2 reads.
#[tactic(auto, unfolding(crate::specs::Numbers::truth_by))]
pub(crate) fn read_truth<P: ProcessMemory>(
    process: &mut P,
    layout: &Layout,
    is_small: bool,
    addr: u64,
) -> Result<Repr, ObjectError>
    requires sound { IsSound layout.now }
    ensures { Reads object_fault 2 (P.seen process.old) (P.seen process.new)
        (λ m. truth_by is_small layout.now m addr) (trees_found result) }
{
    if is_small {
        let number = copy_int(process, layout, addr)?;
        return Ok(Repr::Truth(number > 0));
    }
    let (number, _) = copy_long(process, layout, addr)?;
    Ok(Repr::Truth(number > 0))
}

/// The float at an address. One read.
pub(crate) fn read_float<P: ProcessMemory>(
    process: &mut P,
    layout: &Layout,
    addr: u64,
) -> Result<Repr, ObjectError>
    ensures { Reads object_fault 1 (P.seen process.old) (P.seen process.new)
        (λ m. float_at layout.now m addr) (trees_found result) }
{
    let bits = word_past(process, addr, layout.float.value as u64)?;
    Ok(Repr::Float { bits })
}

/// The complex number at an address. At most 2 reads.
pub(crate) fn read_complex<P: ProcessMemory>(
    process: &mut P,
    layout: &Layout,
    addr: u64,
) -> Result<Repr, ObjectError>
    ensures { Reads object_fault 2 (P.seen process.old) (P.seen process.new)
        (λ m. complex_at layout.now m addr) (trees_found result) }
{
    let real = word_past(process, addr, layout.float.value as u64)?;
    let imaginary = word_past(process, addr, layout.float.value as u64 + 8)?;
    Ok(Repr::Complex { real, imaginary })
}
