//! Integer objects.
ghost use Rattle.std.specs.Prelude.{◌≡◌, ◌⊎◌, ◌<◌, ◌^◌, length, FitsSigned, IfOk, IsErrOf, IsTrue};
ghost use Rattle.std.specs.Int.{w64};
ghost use Rattle.py_fields.specs.Sound.{IsSound};
ghost use Rattle.py_builtins.specs.Consulted.{Consults};
ghost use Rattle.py_builtins.specs.Integers.{digits_of, long_at, magnitude_at, signed, small_at};
ghost use Rattle.py_builtins.specs.ObjectError.{object_fault};

use crate::ObjectError;
use elf64_core::{u32_in, u64_in};
use process_memory::{ProcessMemory, record_in, word_past};
use py_fields::{Integers, Layout};

/// How many bytes of a record are read at most.
const RECORD_LIMIT: usize = 65535;

/// The number that an object has, by the rule of Python 2's `int` objects: the 8 bytes in its record, signed.
///
/// A record that is not in memory is `Unreadable`. It takes no memory: out of memory comes only where a read
/// of the process may want it. One read.
pub fn copy_int<P: ProcessMemory>(
    process: &mut P,
    layout: &Layout,
    addr: u64,
) -> Result<i64, ObjectError>
    requires sound { IsSound layout.now }
    ensures answer { Consults layout.now object_fault 1 (P.seen process.old) (P.seen process.new)
        (λ m. small_at layout.now m addr) result }
    ensures memory { IsErrOf result ObjectError.OutOfMemory → IsTrue (P.seen process.old).may_want_memory }
{
    let mut record = [0; RECORD_LIMIT];
    let object = &mut record[..layout.small.size as usize];
    record_in(process, addr, object)?;
    Ok(u64_in(object, layout.small.value as usize).cast_signed())
}

/// How many digits of 30 bits an integer has, and its sign.
#[derive(Clone, Copy)]
pub struct Digits {
    /// How many digits there are.
    pub count: u64,
    /// Whether the integer is below zero.
    pub negative: bool,
}

/// The number that an object has, by the rule of CPython's `int` objects (Python 2's `long`), and whether it
/// has more digits than are read.
///
/// Its record states how many digits of 30 bits it has, with the sign: with the integers `Signed` a signed
/// number, with `Tagged` the number above three bits of which the lowest two are 2 where it is negative. Up to
/// two digits are read, the lowest first, of 4 bytes each; a longer number shows as the number of its digits,
/// with its sign, and true.
///
/// The record is looked at first, then 8 bytes at the digits where there are two; what is not in memory is
/// `Unreadable`. It takes no memory: out of memory comes only where a read of the process may want it. At
/// most 2 reads.
pub fn copy_long<P: ProcessMemory>(
    process: &mut P,
    layout: &Layout,
    addr: u64,
) -> Result<(i64, bool), ObjectError>
    requires sound { IsSound layout.now }
    ensures answer { Consults layout.now object_fault 2 (P.seen process.old) (P.seen process.new)
        (λ m. long_at layout.now m addr) result }
    ensures memory { IsErrOf result ObjectError.OutOfMemory → IsTrue (P.seen process.old).may_want_memory }
{
    let mut record = [0; RECORD_LIMIT];
    let object = &mut record[..layout.long.size as usize];
    record_in(process, addr, object)?;
    let digits = digits_of(layout.integers, u64_in(object, layout.long.count as usize));
    let magnitude = read_magnitude(process, layout, addr, object, digits.count)?;
    Ok((signed(digits.negative, magnitude), digits.count > 2))
}

/// The magnitude that so many digits have. At most one read.
fn read_magnitude<P: ProcessMemory>(
    process: &mut P,
    layout: &Layout,
    addr: u64,
    object: &[u8],
    count: u64,
) -> Result<u64, ObjectError>
    requires sound { IsSound layout.now }
    requires object { length object.now ≡ layout.now.long.size }
    ensures answer { Consults layout.now object_fault 1 (P.seen process.old) (P.seen process.new)
        (λ m. magnitude_at layout.now m addr object.now count) result }
    ensures memory { IsErrOf result ObjectError.OutOfMemory → IsTrue (P.seen process.old).may_want_memory }
    ensures small { IfOk result (λ n. (n < 2 ^ 63) ⊎ (n ≡ count)) }
{
    match count {
        0 => Ok(0),
        1 => Ok(u64::from(u32_in(object, layout.long.digits as usize))),
        2 => {
            let digits = word_past(process, addr, layout.long.digits as u64)?;
            Ok(digits % 0x1_0000_0000 + digits / 0x1_0000_0000 * 0x4000_0000)
        }
        _ => Ok(count),
    }
}

/// The digits that the count in an integer's record states.
fn digits_of(integers: Integers, count: u64) -> Digits
    ensures digits { result ≡ digits_of integers count }
    ensures fits { FitsSigned w64 (signed result.negative result.count) }
{
    match integers {
        Integers::Signed => Digits {
            count: count.cast_signed().unsigned_abs(),
            negative: count.cast_signed() < 0,
        },
        Integers::Tagged => Digits {
            count: count / 8,
            negative: count % 4 == 2,
        },
    }
}

/// A magnitude with a sign.
fn signed(negative: bool, magnitude: u64) -> i64
    requires { FitsSigned w64 (signed negative magnitude) }
    ensures { result ≡ signed negative magnitude }
{
    if !negative {
        magnitude as i64
    } else if magnitude == 0 {
        0
    } else {
        -1 - (magnitude - 1) as i64
    }
}
