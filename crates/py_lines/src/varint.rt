//! Numbers of several bytes in a table of locations.
ghost use Rattle.std.specs.Prelude.{◌≡◌, ◌+◌, ◌≤◌, ◌<◌, ◌^◌, ℕ, pos, ◌≤ℤ◌, ◌<ℤ◌, negsuc, length, drop, IfSome};
ghost use Rattle.std.specs.Prelude.{option_map};
ghost use Rattle.py_lines.specs.Varint.{varint, varint_within, signed_of};

/// A number, and how many bytes of the table it takes.
#[derive(Clone, Copy)]
pub(crate) struct Number {
    pub(crate) value: u64,
    pub(crate) size: usize,
}

/// The most bytes that a number has.
const MOST: u32 = 6;

/// The number that the bytes begin with, by `Objects/locations.md` of CPython: six bits of each byte, the
/// lowest first. There is none where the bytes end before it does, or it has more than six bytes.
pub(crate) fn varint(bytes: &[u8]) -> Option<Number>
    ensures value { result ≡ varint bytes.now }
    ensures whole { IfSome result (λ v. v.size ≤ length bytes.now) }
    ensures small { IfSome result (λ v. v.value < 2 ^ 36) }
{
    varint_within(MOST, bytes)
}

/// The same of at most so many bytes.
fn varint_within(most: u32, bytes: &[u8]) -> Option<Number>
    requires { most ≤ 6 }
    ensures value { result ≡ varint_within most bytes.now }
    ensures whole { IfSome result (λ v. v.size ≤ length bytes.now) }
    ensures small { IfSome result (λ v. v.value < 64 ^ most) }
{
    if most == 0 || bytes.is_empty() {
        return None;
    }
    let low = u64::from(bytes[0] % 64);
    if bytes[0] >> 6 & 1 == 0 {
        return Some(Number {
            value: low,
            size: 1,
        });
    }
    let high = varint_within(most - 1, &bytes[1..])?;
    Some(Number {
        value: low + 64 * high.value,
        size: 1 + high.size,
    })
}

impl Number {
    /// The signed number: twice the magnitude, and one more where it is negative.
    pub(crate) fn signed(self) -> i64
        requires { self.value < 2 ^ 36 }
        ensures value { result ≡ signed_of self.value }
        ensures low { negsuc (2 ^ 35) <ℤ result }
        ensures high { result ≤ℤ pos (2 ^ 35) }
    {
        let magnitude = (self.value / 2) as i64;
        if self.value % 2 == 1 {
            -magnitude
        } else {
            magnitude
        }
    }
}

/// Where a number ends that begins at this offset.
pub(crate) fn varint_end(bytes: &[u8], at: usize) -> Option<usize>
    requires { at ≤ length bytes.now }
    ensures value { result ≡ option_map (λ v. at + v.size) (varint (drop at bytes.now)) }
    ensures whole { IfSome result (λ end. end ≤ length bytes.now) }
{
    let number = varint(&bytes[at..])?;
    Some(at + number.size)
}
