//! Which versions can be written for a layout.
ghost use Rattle.std.specs.Prelude.{◌≡◌, ◌↔◌, ◌≤◌, IsTrue, ℕ, IfSome, MatchOption};
ghost use Rattle.py_fields.specs.declared.layout.Lock.TheVariants.{Runtime};
ghost use Rattle.image_builder.specs.Covered.{serial_of, byte_behind, release_byte, IsReleaseByte, HasReleaseByte};
ghost use Rattle.image_builder.specs.Covered.{plain_digits};
ghost use Rattle.image_builder.specs.Covered.{IsNumbered, IsCovered, number_of};

use elf64_core::{Machine, Text};
use py_fields::{Layout, Lock, Version, get_tstate_current_offset};

/// The byte of a final release.
const FINAL: u8 = 0xF0;

/// Digits without the zeros in front of the last one.
fn plain_digits(digits: &[u8]) -> &[u8]
    ensures { result.now ≡ plain_digits digits.now }
{
    let mut rest = digits;
    while let [b'0', after @ ..] = rest {
        if after.is_empty() {
            return rest;
        }
        rest = after;
    }
    rest
}

/// A serial number below 16, perhaps with zeros in front.
fn serial_of(digits: &[u8]) -> Option<u8>
    ensures value { result ≡ serial_of digits.now }
    ensures bound { IfSome result (λ serial. serial ≤ 15) }
{
    match plain_digits(digits) {
        [ones @ b'0'..=b'9'] => Some(*ones - b'0'),
        [b'1', ones @ b'0'..=b'5'] => Some(10 + (*ones - b'0')),
        _ => None,
    }
}

/// The byte of a level and the serial number behind its letters.
fn byte_behind(level: u8, digits: &[u8]) -> Option<u8>
    requires { level ≤ 12 }
    ensures { result ≡ byte_behind level digits.now }
{
    match serial_of(digits) {
        Some(serial) => Some(16 * level + serial),
        None => None,
    }
}

/// The byte that flags have in a version's number.
fn release_byte(flags: &[u8]) -> Option<u8>
    ensures { result ≡ release_byte flags.now }
{
    match flags {
        [] => Some(FINAL),
        [b'a', digits @ ..] => byte_behind(10, digits),
        [b'b', digits @ ..] => byte_behind(11, digits),
        [b'r', b'c', digits @ ..] => byte_behind(12, digits),
        _ => None,
    }
}

/// The byte that flags have in a version's number.
fn byte_of(flags: &Text) -> Option<u8>
    ensures { MatchOption result ((byte : ℕ) → ¬ IsReleaseByte flags.now byte) (IsReleaseByte flags.now) }
{
    release_byte(flags.as_str().as_bytes())
}

fn has_byte(flags: &Text) -> bool
    ensures { IsTrue result ↔ HasReleaseByte flags.now }
{
    byte_of(flags).is_some()
}

/// Whether a number of CPython's tells a version.
fn is_numbered(version: &Version) -> bool
    ensures { IsTrue result ↔ IsNumbered version.now }
{
    version.major <= 255
        && version.minor <= 255
        && version.patch <= 255
        && has_byte(&version.release_flags)
        && version.build_metadata.is_none()
}

/// CPython's number of a version that has one.
pub(crate) fn number_of(version: &Version) -> u32
    requires { IsNumbered version.now }
    ensures { result ≡ number_of version.now }
{
    let byte = release_byte(version.release_flags.as_str().as_bytes()).unwrap_or(0);
    let release = (version.major as u32 * 256 + version.minor as u32) * 256 + version.patch as u32;
    release * 256 + u32::from(byte)
}

/// Whether a program with this owner can be written for a layout, a version and a machine.
pub(crate) fn is_covered(
    layout: &Layout,
    version: &Version,
    machine: Machine,
    owner: Option<u32>,
) -> bool
    ensures { IsTrue result ↔ IsCovered layout.now version.now machine owner }
{
    let is_placed = owner.is_none()
        || layout.lock != Lock::Runtime
        || get_tstate_current_offset(machine, version).is_some();
    layout.covers(version) && is_numbered(version) && is_placed
}
