//! The version that the name of Python's program tells.
ghost use Rattle.std.specs.Prelude.{◌≡◌, ◌<◌, ◌≤◌, ◌-◌, ◌∷◌, [], ℕ, true, false, length, slice_index, IfOk};
ghost use Rattle.std.specs.Prelude.{MatchOption, option_map};
ghost use Rattle.std.specs.List.{after_last, slice_split};
ghost use Rattle.py_fields.specs.Version.{release};
ghost use Rattle.py_process.specs.FileVersions.{decimal_of, file_version, is_slash};
ghost use Rattle.py_fields.specs.Version.{is_dot};

use py_fields::Version;
use std::alloc::{AllocError, Global};

/// Where the last part of a path begins.
fn last_start(path: &[u8]) -> usize
    ensures within { result ≤ length path.now }
    ensures after { (k : ℕ) → result ≤ k → k < length path.now → is_slash (slice_index path.now k) ≡ false }
    ensures slash { 0 < result → is_slash (slice_index path.now (result - 1)) ≡ true }
{
    match path.iter().rposition(|byte| *byte == b'/') {
        Some(place) => place + 1,
        None => 0,
    }
}

/// What stands behind the last slash of a path, or all of it.
pub(crate) fn last_part(path: &[u8]) -> &[u8]
    ensures { result.now ≡ after_last is_slash path.now }
{
    &path[last_start(path)..]
}

/// Where the first dot stands, or the length.
fn dot_place(text: &[u8]) -> usize
    ensures within { result ≤ length text.now }
    ensures before { (k : ℕ) → k < result → is_dot (slice_index text.now k) ≡ false }
    ensures dot { result < length text.now → is_dot (slice_index text.now result) ≡ true }
{
    text.iter()
        .position(|byte| *byte == b'.')
        .unwrap_or(text.len())
}

/// What stands before the first dot, and what behind it.
pub(crate) fn split_at_dot(text: &[u8]) -> Option<(&[u8], &[u8])>
    ensures { MatchOption result (slice_split is_dot text.now ≡ text.now ∷ [])
        (λ parts. slice_split is_dot text.now ≡ parts.0.now ∷ slice_split is_dot parts.1.now) }
{
    let place = dot_place(text);
    if place == text.len() {
        return None;
    }
    Some((&text[..place], &text[place + 1..]))
}

/// The number that one or more ASCII digits write, where it is below 2^64.
pub(crate) fn decimal(digits: &[u8]) -> Option<u64>
    ensures { result ≡ decimal_of digits.now }
{
    let mut number: u64 = 0;
    for digit in digits {
        if !digit.is_ascii_digit() {
            return None;
        }
        number = number
            .checked_mul(10)?
            .checked_add(u64::from(*digit - b'0'))?;
    }
    if digits.is_empty() {
        return None;
    }
    Some(number)
}

/// The two numbers that a path tells.
#[tactic(auto, unfolding(crate::specs::FileVersions::file_version))]
fn file_numbers(path: &[u8]) -> Option<(u64, u64)>
    ensures { option_map (λ numbers. release numbers.0 numbers.1 0) result ≡ file_version path.now }
{
    let numbers = last_part(path).strip_prefix(b"python")?;
    let (major, rest) = split_at_dot(numbers)?;
    let minor = match split_at_dot(rest) {
        Some((minor, _)) => minor,
        None => rest,
    };
    Some((decimal(major)?, decimal(minor)?))
}

/// The version that a path tells, where it tells one. The one error is out of memory.
pub(crate) fn file_version(alloc: Global, path: &[u8]) -> Result<Option<Version>, AllocError>
    ensures { IfOk result (λ version. version ≡ file_version path.now) }
{
    match file_numbers(path) {
        Some((major, minor)) => Ok(Some(Version::of_numbers(alloc, major, minor, 0)?)),
        None => Ok(None),
    }
}
