//! The version that the names of a process's mapped files tell.
ghost use Rattle.std.specs.Prelude.{◌≡◌, IfOk};
ghost use Rattle.std.specs.List.{slice_split};
ghost use Rattle.py_fields.specs.Version.{is_dot};
ghost use Rattle.py_process.specs.NamedVersions.{differs, map_numbers, name_numbers, numbers_in, numbers_told};
ghost use Rattle.py_process.specs.NamedVersions.{the_only, version_of_names, without_m};

use crate::file_version::{decimal, last_part, split_at_dot};
use image_memory::CoreMapRange;
use py_fields::Version;
use std::alloc::{AllocError, Global};

/// A text less the letter `m` at its end, where one stands there.
fn without_m(text: &[u8]) -> &[u8]
    ensures { result.now ≡ without_m text.now }
{
    let length = text.len();
    if length > 0 && text[length - 1] == b'm' {
        return &text[..length - 1];
    }
    text
}

/// The numbers of the first two parts between dots.
fn numbers_in(text: &[u8]) -> Option<(u64, u64)>
    ensures { result ≡ numbers_in text.now }
{
    let (major, rest) = split_at_dot(text)?;
    let minor = match split_at_dot(rest) {
        Some((minor, _)) => minor,
        None => rest,
    };
    Some((decimal(major)?, decimal(without_m(minor))?))
}

/// The numbers that the last part of a path tells: behind `libpython`, or else behind `python`.
#[tactic(auto, unfolding(crate::specs::NamedVersions::name_numbers))]
fn name_numbers(path: &[u8]) -> Option<(u64, u64)>
    ensures { result ≡ name_numbers path.now }
{
    let part = last_part(path);
    if let Some(rest) = part.strip_prefix(b"libpython") {
        return numbers_in(rest);
    }
    numbers_in(part.strip_prefix(b"python")?)
}

/// Those of a map's file.
fn map_numbers(map: &CoreMapRange) -> Option<(u64, u64)>
    ensures { result ≡ map_numbers map.now }
{
    name_numbers(map.filename()?.as_bytes())
}

/// Whether others were told than these.
fn differs(told: Option<(u64, u64)>, numbers: (u64, u64)) -> bool
    ensures { result ≡ differs told numbers }
{
    match told {
        Some(one) => one.0 != numbers.0 || one.1 != numbers.1,
        None => false,
    }
}

/// The numbers that all maps tell that tell any, where these are the same.
fn only_numbers(maps: &[CoreMapRange]) -> Option<(u64, u64)>
    ensures { result ≡ the_only (numbers_told maps.now) }
{
    let mut told: Option<(u64, u64)> = None;
    for map in maps {
        if let Some(numbers) = map_numbers(map) {
            if differs(told, numbers) {
                return None;
            }
            told = Some(numbers);
        }
    }
    told
}

/// The version that the names of mapped files tell: the major and minor number of the last part of a path, behind
/// `libpython` or `python` and a dot apart, as `libpython3.11.so.1.0` and `python3.11` have them; behind the minor one
/// `m` may stand, as in `libpython3.6m.so.1.0`. None where no name tells one, or two tell different ones. The patch
/// isn't told, and is 0. The one error is out of memory.
#[tactic(auto, unfolding(crate::specs::NamedVersions::version_of_names))]
pub fn version_of_names(alloc: Global, maps: &[CoreMapRange]) -> Result<Option<Version>, AllocError>
    ensures { IfOk result (λ version. version ≡ version_of_names maps.now) }
{
    match only_numbers(maps) {
        Some((major, minor)) => Ok(Some(Version::of_numbers(alloc, major, minor, 0)?)),
        None => Ok(None),
    }
}
