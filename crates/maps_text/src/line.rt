//! One line.
ghost use Rattle.std.specs.Prelude.{◌≡◌, Some, None, MatchResult};
ghost use Rattle.elf64_core.specs.Outcomes.{IsUnless, first_cause};
ghost use Rattle.maps_text.specs.Lines.{line_range_of, perm_in_line, map_offset_of, line_path_of, range_faults};
ghost use Rattle.maps_text.specs.Lines.{mode_faults, offset_faults, device_faults, line_faults, maps_line_of};
ghost use Rattle.maps_text.specs.Fields.{behind, field, trimmed};
ghost use Rattle.maps_text.specs.Perms.{perm_of};
ghost use Rattle.std.specs.Str.Parse.{digits_value};

use crate::fields::{cut_field, cut_range, number_in};
use crate::path::path_name;
use crate::perm::perm_in;
use crate::{MapsEntry, MapsError, Perm};
use std::alloc::Global;
use std::ops::Range;

/// What a line says in front of its device, and the path.
#[derive(Drop)]
struct Fields<'a> {
    range: Range<u64>,
    perm: Perm,
    offset: u64,
    path: &'a [u8],
}

/// The range that a line begins with, and what stands behind it.
fn range_in(line: &[u8]) -> Result<(Range<u64>, &[u8]), MapsError>
    ensures { MatchResult result (λ parts. (first_cause (range_faults line.now) ≡ None)
        × (parts.0 ≡ line_range_of line.now) × (parts.1.now ≡ behind line.now))
        (λ error. first_cause (range_faults line.now) ≡ Some error) }
{
    let Some((range, rest)) = cut_field(line) else {
        return Err(MapsError::NoRange);
    };
    let Some((start, end)) = cut_range(range) else {
        return Err(MapsError::NoRange);
    };
    let Some(start) = number_in(start) else {
        return Err(MapsError::BadStart);
    };
    let Some(end) = number_in(end) else {
        return Err(MapsError::BadEnd);
    };
    Ok((start..end, rest))
}

/// What the mode allows that some bytes begin with, and what stands behind it.
fn mode_in(bytes: &[u8]) -> Result<(Perm, &[u8]), MapsError>
    ensures { MatchResult result (λ parts. (first_cause (mode_faults bytes.now) ≡ None)
        × (parts.0 ≡ perm_of (field bytes.now)) × (parts.1.now ≡ behind bytes.now))
        (λ error. first_cause (mode_faults bytes.now) ≡ Some error) }
{
    let Some((mode, rest)) = cut_field(bytes) else {
        return Err(MapsError::NoMode);
    };
    let Some(perm) = perm_in(mode) else {
        return Err(MapsError::BadMode);
    };
    Ok((perm, rest))
}

/// The offset that some bytes begin with, and what stands behind it.
fn offset_in(bytes: &[u8]) -> Result<(u64, &[u8]), MapsError>
    ensures { MatchResult result (λ parts. (first_cause (offset_faults bytes.now) ≡ None)
        × (parts.0 ≡ digits_value 16 (field bytes.now)) × (parts.1.now ≡ behind bytes.now))
        (λ error. first_cause (offset_faults bytes.now) ≡ Some error) }
{
    let Some((offset, rest)) = cut_field(bytes) else {
        return Err(MapsError::NoOffset);
    };
    let Some(offset) = number_in(offset) else {
        return Err(MapsError::BadOffset);
    };
    Ok((offset, rest))
}

/// The path behind the device that some bytes begin with, and the inode.
fn path_in(bytes: &[u8]) -> Result<&[u8], MapsError>
    ensures { MatchResult result (λ path. (first_cause (device_faults bytes.now) ≡ None)
        × (path.now ≡ trimmed (behind (behind bytes.now))))
        (λ error. first_cause (device_faults bytes.now) ≡ Some error) }
{
    let Some((_device, rest)) = cut_field(bytes) else {
        return Err(MapsError::NoDevice);
    };
    match cut_field(rest) {
        Some((_inode, path)) => Ok(path.trim_ascii()),
        None => Ok(b""),
    }
}

/// The fields of a line.
fn fields_in(line: &[u8]) -> Result<Fields<'_>, MapsError>
    ensures { MatchResult result (λ fields. (first_cause (line_faults line.now) ≡ None)
        × (fields.range ≡ line_range_of line.now) × (fields.perm ≡ perm_in_line line.now)
        × (fields.offset ≡ map_offset_of line.now) × (fields.path.now ≡ line_path_of line.now))
        (λ error. first_cause (line_faults line.now) ≡ Some error) }
{
    let (range, rest) = range_in(line)?;
    let (perm, rest) = mode_in(rest)?;
    let (offset, rest) = offset_in(rest)?;
    let path = path_in(rest)?;
    Ok(Fields {
        range,
        perm,
        offset,
        path,
    })
}

/// What a line says of a map of a process, or why it is refused.
pub(crate) fn parse_line(
    alloc: Global,
    text: &mut String,
    line: &[u8],
    pid: u32,
) -> Result<MapsEntry, MapsError>
    ensures { IsUnless MapsError.OutOfMemory (maps_line_of pid line.now) result }
{
    let fields = fields_in(line)?;
    let path_name = path_name(alloc, text, pid, &fields.range, fields.path)?;
    Ok(MapsEntry {
        range: fields.range,
        perm: fields.perm,
        offset: fields.offset,
        path_name,
        build_id: None,
    })
}
