//! The path that a line gives.
ghost use Rattle.std.specs.Prelude.{◌≡◌, IfOk, OnOk, string_bytes};
ghost use Rattle.bstr.specs.Utf8.{lossy_chars};
ghost use Rattle.maps_text.specs.Paths.{maps_file_text, path_name_of, undeleted};

use crate::{EntryPath, PathName};
use bstr::ByteSlice;
use elf64_core::{Name, Text};
use std::alloc::{AllocError, Global};
use std::ops::Range;

/// What a kernel writes behind the path of a file that is gone.
const DELETED: &[u8] = b" (deleted)";

/// The path less a final ` (deleted)`.
fn undeleted(path: &[u8]) -> &[u8]
    ensures { result.now ≡ undeleted path.now }
{
    match path.strip_suffix(DELETED) {
        Some(front) => front,
        None => path,
    }
}

/// Writes the path of the file of a map by its process and its range, in place of what the text holds.
fn write_maps_file(text: &mut String, pid: u32, start: u64, end: u64) -> Result<(), AllocError>
    ensures { OnOk result (string_bytes text.new ≡ maps_file_text pid start end) }
{
    text.clear();
    write!(text, "/proc/{pid}/map_files/{start:x}-{end:x}")
}

/// The file of a map by its process and its range.
fn maps_file(
    alloc: Global,
    text: &mut String,
    pid: u32,
    range: &Range<u64>,
) -> Result<Name, AllocError>
    ensures { IfOk result (λ name. name ≡ maps_file_text pid range.now.start range.now.end) }
{
    write_maps_file(text, pid, range.start, range.end)?;
    Name::of(alloc, text.as_bytes())
}

/// The characters of what is no file.
fn component(alloc: Global, path: &[u8]) -> Result<Text, AllocError>
    ensures { IfOk result (λ text. text ≡ lossy_chars path.now) }
{
    let mut text = String::with_capacity(alloc, path.len())?;
    path.to_str_lossy_into(&mut text)?;
    let shared = Text::from_string(text)?;
    Ok(shared)
}

/// What the bytes of a path are: nothing, a file where they begin with `/`, or something else.
pub(crate) fn path_name(
    alloc: Global,
    text: &mut String,
    pid: u32,
    range: &Range<u64>,
    path: &[u8],
) -> Result<Option<PathName>, AllocError>
    ensures { IfOk result (λ name. name ≡ path_name_of pid range.now path.now) }
{
    match path {
        [] => Ok(None),
        [b'/', ..] => {
            let maps_file = maps_file(alloc, text, pid, range)?;
            let symbolic_path = Name::of(alloc, undeleted(path))?;
            Ok(Some(PathName::Path(EntryPath {
                maps_file,
                symbolic_path,
            })))
        }
        _ => Ok(Some(PathName::Component(component(alloc, path)?))),
    }
}

impl PathName {
    /// What the bytes of a path are, as a line of maps text gives it for a range of a process: None where there are
    /// none, a `Path` less a final ` (deleted)` where they begin with `/`, and else a `Component`.
    ///
    /// The file by the process and the range is `/proc/PID/map_files/START-END`: the number of the process in
    /// decimal, those of the range in lower-case hexadecimal without leading zeros.
    pub fn of(
        alloc: Global,
        pid: u32,
        range: &Range<u64>,
        path: &[u8],
    ) -> Result<Option<PathName>, AllocError>
        ensures { IfOk result (λ name. name ≡ path_name_of pid range.now path.now) }
    {
        let mut text = String::new(alloc);
        path_name(alloc, &mut text, pid, range, path)
    }
}
