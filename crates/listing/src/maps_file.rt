//! The lines of maps text.
use elf64_core::Name;
use maps_text::{MapsEntry, PathName, parse_file};
use std::alloc::Global;
use std::io::{self, Write};

/// The process whose maps these are.
const PROCESS: u32 = 1;

/// A name as it is printed.
fn shown(name: &Name) -> &str {
    str::from_utf8(name.as_bytes()).unwrap_or("?")
}

/// The path of an entry: `path` with the path by range and the path by name, `component` with its text, or
/// `none`.
fn list_path<W: Write>(out: &mut W, path: &Option<PathName>) -> io::Result<()> {
    match path {
        None => writeln!(out, "none"),
        Some(PathName::Component(text)) => {
            let text = text.as_str();
            writeln!(out, "component {text}")
        }
        Some(PathName::Path(path)) => {
            let by_range = shown(path.actual_path());
            let by_name = shown(path.represented_path());
            writeln!(out, "path {by_range} {by_name}")
        }
    }
}

/// The line of an entry: the start, the end, the permissions, the offset and the path.
fn list_entry<W: Write>(out: &mut W, entry: &MapsEntry) -> io::Result<()> {
    let (start, end, offset) = (entry.range.start, entry.range.end, entry.offset);
    let perm = &entry.perm;
    write!(out, "{start} {end} {perm} {offset} ")?;
    list_path(out, &entry.path_name)
}

/// A line for each line of some maps text, `error` where it gives no entry.
pub(crate) fn list_maps<W: Write>(out: &mut W, alloc: Global, bytes: &[u8]) -> io::Result<()> {
    for answer in parse_file(alloc, bytes, PROCESS) {
        match answer {
            Ok(entry) => list_entry(out, &entry)?,
            Err(_) => writeln!(out, "error")?,
        }
    }
    Ok(())
}
