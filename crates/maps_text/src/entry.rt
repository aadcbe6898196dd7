//! Entries: what a line says of a map.
ghost use Rattle.std.specs.Prelude.{◌≡◌};

use crate::Perm;
use elf64_core::{BuildId, Name, Text};
use std::ops::Range;

/// Where the file of a map is found.
#[derive(Debug, Drop, PartialEq, Eq, Hash)]
pub struct EntryPath {
    /// The file by the process and the range that it is mapped to:
    /// `/proc/PID/map_files/START-END`.
    pub maps_file: Name,
    /// The path that the line gives, less a final ` (deleted)`.
    pub symbolic_path: Name,
}

impl EntryPath {
    /// The path that finds the file while the process runs: `maps_file`.
    pub fn actual_path(&self) -> &Name
        ensures { result.now ≡ self.now.maps_file }
    {
        &self.maps_file
    }

    /// The path to show: `symbolic_path`.
    pub fn represented_path(&self) -> &Name
        ensures { result.now ≡ self.now.symbolic_path }
    {
        &self.symbolic_path
    }
}

/// What a line gives as a path.
#[derive(Debug, Drop, PartialEq, Eq, Hash)]
pub enum PathName {
    /// A file.
    Path(EntryPath),
    /// What is no file, as `[heap]` or `anon_inode:bpf-map`: its characters where it is UTF-8; U+FFFD for each
    /// longest piece that is not.
    Component(Text),
}

/// What a line says of a map.
#[derive(Debug, Drop, PartialEq)]
pub struct MapsEntry {
    /// The addresses that it covers.
    pub range: Range<u64>,
    /// What it allows.
    pub perm: Perm,
    /// Where it begins in its file, in bytes.
    pub offset: u64,
    /// Its path; None where the line gives none.
    pub path_name: Option<PathName>,
    /// The build id of its file. A line gives none.
    pub build_id: Option<BuildId>,
}

/// The entry itself.
impl AsRef<MapsEntry> for MapsEntry {
    fn as_ref(&self) -> &MapsEntry
        ensures { result.now ≡ self.now }
    {
        self
    }
}
