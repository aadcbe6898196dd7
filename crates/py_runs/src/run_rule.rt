//! Where a run ends.
ghost use Rattle.std.specs.Prelude.{◌≡◌};
ghost use Rattle.py_runs.specs.Ends.{by_records, has_calls, run_end};

use py_fields::Version;
use py_records::Records;

/// Where a run ends.
#[derive(Clone, Copy, Debug, PartialEq, Eq)]
pub enum RunEnd {
    /// At each frame: up to 3.10.
    Each,
    /// At a frame whose byte at `place` is not 0; a C frame names its current frame at `current`, and the one before it
    /// at `previous`: 3.11.
    Entry {
        place: u32,
        current: u32,
        previous: u32,
    },
    /// At a frame whose byte at `place` is `owner`: from 3.12 on.
    Shim {
        place: u32,
        owner: u32,
    },
}

/// Whether each frame of a version is executed by a C call of its own.
fn has_calls(version: &Version) -> bool
    ensures { result ≡ has_calls version.now }
{
    version.major < 3 || (version.major == 3 && version.minor < 11)
}

/// What the records of a version say.
fn by_records(records: &Records) -> Option<RunEnd>
    ensures { result ≡ by_records records.now.frames }
{
    let frames = records.frames;
    if let Some(shim) = frames.shim {
        return match frames.owner {
            Some(owner) => Some(RunEnd::Shim {
                place: owner.place,
                owner: shim.owner,
            }),
            None => None,
        };
    }
    match (frames.entry, frames.cframe) {
        (Some(entry), Some(at)) => Some(RunEnd::Entry {
            place: entry.place,
            current: at.current,
            previous: at.previous,
        }),
        _ => None,
    }
}

/// Where a run of a version ends, by the records of that version; none where these don't describe it.
pub fn run_end(version: &Version, records: &Records) -> Option<RunEnd>
    ensures { result ≡ run_end version.now records.now.frames }
{
    if has_calls(version) {
        return Some(RunEnd::Each);
    }
    by_records(records)
}
