//! The parts of the line of a core that gives no stacks.
ghost use Rattle.std.specs.Prelude.{◌≡◌, ◌++◌, codes};
ghost use Rattle.std.specs.List.{concat};
ghost use Rattle.py_fields.specs.Version.{version_text};
ghost use Rattle.core_texts.specs.Parts.{said};
ghost use Rattle.fault_lines.specs.Lines.{core_parts, range_parts};

use crate::file_faults::{named_parts, text_part};
use core_texts::{Part, Parts, parts};
use py_fields::Version;
use py_process::CoreError;

/// What so many bytes at an address are.
fn range_parts<'a>(text: &'a str, addr: u64, len: u64) -> Parts<'a>
    ensures { said result ≡ concat (range_parts text.now addr len) }
{
    parts(&[
        Part::Text(text),
        Part::Text(" at "),
        Part::Address(addr),
        Part::Text(", "),
        Part::Decimal(len),
        Part::Text(" bytes"),
    ])
}

/// The version that no layout covers.
fn version_parts<'a>(version: &'a Version) -> Parts<'a>
    ensures { said result ≡ codes "no layout for Python " ++ version_text version.now }
{
    let (plus, metadata) = match &version.build_metadata {
        Some(metadata) => ("+", metadata.as_str()),
        None => ("", ""),
    };
    parts(&[
        Part::Text("no layout for Python "),
        Part::Decimal(version.major),
        Part::Text("."),
        Part::Decimal(version.minor),
        Part::Text("."),
        Part::Decimal(version.patch),
        Part::Text(version.release_flags.as_str()),
        Part::Text(plus),
        Part::Text(metadata),
    ])
}

/// Why a core gives no stacks: each cause has a text of its own, with its path, addresses in hexadecimal digits, and
/// lengths in bytes.
pub fn core_parts<'a>(error: &'a CoreError) -> Parts<'a>
    ensures { said result ≡ concat (core_parts error.now) }
{
    match error {
        CoreError::NotElf64 => text_part("not an ELF64 little-endian file"),
        CoreError::BadHeader => text_part("bad program headers"),
        CoreError::NoNotes => text_part("no note segment"),
        CoreError::BadNote => text_part("bad note"),
        CoreError::NoBinary => text_part("no named executable map"),
        CoreError::NoImage { path } => named_parts("image not given: ", path.as_bytes()),
        CoreError::BadImage { path } => named_parts("bad image: ", path.as_bytes()),
        CoreError::UnreadableVersion { addr, len } => {
            range_parts("version unreadable", *addr, *len)
        }
        CoreError::NoVersion => text_part("no Python version found"),
        CoreError::UnsupportedVersion { version } => version_parts(version),
        CoreError::NoInterpreter => text_part("no interpreter found"),
        CoreError::Unreadable { addr, len } => range_parts("unreadable", *addr, *len),
        CoreError::NativeUnsupported => text_part("native frames are not read from a core"),
        CoreError::SubprocessesUnsupported => text_part("subprocesses are not read from a core"),
        CoreError::BadValue { frame } => parts(&[
            Part::Text("bad variable name or count in frame "),
            Part::Address(*frame),
        ]),
        CoreError::LocalsLimit { count } => parts(&[
            Part::Text("a frame counts "),
            Part::Signed(*count),
            Part::Text(" locals"),
        ]),
        CoreError::ThreadLimit => text_part("more than 4096 threads"),
        CoreError::FrameLimit => text_part("more than 4096 frames in a thread"),
        CoreError::ChainLimit => text_part("more than 16384 frames visited in a thread"),
        CoreError::OutOfMemory => text_part("out of memory"),
    }
}
