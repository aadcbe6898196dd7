//! The headers of a file of segments.
ghost use Rattle.std.specs.Prelude.{◌≡◌, ◌<◌, ◌^◌, ◌++◌, IfOk, length};
ghost use Rattle.std.specs.List.{flat_map};
ghost use Rattle.core_slim.specs.Files.{contents_start, file_header, number_of, program_header};

use elf64_core::{Machine, Segment};
use std::alloc::AllocError;

/// How a file of 64 bits begins whose numbers have their lowest byte first.
const IDENTITY: &[u8] = b"\x7fELF\x02\x01";

/// How long the header of a file is, in bytes, and so where the program headers begin.
const HEADER_SIZE: usize = 64;

/// How long a program header is, in bytes.
const ENTRY_SIZE: usize = 56;

/// Where the contents of a file of so many segments begin.
pub(crate) fn contents_start(count: usize) -> u64
    requires { count < 2 ^ 16 }
    ensures { result ≡ contents_start count }
{
    (HEADER_SIZE + ENTRY_SIZE * count) as u64
}

/// The number of a machine; 0 is that of none.
fn number_of(machine: Machine) -> u16
    ensures { result ≡ number_of machine }
{
    match machine {
        Machine::X86_64 => 62,
        Machine::Aarch64 => 183,
        Machine::Other => 0,
    }
}

/// The header of a file of so many segments.
#[tactic(auto, unfolding(crate::specs::Files::file_header))]
fn file_header(machine: Machine, count: u16) -> [u8; HEADER_SIZE]
    ensures { result ≡ file_header (number_of machine) count }
{
    let mut header = [0; HEADER_SIZE];
    header[..6].copy_from_slice(IDENTITY);
    header[18..20].copy_from_slice(&number_of(machine).to_le_bytes());
    header[32..40].copy_from_slice(&(HEADER_SIZE as u64).to_le_bytes());
    header[54..56].copy_from_slice(&(ENTRY_SIZE as u16).to_le_bytes());
    header[56..58].copy_from_slice(&count.to_le_bytes());
    header
}

/// The program header of a segment.
#[tactic(auto, unfolding(crate::specs::Files::program_header))]
fn program_header(segment: &Segment) -> [u8; ENTRY_SIZE]
    ensures { result ≡ program_header segment.now }
{
    let mut header = [0; ENTRY_SIZE];
    header[..4].copy_from_slice(&segment.kind.to_le_bytes());
    header[4..8].copy_from_slice(&segment.flags.to_le_bytes());
    header[8..16].copy_from_slice(&segment.offset.to_le_bytes());
    header[16..24].copy_from_slice(&segment.addr.to_le_bytes());
    header[32..40].copy_from_slice(&segment.file_size.to_le_bytes());
    header[40..48].copy_from_slice(&segment.mem_size.to_le_bytes());
    header
}

/// Adds the header of a file of some segments, of which there are so many, and their program headers.
pub(crate) fn add_headers(
    bytes: &mut Vec<u8>,
    machine: Machine,
    segments: &[Segment],
) -> Result<(), AllocError>
    requires { length segments.now < 2 ^ 16 }
    ensures { IfOk result (λ _. bytes.new.items ≡ bytes.old.items
        ++ file_header (number_of machine) (length segments.now) ++ flat_map program_header segments.now) }
{
    bytes.extend_from_slice(&file_header(machine, segments.len() as u16))?;
    for segment in segments {
        bytes.extend_from_slice(&program_header(segment))?;
    }
    Ok(())
}
