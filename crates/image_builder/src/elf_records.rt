//! The records of an ELF64 file.
ghost use Rattle.std.specs.Prelude.{◌≡◌, ◌++◌, IfOk};
ghost use Rattle.image_builder.specs.CoreFiles.{segment_headers};
ghost use Rattle.image_builder.specs.ElfRecords.{alignment, file_fields, machine_number, section_fields};
ghost use Rattle.image_builder.specs.ElfRecords.{segment_fields, symbol_fields};
ghost use Rattle.image_builder.specs.Records.{record_of};

use crate::records::add_record;
use elf64_core::{Machine, NOTE, Section, Segment};
use object_builder::Value::{Bytes, U8, U16, U32, U64};
use std::alloc::AllocError;

/// What differs between the headers of two files.
#[derive(Clone, Copy)]
pub(crate) struct FileHeader {
    /// 2 for an executable, 4 for a core.
    pub kind: u16,
    pub machine: Machine,
    /// How many program headers follow it.
    pub segments: u16,
    /// Where the section headers begin, how many there are, and which section has their names.
    pub sections_at: u64,
    pub sections: u16,
    pub names: u16,
}

/// The number that names a machine in a header.
fn machine_number(machine: Machine) -> u16
    ensures { result ≡ machine_number machine }
{
    match machine {
        Machine::X86_64 => 62,
        Machine::Aarch64 => 183,
        Machine::Other => 0,
    }
}

/// Adds the header of a file. The one error is out of memory.
pub(crate) fn add_file_header(out: &mut Vec<u8>, header: FileHeader) -> Result<(), AllocError>
    ensures { IfOk result (λ _. out.new.items ≡ out.old.items
        ++ record_of (file_fields header.kind header.machine header.segments
        header.sections_at header.sections header.names)) }
{
    let machine = machine_number(header.machine);
    let fields = [
        Bytes(&[0x7f, b'E', b'L', b'F', 2, 1]),
        U8(1),
        U8(0),
        U64(0),
        U16(header.kind),
        U16(machine),
        U32(1),
        U64(0),
        U64(64),
        U64(header.sections_at),
        U32(0),
        U16(64),
        U16(56),
        U16(header.segments),
        U16(64),
        U16(header.sections),
        U16(header.names),
    ];
    add_record(out, &fields)
}

/// To how many bytes a segment of a kind is aligned.
fn alignment(kind: u32) -> u64
    ensures { result ≡ alignment kind }
{
    if kind == NOTE { 4 } else { 4096 }
}

/// Adds the header of a segment. The one error is out of memory.
fn add_segment(out: &mut Vec<u8>, segment: &Segment) -> Result<(), AllocError>
    ensures { IfOk result (λ _. out.new.items ≡ out.old.items ++ record_of (segment_fields segment.now)) }
{
    let fields = [
        U32(segment.kind),
        U32(segment.flags),
        U64(segment.offset),
        U64(segment.addr),
        U64(0),
        U64(segment.file_size),
        U64(segment.mem_size),
        U64(alignment(segment.kind)),
    ];
    add_record(out, &fields)
}

/// Adds the headers of segments. The one error is out of memory.
pub(crate) fn add_segments(out: &mut Vec<u8>, segments: &[Segment]) -> Result<(), AllocError>
    ensures { IfOk result (λ _. out.new.items ≡ out.old.items ++ segment_headers segments.now) }
{
    for segment in segments {
        add_segment(out, segment)?;
    }
    Ok(())
}

/// Adds the header of a section. The one error is out of memory.
pub(crate) fn add_section(
    out: &mut Vec<u8>,
    section: Section,
    flags: u64,
    info: u32,
    align: u64,
    entry_size: u64,
) -> Result<(), AllocError>
    ensures { IfOk result (λ _. out.new.items ≡ out.old.items
        ++ record_of (section_fields section flags info align entry_size)) }
{
    let fields = [
        U32(section.name),
        U32(section.kind),
        U64(flags),
        U64(section.addr),
        U64(section.offset),
        U64(section.size),
        U32(section.link),
        U32(info),
        U64(align),
        U64(entry_size),
    ];
    add_record(out, &fields)
}

/// Adds a symbol: a global object of the first section, by where its name begins. The one error is out of memory.
pub(crate) fn add_symbol(
    out: &mut Vec<u8>,
    name: u32,
    value: u64,
    size: u64,
) -> Result<(), AllocError>
    ensures { IfOk result (λ _. out.new.items ≡ out.old.items ++ record_of (symbol_fields name value size)) }
{
    let fields = [U32(name), U8(0x11), U8(0), U16(1), U64(value), U64(size)];
    add_record(out, &fields)
}
