//! The core of a program: its headers, its notes, and the memory of three segments.
ghost use Rattle.std.specs.Prelude.{◌≡◌, ◌++◌, ◌<◌, ◌^◌, length, IfOk};
ghost use Rattle.image_builder.specs.CoreFiles.{core_file, core_head, core_notes, image_path, laid_note};
ghost use Rattle.image_builder.specs.CoreFiles.{process_record, status_fields, table_fields};
ghost use Rattle.image_builder.specs.Records.{record_of};

use crate::elf_records::{FileHeader, add_file_header, add_segments};
use crate::records::{add_filled, add_record};
use elf64_core::{LOAD, Machine, NOTE, Segment};
use object_builder::Value::{Bytes, U8, U16, U32, U64};
use std::alloc::{AllocError, Global};

/// A page of the file, in bytes.
const PAGE: usize = 4096;
/// How many bytes the notes take.
const NOTES: u64 = 0x170;

/// The name of the image, under which it was mapped.
pub(crate) fn image_path() -> &'static [u8]
    ensures { result.now ≡ image_path }
{
    b"/usr/bin/python3"
}

/// Adds a note of Linux'. The one error is out of memory.
#[tactic(auto, unfolding(crate::specs::CoreFiles::laid_note))]
fn add_note(out: &mut Vec<u8>, kind: u32, desc: &[u8]) -> Result<(), AllocError>
    requires { length desc.now < 2 ^ 16 }
    ensures { IfOk result (λ _. out.new.items ≡ out.old.items ++ laid_note kind desc.now) }
{
    let fields = [U32(5), U32(desc.len() as u32), U32(kind)];
    add_record(out, &fields)?;
    out.extend_from_slice(b"CORE\0\0\0\0")?;
    add_filled(out, desc, (desc.len() + 3) / 4 * 4)
}

/// A status record: signal 6, process 1. The one error is out of memory.
fn status_record(alloc: Global) -> Result<Vec<u8>, AllocError>
    ensures { IfOk result (λ desc. desc.items ≡ record_of status_fields) }
{
    let fields = [
        U32(6),
        U32(0),
        U32(0),
        U16(6),
        U16(0),
        U64(0),
        U64(0),
        U32(1),
        U32(0),
        U32(0),
        U32(0),
        U64(0),
        U64(0),
        U64(0),
        U64(0),
        U64(0),
        U64(0),
        U64(0),
        U64(0),
    ];
    let mut desc = Vec::new(alloc);
    add_record(&mut desc, &fields)?;
    Ok(desc)
}

/// A process record: process 1, with its name. The one error is out of memory.
#[tactic(auto, unfolding(crate::specs::CoreFiles::process_record))]
fn process_record(alloc: Global) -> Result<Vec<u8>, AllocError>
    ensures { IfOk result (λ desc. desc.items ≡ process_record) }
{
    let fields = [
        U32(0),
        U32(0),
        U64(0),
        U32(0),
        U32(0),
        U32(1),
        U32(0),
        U32(0),
        U32(0),
    ];
    let mut desc = Vec::new(alloc);
    add_record(&mut desc, &fields)?;
    add_filled(&mut desc, b"python3", 16)?;
    add_filled(&mut desc, b"python3", 80)?;
    Ok(desc)
}

/// A file table: the image at its first two pages. The one error is out of memory.
fn file_table(alloc: Global) -> Result<Vec<u8>, AllocError>
    ensures { IfOk result (λ desc. desc.items ≡ record_of table_fields) }
{
    let fields = [
        U64(1),
        U64(4096),
        U64(0x40_0000),
        U64(0x40_2000),
        U64(0),
        Bytes(image_path()),
        U8(0),
    ];
    let mut desc = Vec::new(alloc);
    add_record(&mut desc, &fields)?;
    Ok(desc)
}

/// Adds the notes. The one error is out of memory.
#[tactic(auto, unfolding(crate::specs::CoreFiles::core_notes))]
fn add_notes(alloc: Global, out: &mut Vec<u8>) -> Result<(), AllocError>
    ensures { IfOk result (λ _. out.new.items ≡ out.old.items ++ core_notes) }
{
    let status = status_record(alloc)?;
    let process = process_record(alloc)?;
    let table = file_table(alloc)?;
    add_note(out, 1, &status)?;
    add_note(out, 3, &process)?;
    add_note(out, 0x46494c45, &table)
}

/// A load segment of a file, all of whose memory the file has.
fn loaded(flags: u32, offset: u64, addr: u64, size: u64) -> Segment
    ensures { result ≡ record {
      kind = 1;
      flags = flags;
      offset = offset;
      addr = addr;
      file_size = size;
      mem_size = size;
    } }
{
    Segment {
        kind: LOAD,
        flags,
        offset,
        addr,
        file_size: size,
        mem_size: size,
    }
}

/// Adds the headers and the notes. The one error is out of memory.
#[tactic(auto, unfolding(crate::specs::CoreFiles::core_head))]
fn add_head(
    alloc: Global,
    out: &mut Vec<u8>,
    machine: Machine,
    objects: u64,
) -> Result<(), AllocError>
    ensures { IfOk result (λ _. out.new.items ≡ out.old.items ++ core_head machine objects) }
{
    let header = FileHeader {
        kind: 4,
        machine,
        segments: 4,
        sections_at: 0,
        sections: 0,
        names: 0,
    };
    let notes = Segment {
        kind: NOTE,
        flags: 4,
        offset: 0x120,
        addr: 0,
        file_size: NOTES,
        mem_size: 0,
    };
    let segments = [
        notes,
        loaded(5, 0x1000, 0x40_0000, 0x2000),
        loaded(6, 0x3000, 0x50_0000, 0x2_0000),
        loaded(6, 0x2_3000, 0x60_0000, objects),
    ];
    add_file_header(out, header)?;
    add_segments(out, &segments)?;
    add_notes(alloc, out)
}

/// The core of an image, the words of its bss, and the objects. The one error is out of memory.
#[tactic(auto, unfolding(crate::specs::CoreFiles::core_file))]
pub(crate) fn core_file(
    alloc: Global,
    machine: Machine,
    image: &[u8],
    words: &[u8],
    objects: &[u8],
) -> Result<Vec<u8>, AllocError>
    ensures { IfOk result (λ core. core.items ≡ core_file machine image.now words.now objects.now) }
{
    let mut core = Vec::new(alloc);
    add_head(alloc, &mut core, machine, objects.len() as u64)?;
    core.resize(PAGE, 0)?;
    core.extend_from_slice(image)?;
    core.extend_from_slice(words)?;
    core.extend_from_slice(objects)?;
    Ok(core)
}
