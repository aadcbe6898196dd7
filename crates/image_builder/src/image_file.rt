//! The image of a program: an ELF file with two segments, a bss and four symbols.
ghost use Rattle.std.specs.Prelude.{◌≡◌, ◌++◌, IfOk};
ghost use Rattle.image_builder.specs.ImageFiles.{image_file, image_head, image_strings, image_symbols, section_headers};

use crate::elf_records::{FileHeader, add_file_header, add_section, add_segments, add_symbol};
use crate::records::add_filled;
use elf64_core::{LOAD, Machine, Section, Segment};
use std::alloc::{AllocError, Global};

/// A page of the file, in bytes.
const PAGE: usize = 4096;

/// The names of sections and symbols, each ended by a nul, behind one that is empty.
#[tactic(auto, unfolding(crate::specs::ImageFiles::image_strings))]
fn strings() -> &'static [u8]
    ensures { result.now ≡ image_strings }
{
    b"\0.bss\0.symtab\0.strtab\0Py_Version\0_PyRuntime\0_PyThreadState_Current\0interp_head\0"
}

/// Adds the headers of the sections. The one error is out of memory.
#[tactic(auto, unfolding(crate::specs::ImageFiles::section_headers))]
fn add_sections(out: &mut Vec<u8>) -> Result<(), AllocError>
    ensures { IfOk result (λ _. out.new.items ≡ out.old.items ++ section_headers) }
{
    let none = Section {
        name: 0,
        kind: 0,
        addr: 0,
        offset: 0,
        size: 0,
        link: 0,
    };
    let bss = Section {
        name: 1,
        kind: 8,
        addr: 0x50_0000,
        offset: 0x2000,
        size: 0x2_0000,
        link: 0,
    };
    let symbols = Section {
        name: 6,
        kind: 2,
        addr: 0,
        offset: 0x1b0,
        size: 120,
        link: 3,
    };
    let strings = Section {
        name: 14,
        kind: 3,
        addr: 0,
        offset: 0x228,
        size: 79,
        link: 0,
    };
    add_section(out, none, 0, 0, 0, 0)?;
    add_section(out, bss, 3, 0, 1, 0)?;
    add_section(out, symbols, 0, 1, 8, 24)?;
    add_section(out, strings, 0, 0, 1, 0)
}

/// Adds the symbols. The one error is out of memory.
#[tactic(auto, unfolding(crate::specs::ImageFiles::image_symbols))]
fn add_symbols(out: &mut Vec<u8>) -> Result<(), AllocError>
    ensures { IfOk result (λ _. out.new.items ≡ out.old.items ++ image_symbols) }
{
    add_filled(out, &[], 24)?;
    add_symbol(out, 22, 0x40_1000, 4)?;
    add_symbol(out, 33, 0x50_0000, 8)?;
    add_symbol(out, 44, 0x51_0008, 8)?;
    add_symbol(out, 67, 0x51_0010, 8)
}

/// Adds the headers, the symbols and the strings. The one error is out of memory.
#[tactic(auto, unfolding(crate::specs::ImageFiles::image_head))]
fn add_head(out: &mut Vec<u8>, machine: Machine) -> Result<(), AllocError>
    ensures { IfOk result (λ _. out.new.items ≡ out.old.items ++ image_head machine) }
{
    let header = FileHeader {
        kind: 2,
        machine,
        segments: 2,
        sections_at: 0xb0,
        sections: 4,
        names: 3,
    };
    let code = Segment {
        kind: LOAD,
        flags: 5,
        offset: 0,
        addr: 0x40_0000,
        file_size: 0x2000,
        mem_size: 0x2000,
    };
    let words = Segment {
        kind: LOAD,
        flags: 6,
        offset: 0x2000,
        addr: 0x50_0000,
        file_size: 0,
        mem_size: 0x2_0000,
    };
    add_file_header(out, header)?;
    add_segments(out, &[code, words])?;
    add_sections(out)?;
    add_symbols(out)?;
    out.extend_from_slice(strings())
}

/// The image for a machine, of a version by its number. The one error is out of memory.
#[tactic(auto, unfolding(crate::specs::ImageFiles::image_file))]
pub(crate) fn image_file(
    alloc: Global,
    machine: Machine,
    number: u32,
) -> Result<Vec<u8>, AllocError>
    ensures { IfOk result (λ image. image.items ≡ image_file machine number) }
{
    let mut image = Vec::new(alloc);
    add_head(&mut image, machine)?;
    image.resize(PAGE, 0)?;
    add_filled(&mut image, &number.to_le_bytes(), PAGE)?;
    Ok(image)
}
