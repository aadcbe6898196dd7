//! The bss and the runtime section of an image, and how far it was moved.
ghost use Rattle.std.specs.Prelude.{◌≡◌, MatchResult};
ghost use Rattle.elf64_core.specs.Sections.{HasSections, sections_of};
ghost use Rattle.py_process.specs.Refusals.{RefusesRanges};
ghost use Rattle.py_process.specs.Ranges.{AreRanges, BssIs, bss_range, executable_of, is_runtime, larger, may_be_bss};
ghost use Rattle.py_process.specs.Ranges.{moved_by, runtime_range, runtime_section};

use crate::BinaryError;
use crate::named_image::NamedImage;
use elf64_core::{Elf64, LOAD, Section, Segment};
use std::alloc::Global;

/// The kind of a section of no bits.
const NO_BITS: u32 = 8;

/// The size of a page.
const PAGE: u64 = 4096;

/// Where the bss of an image is.
#[derive(Clone, Copy)]
pub(crate) struct BssRange {
    pub(crate) addr: u64,
    pub(crate) size: u64,
    /// Where it ended before the image was moved, or 0.
    pub(crate) end: u64,
}

/// What sections and segments say of an image.
#[derive(Clone, Copy)]
pub(crate) struct Ranges {
    /// How far the image was moved.
    pub(crate) offset: u64,
    pub(crate) bss: BssRange,
    pub(crate) runtime_addr: u64,
    pub(crate) runtime_size: u64,
}

/// Whether a section may be the bss: it has no bits, and is named `.bss` or has no readable name.
fn may_be_bss(elf: &NamedImage<'_>, section: &Section) -> bool
    requires { HasSections elf.now }
    ensures { result ≡ may_be_bss elf.now section.now }
{
    section.kind == NO_BITS
        && match elf.section_name(section) {
            Some(name) => name == b".bss".as_slice(),
            None => true,
        }
}

/// The larger of two sections, the second on a tie; the second where there is one alone.
fn larger(best: Option<Section>, section: &Section) -> Section
    ensures { result ≡ larger best section.now }
{
    match best {
        Some(best) if section.size < best.size => best,
        _ => *section,
    }
}

/// The section of greatest size that may be the bss, the last on a tie.
fn bss_section(elf: &NamedImage<'_>, sections: &[Section]) -> Option<Section>
    requires { HasSections elf.now }
    ensures { BssIs elf.now sections.now result }
{
    let mut bss: Option<Section> = None;
    for section in sections {
        if may_be_bss(elf, section) {
            bss = Some(larger(bss, section));
        }
    }
    bss
}

/// The first load segment that is executable.
fn executable(elf: &Elf64<'_>) -> Option<Segment>
    ensures { result ≡ executable_of elf.now }
{
    let mut segments = elf.segments();
    segments.find(|segment| segment.kind == LOAD && segment.flags % 2 == 1)
}

/// How far an image that is mapped at an address was moved.
fn moved_by(addr: u64, segment: &Segment) -> u64
    ensures { result ≡ moved_by addr segment.now }
{
    addr.saturating_sub(segment.addr - segment.addr % PAGE)
}

/// Where the bss is; none where its end passes 2^64 - 1.
fn bss_range(bss: &Section, offset: u64) -> Option<BssRange>
    ensures { result ≡ bss_range bss.now offset }
{
    let Some(addr) = bss.addr.checked_add(offset) else {
        return Some(BssRange {
            addr: 0,
            size: 0,
            end: 0,
        });
    };
    addr.checked_add(bss.size)?;
    Some(BssRange {
        addr,
        size: bss.size,
        end: bss.addr + bss.size,
    })
}

/// Whether a section has the runtime's name.
fn is_runtime(elf: &NamedImage<'_>, section: &Section) -> bool
    requires { HasSections elf.now }
    ensures { result ≡ is_runtime elf.now section.now }
{
    match elf.section_name(section) {
        Some(name) => name == b".PyRuntime".as_slice(),
        None => false,
    }
}

/// The first section of the runtime's name.
fn runtime_section(elf: &NamedImage<'_>, sections: &[Section]) -> Option<Section>
    requires held { HasSections elf.now }
    requires whole { sections.now ≡ sections_of elf.now }
    ensures { result ≡ runtime_section elf.now }
{
    for section in sections {
        if is_runtime(elf, section) {
            return Some(*section);
        }
    }
    None
}

/// Where a runtime section is.
fn runtime_range(section: Option<Section>, offset: u64) -> (u64, u64)
    ensures { result ≡ runtime_range section offset }
{
    let Some(section) = section else {
        return (0, 0);
    };
    match section.addr.checked_add(offset) {
        Some(addr) => (addr, section.size),
        None => (0, 0),
    }
}

/// The ranges of an image that is mapped at an address, or the first refusal.
pub(crate) fn section_ranges(
    alloc: Global,
    elf: &NamedImage<'_>,
    addr: u64,
) -> Result<Ranges, BinaryError>
    ensures { MatchResult result (AreRanges elf.now addr) (RefusesRanges elf.now addr) }
{
    let sections: Vec<Section> = elf.elf().sections()?.collect(alloc)?;
    let Some(bss) = bss_section(elf, &sections) else {
        return Err(BinaryError::NoBss);
    };
    let Some(segment) = executable(elf.elf()) else {
        return Err(BinaryError::NoExecutable);
    };
    let offset = moved_by(addr, &segment);
    let Some(bss) = bss_range(&bss, offset) else {
        return Err(BinaryError::BadBss);
    };
    let (runtime_addr, runtime_size) = runtime_range(runtime_section(elf, &sections), offset);
    Ok(Ranges {
        offset,
        bss,
        runtime_addr,
        runtime_size,
    })
}
