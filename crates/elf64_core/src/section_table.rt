//! The sections of a file, their bytes and their names.
ghost use Rattle.std.specs.Prelude.{◌≡◌, ◌↔◌, ◌≤◌, List, ℕ, None, IsTrue, IsSome, IfOk, IfErr, IsErrOf, length};
ghost use Rattle.std.specs.Prelude.{option_copied};
ghost use Rattle.elf64_core.specs.Header.{IsInside};
ghost use Rattle.elf64_core.specs.Sections.{HasSections, section_at, sections_of, section_name_of, range_at};
ghost use Rattle.elf64_core.specs.Sections.{contents_of, names_section, strings_of};
ghost use Rattle.elf64_core.specs.Rest.{sections_left};

use crate::fields::{u16_in, u64_in};
use crate::nul::string_at;
use crate::offsets::{E_SHENTSIZE, E_SHNUM, E_SHOFF, E_SHSTRNDX};
use crate::section::{ENTRY_SIZE, section_in};
use crate::segment::is_inside;
use crate::string_table::{StringTable, table_of};
use crate::{Elf64, ElfError, Section, Sections};
use std::alloc::{AllocError, Global};

/// Whether the section headers can be read.
fn has_sections(bytes: &[u8]) -> bool
    requires { 64 ≤ length bytes.now }
    ensures { IsTrue result ↔ HasSections bytes.now }
{
    let count = u16_in(bytes, E_SHNUM);
    (count == 0 || u16_in(bytes, E_SHENTSIZE) == 64)
        && is_inside(bytes, u64_in(bytes, E_SHOFF), 64 * count as u64)
}

/// The sections of a file whose section headers can be read.
#[tactic(auto, unfolding(crate::specs::Sections::sections_from))]
fn table(bytes: &[u8]) -> Sections<'_>
    requires whole { 64 ≤ length bytes.now }
    requires held { HasSections bytes.now }
    ensures { sections_left result ≡ sections_of bytes.now }
{
    let left = u16_in(bytes, E_SHNUM) as usize;
    if left == 0 {
        return Sections::new(bytes, 0, 0);
    }
    Sections::new(bytes, u64_in(bytes, E_SHOFF) as usize, left)
}

/// The section of a number, from 0 on, of a file whose section headers can be read.
fn section_at(bytes: &[u8], number: usize) -> Option<Section>
    requires whole { 64 ≤ length bytes.now }
    requires held { HasSections bytes.now }
    ensures { result ≡ section_at bytes.now number }
{
    let count = u16_in(bytes, E_SHNUM) as usize;
    if number < count {
        Some(section_in(bytes, u64_in(bytes, E_SHOFF) as usize + ENTRY_SIZE * number))
    } else {
        None
    }
}

/// The bytes of a range, where it lies in the file.
#[tactic(auto, unfolding(crate::specs::Sections::range_at))]
pub(crate) fn range_at(bytes: &[u8], start: u64, size: u64) -> Option<&[u8]>
    ensures value { option_copied result ≡ range_at bytes.now start size }
    ensures inside { IsSome result ↔ IsInside bytes.now start size }
{
    if !is_inside(bytes, start, size) {
        return None;
    }
    if size == 0 {
        return Some(&[]);
    }
    Some(&bytes[start as usize..(start + size) as usize])
}

/// The bytes of a section, where they lie in the file.
pub(crate) fn contents<'a>(bytes: &'a [u8], section: &Section) -> Option<&'a [u8]>
    ensures value { option_copied result ≡ contents_of bytes.now section.now }
    ensures inside { IsSome result ↔ IsInside bytes.now section.now.offset section.now.size }
{
    range_at(bytes, section.offset, section.size)
}

/// The bytes of the section of a number, where there is one and they lie in the file.
#[tactic(auto, unfolding(crate::specs::Sections::strings_of))]
pub(crate) fn strings_of(bytes: &[u8], number: usize) -> Option<&[u8]>
    requires whole { 64 ≤ length bytes.now }
    requires held { HasSections bytes.now }
    ensures { option_copied result ≡ strings_of bytes.now number }
{
    let section = section_at(bytes, number)?;
    contents(bytes, &section)
}

impl<'a> Elf64<'a> {
    /// The sections, in table order.
    ///
    /// `BadHeader` comes exactly where their number in the header is not 0 and their headers' stated size
    /// is not 64 bytes, or their table does not lie in the file. Nothing else comes. A file that keeps the
    /// number elsewhere, as it does for 65280 sections and more, has none here.
    pub fn sections(&self) -> Result<Sections<'a>, ElfError>
        ensures bad { IsErrOf result ElfError.BadHeader ↔ (¬ HasSections self.now) }
        ensures only { IfErr result (λ error. error ≡ ElfError.BadHeader) }
        ensures held { IfOk result (λ sections. HasSections self.now) }
        ensures sections { IfOk result (λ sections. sections_left sections ≡ sections_of self.now) }
    {
        let bytes = self.bytes();
        if !has_sections(bytes) {
            return Err(ElfError::BadHeader);
        }
        Ok(table(bytes))
    }

    /// The name of a section: the bytes of the section of names from where the name begins to the first
    /// nul.
    ///
    /// None exactly where the section headers can't be read, the header names no section of names, its
    /// bytes don't lie in the file, or there is no nul in them from there on.
    pub fn section_name(&self, section: &Section) -> Option<&'a [u8]>
        ensures named { HasSections self.now → option_copied result ≡ section_name_of self.now section.now }
        ensures none { (¬ HasSections self.now) → result ≡ None }
    {
        let bytes = self.bytes();
        if !has_sections(bytes) {
            return None;
        }
        let strings = strings_of(bytes, u16_in(bytes, E_SHSTRNDX) as usize)?;
        string_at(strings, section.name as usize)
    }

    /// The strings in which the names of sections stand, where they are there: for `string_in`, at the place that a
    /// section names, which is the same as `section_name` and takes no longer for long names. The one error is want of
    /// memory.
    pub fn section_strings(&self, alloc: Global) -> Result<Option<StringTable<'a>>, AllocError>
        ensures named { HasSections self.now
            → IfOk result (λ strings. strings ≡ strings_of self.now (names_section self.now)) }
    {
        let bytes = self.bytes();
        if !has_sections(bytes) {
            return Ok(None);
        }
        table_of(alloc, strings_of(bytes, u16_in(bytes, E_SHSTRNDX) as usize))
    }
}
