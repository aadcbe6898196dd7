//! An image with the names of its sections.
ghost use Rattle.std.specs.Prelude.{◌≡◌, IfOk, option_copied};
ghost use Rattle.elf64_core.specs.Sections.{HasSections, section_name_of};

use elf64_core::{Elf64, Section, StringTable, string_in};
use std::alloc::{AllocError, Global};
use std::marker::Model;

/// An image, and the strings in which the names of its sections stand. A name takes no longer to find where many
/// sections share a long one.
///
/// Contracts see the image's bytes.
#[derive(Drop)]
pub(crate) struct NamedImage<'a> {
    elf: Elf64<'a>,
    strings: Option<StringTable<'a>>,
}

impl<'a> Model for NamedImage<'a> {
    ghost use Rattle.std.specs.Prelude.{List, ℕ, ◌≡◌};
    ghost use Rattle.elf64_core.specs.Sections.{HasSections, names_section, strings_of};

    ghost Value = { List ℕ };

    ghost view = { λ i. i.elf };

    ghost invariant = { λ i. HasSections i.elf → i.strings ≡ strings_of i.elf (names_section i.elf) };
}

impl<'a> NamedImage<'a> {
    /// Of this image. The one error is out of memory.
    pub(crate) fn of(alloc: Global, elf: Elf64<'a>) -> Result<NamedImage<'a>, AllocError>
        ensures { IfOk result (λ image. image ≡ elf.entry) }
    {
        let strings = elf.section_strings(alloc)?;
        Ok(NamedImage { elf, strings })
    }

    /// The image itself.
    pub(crate) fn elf(&self) -> &Elf64<'a>
        ensures { result.now ≡ self.now }
    {
        &self.elf
    }

    /// The name of a section, where it can be read.
    pub(crate) fn section_name(&self, section: &Section) -> Option<&'a [u8]>
        requires { HasSections self.now }
        ensures { option_copied result ≡ section_name_of self.now section.now }
    {
        string_in(&self.strings, section.name)
    }
}
