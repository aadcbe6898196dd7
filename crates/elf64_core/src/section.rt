//! Sections: what the section headers describe.
ghost use Rattle.std.specs.Prelude.{◌≡◌, ◌+◌, ◌*◌, ◌≤◌, length};
ghost use Rattle.std.specs.Iterator.{YieldsFirst, item_count};
ghost use Rattle.elf64_core.specs.Sections.{section_in, sections_from};

use crate::fields::{u32_in, u64_in};
use crate::offsets::{SH_ADDR, SH_LINK, SH_OFFSET, SH_SIZE, SH_TYPE};

/// The length of a section header, in bytes.
pub(crate) const ENTRY_SIZE: usize = 64;

/// A section, as its header describes it.
#[derive(Clone, Copy, Debug, PartialEq, Eq)]
pub struct Section {
    /// Where its name begins in the section of names.
    pub name: u32,
    /// What it is: 2 for symbols, 7 for notes, 8 for no bits, 11 for dynamic symbols, or another kind.
    pub kind: u32,
    /// The address at which it begins in memory, or 0.
    pub addr: u64,
    /// Where its bytes begin in the file.
    pub offset: u64,
    /// How many bytes it has: in the file, or in memory alone where it has no bits.
    pub size: u64,
    /// The number of the section that it goes with: for symbols the one that has their names.
    pub link: u32,
}

/// The section that the section header at an offset describes.
#[tactic(auto, unfolding(crate::specs::Sections::section_in))]
pub(crate) fn section_in(bytes: &[u8], at: usize) -> Section
    requires { at + 64 ≤ length bytes.now }
    ensures { result ≡ section_in bytes.now at }
{
    Section {
        name: u32_in(bytes, at),
        kind: u32_in(bytes, at + SH_TYPE),
        addr: u64_in(bytes, at + SH_ADDR),
        offset: u64_in(bytes, at + SH_OFFSET),
        size: u64_in(bytes, at + SH_SIZE),
        link: u32_in(bytes, at + SH_LINK),
    }
}

/// The sections of a file, in table order.
#[derive(Drop)]
pub struct Sections<'a> {
    bytes: &'a [u8],
    at: usize,
    left: usize,
    ghost inside: { at + 64 * left ≤ length bytes.now },
}

impl<'a> Sections<'a> {
    /// Those of so many section headers from an offset on.
    pub(crate) fn new(bytes: &'a [u8], at: usize, left: usize) -> Sections<'a>
        requires { at + 64 * left ≤ length bytes.now }
        ensures bytes { result.bytes.now ≡ bytes.now }
        ensures at { result.at ≡ at }
        ensures left { result.left ≡ left }
    {
        Sections { bytes, at, left }
    }
}

impl<'a> Iterator for Sections<'a> {
    ghost use Rattle.elf64_core.specs.Rest.{sections_left};

    type Item = Section;

    ghost next_gives = { YieldsFirst sections_left };

    ghost remaining = { item_count sections_left };

    #[tactic(auto, unfolding(crate::specs::Sections::sections_from))]
    fn next(&mut self) -> Option<Section> {
        if self.left == 0 {
            return None;
        }
        let section = section_in(self.bytes, self.at);
        self.at += ENTRY_SIZE;
        self.left -= 1;
        Some(section)
    }
}
