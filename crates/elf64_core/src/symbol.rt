//! Symbols: names of addresses.
ghost use Rattle.std.specs.Prelude.{◌≡◌, ◌↔◌, ◌⊎◌, ◌+◌, ◌≤◌, List, ℕ, IfOk, IfErr, IsErrOf, length, map, option_map};
ghost use Rattle.elf64_core.specs.Sections.{HasSections};
ghost use Rattle.elf64_core.specs.Symbols.{HasSymbols, symbol_entry_of, symbol_entry_in, entries_in, first_section};
ghost use Rattle.elf64_core.specs.Symbols.{section_kind, symbols_of};
ghost use Rattle.elf64_core.specs.Rest.{sections_left};

use crate::fields::{u16_in, u32_in, u64_in};
use crate::offsets::{ST_INFO, ST_SHNDX, ST_SIZE, ST_VALUE};
use crate::section_table::{contents, strings_of};
use crate::string_table::{StringTable, string_in, table_of};
use crate::{Elf64, ElfError, Section, Sections};
use std::alloc::{AllocError, Global};

/// The length of a symbol's entry, in bytes.
const ENTRY_SIZE: usize = 24;

/// Which symbols: those for linking, which may be stripped, or those for loading.
#[derive(Clone, Copy, Debug, PartialEq, Eq)]
pub enum SymbolKind {
    Plain,
    Dynamic,
}

/// A symbol, as its entry describes it.
#[derive(Clone, Copy, Debug, PartialEq, Eq)]
pub struct Symbol<'a> {
    /// Its name; none where the section of the symbols' names does not hold it.
    pub name: Option<&'a [u8]>,
    /// The low four bits are the type: 2 is a function; the high four the binding: 1 is global, 2 weak.
    pub info: u8,
    /// The number of its section; 0 where it is not defined here.
    pub section: u16,
    /// The address, for a symbol of a program or a library.
    pub value: u64,
    /// How many bytes belong to it, or 0 where that is not known.
    pub size: u64,
}

/// The symbol that the entry at an offset of a symbol section describes.
#[tactic(auto, unfolding(crate::specs::Symbols::symbol_entry_in, crate::specs::Fields::u8_in))]
fn symbol_in<'a>(strings: &Option<StringTable<'a>>, table: &[u8], at: usize) -> Symbol<'a>
    requires { at + 24 ≤ length table.now }
    ensures { symbol_entry_of result ≡ symbol_entry_in strings.now table.now at }
{
    Symbol {
        name: string_in(strings, u32_in(table, at)),
        info: table[at + ST_INFO],
        section: u16_in(table, at + ST_SHNDX),
        value: u64_in(table, at + ST_VALUE),
        size: u64_in(table, at + ST_SIZE),
    }
}

/// The symbols of the whole entries of a symbol section. The one error is out of memory.
fn symbols_in<'a>(
    alloc: Global,
    strings: &Option<StringTable<'a>>,
    table: &[u8],
) -> Result<Vec<Symbol<'a>>, AllocError>
    ensures { IfOk result (λ symbols. map symbol_entry_of symbols.items ≡ entries_in strings.now table.now) }
{
    let count = table.len() / ENTRY_SIZE;
    let mut symbols = Vec::with_capacity(alloc, count)?;
    for number in 0..count {
        symbols.push(symbol_in(strings, table, ENTRY_SIZE * number))?;
    }
    Ok(symbols)
}

/// The kind of section that has such symbols.
fn section_kind(kind: SymbolKind) -> u32
    ensures { result ≡ section_kind kind }
{
    match kind {
        SymbolKind::Plain => 2,
        SymbolKind::Dynamic => 11,
    }
}

/// The first of some sections that has such symbols.
fn first_of_kind(sections: Sections<'_>, kind: SymbolKind) -> Option<Section>
    ensures { result ≡ first_section kind (sections_left sections.entry) }
{
    let wanted = section_kind(kind);
    let mut sections = sections;
    sections.find(|section| section.kind == wanted)
}

impl<'a> Elf64<'a> {
    /// The symbols of the first section of their kind, in table order; none where no section is of that
    /// kind. What is left after its last whole entry of 24 bytes is not looked at.
    ///
    /// `BadHeader` comes exactly where it comes from `sections`, or the bytes of that section do not lie
    /// in the file. Else the one error is out of memory. Names are parts of the file.
    pub fn symbols(&self, alloc: Global, kind: SymbolKind) -> Result<Vec<Symbol<'a>>, ElfError>
        ensures bad { IsErrOf result ElfError.BadHeader ↔ (¬ HasSymbols self.now kind) }
        ensures only { IfErr result (λ error. (error ≡ ElfError.BadHeader) ⊎ (error ≡ ElfError.OutOfMemory)) }
        ensures symbols { IfOk result (λ symbols. map symbol_entry_of symbols.items ≡ symbols_of self.now kind) }
    {
        let bytes = self.bytes();
        let sections = self.sections()?;
        let Some(section) = first_of_kind(sections, kind) else {
            return Ok(Vec::new(alloc));
        };
        let Some(table) = contents(bytes, &section) else {
            return Err(ElfError::BadHeader);
        };
        let strings = table_of(alloc, strings_of(bytes, section.link as usize))?;
        let symbols = symbols_in(alloc, &strings, table)?;
        Ok(symbols)
    }
}
