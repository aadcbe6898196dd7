//! Mappings, by the addresses that they hold.
ghost use Rattle.std.specs.Prelude.{◌≡◌, ◌≤◌, All, IfOk, IfSome, option_copied, slice_get};
ghost use Rattle.std.specs.List.{find};
ghost use Rattle.piece_table.specs.Places.{IsBounded};
ghost use Rattle.core_unwind.specs.CodeMaps.{range_of, ranges_from};
ghost use Rattle.core_unwind.specs.Places.{holds};

use crate::place::{Mapping, holds};
use elf64_core::TableEntry;
use piece_table::{FileRange, PieceTable};
use std::alloc::{AllocError, Global};
use std::marker::Model;

/// The mappings of a process, by the addresses that they hold. They are laid out once, and an address is looked up by
/// halving.
///
/// Contracts see the mappings in their order: of several that hold an address the first one is taken.
#[derive(Debug, Drop)]
pub struct CodeMap<'a> {
    mappings: Vec<Mapping<'a>>,
    table: PieceTable,
}

impl<'a> Model for CodeMap<'a> {
    ghost use Rattle.std.specs.Prelude.{List, ◌≡◌};
    ghost use Rattle.core_unwind.specs.declared.place.Mapping.{Mapping};
    ghost use Rattle.core_unwind.specs.CodeMaps.{ranges_from};

    ghost Value = { List Mapping };

    ghost view = { λ c. c.mappings.items };

    ghost invariant = { λ c. c.table ≡ ranges_from 0 c.mappings.items };
}

/// The addresses of the mapping of a number.
fn range_of(mapping: &Mapping<'_>, number: usize) -> FileRange
    ensures is { result ≡ range_of number mapping.now }
    ensures bounded { IsBounded result }
{
    FileRange {
        range: TableEntry {
            start: mapping.start,
            len: mapping.end.saturating_sub(mapping.start),
            offset: 0,
        },
        file: number,
    }
}

/// The addresses of mappings, each under its number.
fn ranges_of(alloc: Global, mappings: &[Mapping<'_>]) -> Result<Vec<FileRange>, AllocError>
    ensures are { IfOk result (λ ranges. ranges.items ≡ ranges_from 0 mappings.now) }
    ensures bounded { IfOk result (λ ranges. All IsBounded ranges.items) }
{
    let mut ranges = Vec::with_capacity(alloc, mappings.len())?;
    for (number, mapping) in mappings.iter().enumerate() {
        ranges.push(range_of(mapping, number))?;
    }
    Ok(ranges)
}

impl<'a> CodeMap<'a> {
    /// These mappings. The one error is out of memory, as which more than 2^32 - 1 pieces count into which they cut
    /// the addresses.
    pub fn of(alloc: Global, mappings: Vec<Mapping<'a>>) -> Result<CodeMap<'a>, AllocError>
        ensures { IfOk result (λ map. map ≡ mappings.entry.items) }
    {
        let ranges = ranges_of(alloc, &mappings)?;
        let table = PieceTable::of(alloc, ranges)?;
        Ok(CodeMap { mappings, table })
    }

    /// The mapping of a number, from 0 on; none exactly where there are no more.
    pub fn mapping(&self, number: usize) -> Option<&Mapping<'a>>
        ensures { option_copied result ≡ slice_get self.now number }
    {
        self.mappings.get(number)
    }

    /// The first mapping that holds an address; none exactly where none does. It takes no memory.
    pub fn mapping_at(&self, address: u64) -> Option<&Mapping<'a>>
        ensures is { option_copied result ≡ find (holds address) self.now }
        ensures begins { IfSome result (λ mapping. mapping.now.start ≤ address) }
    {
        let piece = self.table.at(address)?;
        let mapping = self.mapping(piece.file)?;
        if holds(mapping, address) {
            Some(mapping)
        } else {
            None
        }
    }
}
