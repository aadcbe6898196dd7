//! The functions of the files in which frames stand.
ghost use Rattle.std.specs.Prelude.{◌≡◌, IfOk, map};
ghost use Rattle.elf64_core.specs.Symbols.{symbol_entry_of};
ghost use Rattle.covering_symbols.specs.Covering.{AreImageSymbols};
ghost use Rattle.native_frames.specs.Naming.{IsFunctionAmong, function_of, offset_in};

use crate::stacks::Function;
use covering_symbols::{FunctionTable, image_symbols};
use elf64_core::{Elf64, Name, Symbol};
use std::alloc::{AllocError, Global};
use std::marker::Model;

/// The symbols of a file, and its functions by the addresses that they cover.
///
/// Contracts see the symbols.
#[derive(Drop)]
pub struct FileSymbols<'a> {
    symbols: Vec<Symbol<'a>>,
    table: FunctionTable,
}

impl<'a> Model for FileSymbols<'a> {
    ghost use Rattle.std.specs.Prelude.{List, map};
    ghost use Rattle.elf64_core.specs.Symbols.{SymbolEntry, symbol_entry_of};
    ghost use Rattle.covering_symbols.specs.FunctionTables.{IsTableOf};

    ghost Value = { List SymbolEntry };

    ghost view = { λ s. map symbol_entry_of s.symbols.items };

    ghost invariant = { λ s. IsTableOf (map symbol_entry_of s.symbols.items) s.table };
}

/// How many bytes behind a symbol's value an address stands, and so many more.
fn offset_in(symbol: &Symbol<'_>, address: u64, more: u64) -> u64
    ensures { result ≡ offset_in address more (symbol_entry_of symbol.now) }
{
    address.saturating_sub(symbol.value).wrapping_add(more)
}

/// The function of a symbol, if that has a name.
fn function_of(
    alloc: Global,
    symbol: &Symbol<'_>,
    address: u64,
    more: u64,
) -> Result<Option<Function>, AllocError>
    ensures { IfOk result (λ function. function ≡ function_of address more (symbol_entry_of symbol.now)) }
{
    match symbol.name {
        Some(name) => {
            let offset = offset_in(symbol, address, more);
            let name = Name::of(alloc, name)?;
            Ok(Some(Function { name, offset }))
        }
        None => Ok(None),
    }
}

impl<'a> FileSymbols<'a> {
    /// The symbols of a file. The one error is out of memory.
    pub(crate) fn of(alloc: Global, elf: &Elf64<'a>) -> Result<FileSymbols<'a>, AllocError>
        ensures { IfOk result (AreImageSymbols elf.now) }
    {
        let symbols = image_symbols(alloc, elf)?;
        let table = FunctionTable::of(alloc, &symbols)?;
        Ok(FileSymbols { symbols, table })
    }

    /// The function that covers an address, and how far behind its start that stands, and so many bytes more.
    pub(crate) fn function_at(
        &self,
        alloc: Global,
        address: u64,
        more: u64,
    ) -> Result<Option<Function>, AllocError>
        ensures { IfOk result (IsFunctionAmong self.now address more) }
    {
        match self.table.covering(u128::from(address)) {
            Some(number) => match self.symbols.get(number) {
                Some(symbol) => function_of(alloc, symbol, address, more),
                None => Ok(None),
            },
            None => Ok(None),
        }
    }
}
