//! The symbols of a file.
ghost use Rattle.std.specs.Prelude.{IfOk, map};
ghost use Rattle.elf64_core.specs.Symbols.{symbol_entry_of};
ghost use Rattle.covering_symbols.specs.Covering.{AreImageSymbols, AreSymbolsOf};

use elf64_core::{Elf64, ElfError, Symbol, SymbolKind};
use std::alloc::{AllocError, Global};

/// The symbols of a kind, in table order; none where they can't be read. The one error is out of memory.
fn symbols_of<'a>(
    alloc: Global,
    elf: &Elf64<'a>,
    kind: SymbolKind,
) -> Result<Vec<Symbol<'a>>, AllocError>
    ensures { IfOk result (λ symbols. AreSymbolsOf elf.now kind (map symbol_entry_of symbols.items)) }
{
    match elf.symbols(alloc, kind) {
        Ok(symbols) => Ok(symbols),
        Err(ElfError::OutOfMemory) => Err(AllocError),
        Err(_) => Ok(Vec::new(alloc)),
    }
}

/// The plain symbols of a file, and behind them the dynamic ones; a list that can't be read counts as empty. The one
/// error is out of memory.
pub fn image_symbols<'a>(alloc: Global, elf: &Elf64<'a>) -> Result<Vec<Symbol<'a>>, AllocError>
    ensures { IfOk result (λ symbols. AreImageSymbols elf.now (map symbol_entry_of symbols.items)) }
{
    let mut symbols = symbols_of(alloc, elf, SymbolKind::Plain)?;
    let dynamic = symbols_of(alloc, elf, SymbolKind::Dynamic)?;
    symbols.extend_from_slice(&dynamic)?;
    Ok(symbols)
}
