//! Functions by the addresses that they cover.
ghost use Rattle.std.specs.Prelude.{◌≡◌, ◌+◌, ◌<◌, ◌≤◌, ◌^◌, ◌-◌, All, IfOk, List, map, option_map};
ghost use Rattle.std.specs.List.{find};
ghost use Rattle.elf64_core.specs.Symbols.{SymbolEntry, symbol_entry_of};
ghost use Rattle.piece_table.specs.Places.{IsBounded};
ghost use Rattle.covering_symbols.specs.Covering.{Covering};
ghost use Rattle.covering_symbols.specs.FunctionKeys.{key_covers, range_of_key};
ghost use Rattle.covering_symbols.specs.FunctionTables.{IsTableOf, key_number};

use crate::function_key::{FunctionKey, function_keys, key_covers, range_of_key};
use elf64_core::Symbol;
use piece_table::{FileRange, PieceTable};
use std::alloc::{AllocError, Global};
use std::marker::Model;

/// The functions of a list of symbols, by the addresses that they cover. They are sorted once, and an address is
/// looked up by halving.
///
/// Contracts see the functions in the order of preference.
#[derive(Debug, Drop)]
pub struct FunctionTable {
    keys: Vec<FunctionKey>,
    table: PieceTable,
}

impl Model for FunctionTable {
    ghost use Rattle.std.specs.Prelude.{List, map, ◌≡◌};
    ghost use Rattle.covering_symbols.specs.declared.function_key.FunctionKey.{FunctionKey};
    ghost use Rattle.covering_symbols.specs.FunctionKeys.{range_of_key};

    ghost Value = { List FunctionKey };

    ghost view = { λ t. t.keys.items };

    ghost invariant = { λ t. t.table ≡ map range_of_key t.keys.items };
}

/// The addresses of functions, in the order of the functions.
fn ranges_of(alloc: Global, keys: &[FunctionKey]) -> Result<Vec<FileRange>, AllocError>
    ensures are { IfOk result (λ ranges. ranges.items ≡ map range_of_key keys.now) }
    ensures bounded { IfOk result (λ ranges. All IsBounded ranges.items) }
{
    let mut ranges = Vec::with_capacity(alloc, keys.len())?;
    for key in keys {
        ranges.push(range_of_key(key))?;
    }
    Ok(ranges)
}

/// The first of some functions that covers an address, by its number.
fn first_covering(keys: &[FunctionKey], addr: u128) -> Option<usize>
    ensures { result ≡ option_map key_number (find (key_covers addr) keys.now) }
{
    let key = keys.iter().find(|key| key_covers(key, addr))?;
    Some(key.number)
}

impl FunctionTable {
    /// The functions of these symbols. The one error is out of memory, as which more than 2^32 - 1 pieces count into
    /// which their ranges cut the addresses.
    pub fn of(alloc: Global, symbols: &[Symbol<'_>]) -> Result<FunctionTable, AllocError>
        ensures { IfOk result (IsTableOf (map symbol_entry_of symbols.now)) }
    {
        let mut keys = function_keys(alloc, symbols)?;
        keys.sort()?;
        let ranges = ranges_of(alloc, &keys)?;
        let table = PieceTable::of(alloc, ranges)?;
        Ok(FunctionTable { keys, table })
    }

    /// The number of the function that covers an address, in the list of symbols from which the table was made; none
    /// exactly where none does. Of several it is the one of greatest value, of these the one of least size, and of
    /// these the one that stands first.
    ///
    /// An address below 2^64 - 1 is looked up by halving, and another one among all functions. It takes no memory.
    pub fn covering(&self, addr: u128) -> Option<usize>
        ensures { (symbols : List SymbolEntry) → IsTableOf symbols self.now → Covering symbols addr result }
    {
        self.find(addr)
    }

    /// The number of the first of these functions that covers an address; none exactly where none does.
    fn find(&self, addr: u128) -> Option<usize>
        ensures { result ≡ option_map key_number (find (key_covers addr) self.now) }
    {
        match u64::try_from(addr) {
            Ok(addr) if addr < u64::MAX => self.find_below(addr),
            _ => first_covering(&self.keys, addr),
        }
    }

    /// The same for an address below 2^64 - 1.
    fn find_below(&self, addr: u64) -> Option<usize>
        requires { addr < 2 ^ 64 - 1 }
        ensures { result ≡ option_map key_number (find (key_covers addr) self.now) }
    {
        let piece = self.table.at(addr)?;
        Some(piece.file)
    }
}
