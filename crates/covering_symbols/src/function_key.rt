//! Functions in an order in which the one that covers an address comes first.
ghost use Rattle.std.specs.Prelude.{◌≡◌, ◌<◌, ◌^◌, ◌++◌, All, IfOk, OnOk, map};
ghost use Rattle.elf64_core.specs.Symbols.{symbol_entry_of};
ghost use Rattle.elf64_core.specs.declared.symbol.Symbol.{Symbol as Declared};
ghost use Rattle.piece_table.specs.Places.{IsBounded};
ghost use Rattle.covering_symbols.specs.FunctionKeys.{function_keys, keys_of, is_function_info, key_covers};
ghost use Rattle.covering_symbols.specs.FunctionKeys.{range_of_key};

use elf64_core::{Symbol, TableEntry};
use piece_table::FileRange;
use std::alloc::{AllocError, Global};

/// A function of a list of symbols. The order is that of preference: greater values come first, of one value smaller
/// sizes, and of one size the symbols that stand first.
#[derive(Clone, Copy, Debug, PartialEq, Eq, PartialOrd, Ord)]
pub struct FunctionKey {
    /// How far its value lies below 2^64 - 1.
    pub(crate) below: u64,
    pub(crate) size: u64,
    /// Its number in the list, from 0 on.
    pub(crate) number: usize,
}

/// Whether a symbol's info is that of a function.
fn is_function_info(info: u8) -> bool
    ensures { result ≡ is_function_info info }
{
    info % 16 == 2
}

/// Adds the key of a symbol of a number, where it is a function.
fn add_key(
    keys: &mut Vec<FunctionKey>,
    number: usize,
    symbol: &Symbol<'_>,
) -> Result<(), AllocError>
    ensures added { OnOk result (keys.new.items ≡ keys.old.items ++ keys_of (number, symbol_entry_of symbol.now)) }
    ensures fit { symbol.now.value < 2 ^ 64 }
{
    let value = symbol.value;
    if is_function_info(symbol.info) {
        keys.push(FunctionKey {
            below: u64::MAX - value,
            size: symbol.size,
            number,
        })?;
    }
    Ok(())
}

/// The functions of a list of symbols, in order.
pub(crate) fn function_keys(
    alloc: Global,
    symbols: &[Symbol<'_>],
) -> Result<Vec<FunctionKey>, AllocError>
    ensures keys { IfOk result (λ keys. keys.items ≡ function_keys 0 (map symbol_entry_of symbols.now)) }
    ensures fit { IfOk result (λ _. All (λ (s : Declared). s.value < 2 ^ 64) symbols.now) }
{
    let mut keys = Vec::new(alloc);
    for (number, symbol) in symbols.iter().enumerate() {
        add_key(&mut keys, number, symbol)?;
    }
    Ok(keys)
}

/// Whether a function covers an address.
pub(crate) fn key_covers(key: &FunctionKey, addr: u128) -> bool
    ensures { result ≡ key_covers addr key.now }
{
    let value = u128::from(u64::MAX - key.below);
    value <= addr && addr < value + u128::from(key.size)
}

/// The addresses of a function below 2^64 - 1, under its number.
pub(crate) fn range_of_key(key: &FunctionKey) -> FileRange
    ensures is { result ≡ range_of_key key.now }
    ensures bounded { IsBounded result }
{
    FileRange {
        range: TableEntry {
            start: u64::MAX - key.below,
            len: key.size.min(key.below),
            offset: 0,
        },
        file: key.number,
    }
}
