//! The symbols of an image, by their names.
ghost use Rattle.std.specs.Prelude.{◌≡◌, ◌⊎◌, ℕ, List, map, OnOk, IfOk, IfErr};
ghost use Rattle.std.specs.Option.{option_or};
ghost use Rattle.elf64_core.specs.Symbols.{symbol_entry_of};
ghost use Rattle.py_process.specs.Refusals.{HasBoth};
ghost use Rattle.py_process.specs.SymbolMap.{HasAddresses, address_in, address_of, is_kept, is_past_bss, is_undefined};
ghost use Rattle.py_process.specs.SymbolMap.{is_within};

use crate::BinaryError;
use elf64_core::{Elf64, Symbol, SymbolKind};
use image_memory::is_subrange;
use std::alloc::{AllocError, Global};
use std::collections::BTreeMap;

/// Where an image is mapped, how far it was moved, and where its bss ended before, or 0.
#[derive(Clone, Copy)]
pub(crate) struct Place {
    pub(crate) addr: u64,
    pub(crate) size: u64,
    pub(crate) offset: u64,
    pub(crate) bss_end: u64,
}

/// Whether a range lies in another: see `is_subrange`.
fn is_within(start: u64, size: u64, sub_start: u64, sub_size: u64) -> bool
    ensures { result ≡ is_within start size sub_start sub_size }
{
    is_subrange(start, size, sub_start, sub_size)
}

/// Whether a symbol is not defined here, or is global or weak and has no value.
fn is_undefined(symbol: &Symbol<'_>) -> bool
    ensures { result ≡ is_undefined (symbol_entry_of symbol.now) }
{
    symbol.section == 0 || (matches!(symbol.info / 16, 1 | 2) && symbol.value == 0)
}

/// Whether a symbol has a size and does not lie below the end of the bss, where there is one.
fn is_past_bss(place: &Place, symbol: &Symbol<'_>) -> bool
    ensures { result ≡ is_past_bss place.now (symbol_entry_of symbol.now) }
{
    place.bss_end != 0
        && symbol.size != 0
        && !is_within(0, place.bss_end, symbol.value, symbol.size)
}

/// Whether a symbol is kept: it is defined, does not lie past the bss, its address does not pass 2^64 - 1, and
/// where it is a function it lies in the map.
fn is_kept(place: &Place, symbol: &Symbol<'_>) -> bool
    ensures { result ≡ is_kept place.now (symbol_entry_of symbol.now) }
{
    if is_undefined(symbol) || is_past_bss(place, symbol) {
        return false;
    }
    match symbol.value.checked_add(place.offset) {
        Some(addr) => {
            symbol.info % 16 != 2 || is_within(place.addr, place.size, addr, symbol.size)
        }
        None => false,
    }
}

/// A copy of a name, for which so much room is left. Out of memory is the one error; a lack of room counts as it.
fn copy_within(alloc: Global, name: &[u8], room: &mut usize) -> Result<Vec<u8>, AllocError>
    ensures { IfOk result (λ copy. copy.items ≡ name.now) }
{
    match room.checked_sub(name.len()) {
        Some(left) => {
            *room = left;
            Vec::from_slice(alloc, name)
        }
        None => Err(AllocError),
    }
}

/// Adds the symbols that are kept to a map, later ones in the place of earlier ones of their names. The names have at
/// most so many bytes together as there is room for: more count as out of memory.
pub(crate) fn add_symbols(
    alloc: Global,
    symbols: &[Symbol<'_>],
    place: &Place,
    room: &mut usize,
    kept: &mut BTreeMap<Vec<u8>, u64>,
) -> Result<(), AllocError>
    ensures { OnOk result ((name : List ℕ) → address_in kept.new name
        ≡ option_or (address_of place.now name (map symbol_entry_of symbols.now)) (address_in kept.old name)) }
{
    for symbol in symbols {
        if let Some(name) = symbol.name {
            if is_kept(place, symbol) {
                let addr = symbol.value + place.offset;
                kept.insert(copy_within(alloc, name, room)?, addr)?;
            }
        }
    }
    Ok(())
}

/// The symbols of an image that are kept, by their names, which have at most so many bytes together as there is room
/// for.
///
/// `BadHeader` comes exactly where one of its two lists of symbols can't be read. Else the one error is want of
/// memory.
pub(crate) fn kept_symbols(
    alloc: Global,
    elf: &Elf64<'_>,
    place: &Place,
    room: usize,
) -> Result<BTreeMap<Vec<u8>, u64>, BinaryError>
    ensures symbols { IfOk result (HasAddresses elf.now place.now) }
    ensures held { IfOk result (λ kept. HasBoth elf.now) }
    ensures refused { IfErr result (λ error. (error ≡ BinaryError.OutOfMemory)
        ⊎ ((error ≡ BinaryError.BadHeader) × ¬ HasBoth elf.now)) }
{
    let plain = elf.symbols(alloc, SymbolKind::Plain)?;
    let dynamic = elf.symbols(alloc, SymbolKind::Dynamic)?;
    let mut room = room;
    let mut kept = BTreeMap::new(alloc);
    add_symbols(alloc, &plain, place, &mut room, &mut kept)?;
    add_symbols(alloc, &dynamic, place, &mut room, &mut kept)?;
    Ok(kept)
}
