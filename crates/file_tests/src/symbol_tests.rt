//! Symbols written out by hand.
use covering_symbols::FunctionTable;
use elf64_core::Symbol;
use std::alloc::{AllocError, Global};
use std::test::Fail;

/// Symbols by info, value and size: a function; one inside it; what is no function; two that tie with the second in
/// value and with each other in size; one of no bytes; one past 2^64.
const SYMBOLS: [(u8, u64, u64); 7] = [
    (0x12, 0x1000, 0x100),
    (0x12, 0x1010, 0x10),
    (0x11, 0x1010, 0x4),
    (0x02, 0x1010, 0x8),
    (0x22, 0x1010, 0x8),
    (0x12, 0x1018, 0),
    (0x12, u64::MAX - 0xf, 0x20),
];

/// Addresses, and the numbers of the symbols that cover them.
const COVERED: [(u128, Option<usize>); 13] = [
    (0xfff, None),
    (0x1000, Some(0)),
    (0x1010, Some(3)),
    (0x1017, Some(3)),
    (0x1018, Some(1)),
    (0x101f, Some(1)),
    (0x1020, Some(0)),
    (0x10ff, Some(0)),
    (0x1100, None),
    (0xffff_ffff_ffff_fff0, Some(6)),
    (0xffff_ffff_ffff_ffff, Some(6)),
    (0x1_0000_0000_0000_000f, Some(6)),
    (0x1_0000_0000_0000_0010, None),
];

fn symbol_of((info, value, size): (u8, u64, u64)) -> Symbol<'static> {
    Symbol {
        name: None,
        info,
        section: 1,
        value,
        size,
    }
}

fn functions(alloc: Global) -> Result<FunctionTable, AllocError> {
    let symbols = SYMBOLS.map(symbol_of);
    FunctionTable::of(alloc, &symbols)
}

#[test]
fn functions_cover_addresses(rt: HostRuntime) -> Result<(), Fail> {
    let functions = functions(rt.alloc())?;
    for (addr, number) in &COVERED {
        assert!(rt; functions.covering(*addr) == *number, "{addr:#x}");
    }
    Ok(())
}
