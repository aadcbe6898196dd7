//! Types by symbols, over a memory that is written out.
use crate::find_repr_types;
use elf64_core::Name;
use image_memory::CoreMapRange;
use process_memory::{Part, Piece};
use py_fields::Layout;
use py_process::{BinaryInfo, PythonProcessInfo};
use py_reprs::ReprTypes;
use std::alloc::{AllocError, Global};
use std::collections::BTreeMap;
use std::test::Fail;

/// `type`, `bool`, the type of `None`, `None`, and the type of generators.
const TYPE: u64 = 0x1000;

const BOOL: u64 = 0x1100;

const NONE_TYPE: u64 = 0x1200;

const NONE: u64 = 0x1300;

const GENERATOR: u64 = 0x1400;

/// The flag of `type` and of what derives from it.
const IS_TYPE: u64 = 1 << 31;

fn piece(alloc: Global, start: u64, words: &[u64]) -> Result<Piece, AllocError> {
    let mut bytes = Vec::new(alloc);
    for word in words {
        bytes.extend_from_slice(&word.to_le_bytes())?;
    }
    Ok(Piece { start, bytes })
}

fn process(alloc: Global) -> Result<Part, AllocError> {
    let mut pieces = Vec::new(alloc);
    pieces.push(piece(alloc, TYPE, &[1, TYPE, 0, 0, IS_TYPE])?)?;
    pieces.push(piece(alloc, BOOL, &[1, TYPE])?)?;
    pieces.push(piece(alloc, NONE, &[1, NONE_TYPE])?)?;
    pieces.push(piece(alloc, GENERATOR, &[1, TYPE])?)?;
    Ok(Part::of(alloc, pieces))
}

/// An image that names `bool`, `None`, and what is no type as `float`.
fn binary(alloc: Global) -> Result<BinaryInfo, Fail> {
    let mut symbols = BTreeMap::new(alloc);
    symbols.insert(Vec::from_slice(alloc, b"PyBool_Type")?, BOOL)?;
    symbols.insert(Vec::from_slice(alloc, b"_Py_NoneStruct")?, NONE)?;
    symbols.insert(Vec::from_slice(alloc, b"PyFloat_Type")?, NONE)?;
    symbols.insert(Vec::from_slice(alloc, b"PyGen_Type")?, GENERATOR)?;
    symbols.insert(Vec::from_slice(alloc, b"PySet_Type")?, 0x9000)?;
    Ok(BinaryInfo {
        symbols,
        bss_addr: 0,
        bss_size: 0,
        pyruntime_addr: 0,
        pyruntime_size: 0,
        addr: 0,
        size: 0,
    })
}

#[test]
fn symbols_name_types(rt: HostRuntime) -> Result<(), Fail> {
    let maps: Vec<CoreMapRange> = Vec::new(rt.alloc());
    let info = PythonProcessInfo {
        python_binary: Some(binary(rt.alloc())?),
        libpython_binary: None,
        maps: &maps,
        python_filename: Name::of(rt.alloc(), b"python")?,
    };
    let mut part = process(rt.alloc())?;
    let layout = Layout::sample();
    let types = find_repr_types(rt.alloc(), &info, &mut part, &layout)?;
    let known = ReprTypes {
        nothing: Some(NONE_TYPE),
        ellipsis: None,
        not_implemented: None,
        truth: Some(BOOL),
        float: None,
        complex: None,
        bytearray: None,
        set: None,
        frozenset: None,
        range: None,
        slice: None,
        cell: None,
        function: None,
        method: None,
        builtin: None,
        module: None,
        coroutine: None,
        generator: Some(GENERATOR),
        async_generator: None,
        instances: None,
        coroutines: None,
    };
    assert!(rt; types == known);
    Ok(())
}
