//! The types by which values are told, by the symbols of a process's images.
ghost use Rattle.std.specs.Prelude.{◌≡◌, IfOk};
ghost use Rattle.process_memory.specs.Seen.{Reading};
ghost use Rattle.py_process.specs.Facts.{known_of, symbol_known};
ghost use Rattle.repr_types.specs.Symbols.{each_of, repr_types_at, types_by, type_symbols, value_symbols};

use crate::found::{classes_named, types_named};
use image_memory::ContainsAddr;
use process_memory::ProcessMemory;
use py_fields::Layout;
use py_process::PythonProcessInfo;
use py_reprs::{ReprError, ReprTypes};
use std::alloc::Global;

/// The address of a symbol of a process's images.
fn symbol_of<M: ContainsAddr>(info: &PythonProcessInfo<M>, name: &[u8]) -> Option<u64>
    ensures { result ≡ symbol_known (known_of info.now) name.now }
{
    info.get_symbol(name).copied()
}

/// Those of the objects of types that have no symbol of their own.
fn value_symbols<M: ContainsAddr>(info: &PythonProcessInfo<M>) -> [Option<u64>; 3]
    ensures { result ≡ value_symbols (known_of info.now) }
{
    [
        symbol_of(info, b"_Py_NoneStruct"),
        symbol_of(info, b"_Py_EllipsisObject"),
        symbol_of(info, b"_Py_NotImplementedStruct"),
    ]
}

/// Those of the other types.
fn type_symbols<M: ContainsAddr>(info: &PythonProcessInfo<M>) -> [Option<u64>; 16]
    ensures { result ≡ type_symbols (known_of info.now) }
{
    [
        symbol_of(info, b"PyBool_Type"),
        symbol_of(info, b"PyFloat_Type"),
        symbol_of(info, b"PyComplex_Type"),
        symbol_of(info, b"PyByteArray_Type"),
        symbol_of(info, b"PySet_Type"),
        symbol_of(info, b"PyFrozenSet_Type"),
        symbol_of(info, b"PyRange_Type"),
        symbol_of(info, b"PySlice_Type"),
        symbol_of(info, b"PyCell_Type"),
        symbol_of(info, b"PyFunction_Type"),
        symbol_of(info, b"PyMethod_Type"),
        symbol_of(info, b"PyCFunction_Type"),
        symbol_of(info, b"PyModule_Type"),
        symbol_of(info, b"PyCoro_Type"),
        symbol_of(info, b"PyGen_Type"),
        symbol_of(info, b"PyAsyncGen_Type"),
    ]
}

/// One of some addresses; none past the last.
fn each_of(found: &[Option<u64>], number: usize) -> Option<u64>
    ensures { result ≡ each_of found.now number }
{
    match found.get(number) {
        Some(found) => *found,
        None => None,
    }
}

/// The types, of which these were found in this order.
fn types_by(classes: &[Option<u64>], types: &[Option<u64>]) -> ReprTypes
    ensures { result ≡ types_by classes.now types.now }
{
    ReprTypes {
        nothing: each_of(classes, 0),
        ellipsis: each_of(classes, 1),
        not_implemented: each_of(classes, 2),
        truth: each_of(types, 0),
        float: each_of(types, 1),
        complex: each_of(types, 2),
        bytearray: each_of(types, 3),
        set: each_of(types, 4),
        frozenset: each_of(types, 5),
        range: each_of(types, 6),
        slice: each_of(types, 7),
        cell: each_of(types, 8),
        function: each_of(types, 9),
        method: each_of(types, 10),
        builtin: each_of(types, 11),
        module: each_of(types, 12),
        coroutine: each_of(types, 13),
        generator: each_of(types, 14),
        async_generator: each_of(types, 15),
        instances: None,
        coroutines: None,
    }
}

/// The types by which values are told, by the symbols of a process's images.
///
/// `NoneType`, the type of `Ellipsis` and that of `NotImplemented` are the classes of `_Py_NoneStruct`,
/// `_Py_EllipsisObject` and `_Py_NotImplementedStruct`; each other type is what its own symbol names, if a type stands
/// there. One whose symbol no image has, or of which a word is not in memory, is none.
///
/// The one error is out of memory. At most 35 reads.
pub fn find_repr_types<M: ContainsAddr, P: ProcessMemory>(
    alloc: Global,
    info: &PythonProcessInfo<M>,
    process: &mut P,
    layout: &Layout,
) -> Result<ReprTypes, ReprError>
    ensures { Reading 35 (P.seen process.old) (P.seen process.new)
        (λ m. IfOk result (λ types. types ≡ repr_types_at (known_of info.now) layout.now m)) }
{
    let values = value_symbols(info);
    let classes = classes_named(alloc, process, layout, &values)?;
    let symbols = type_symbols(info);
    let types = types_named(alloc, process, layout, &symbols)?;
    Ok(types_by(&classes, &types))
}
