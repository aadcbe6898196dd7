//! Places of types, by a symbol, by code and by a module, and an object whose type has none.
use crate::made::{Words, memory_of};
use process_memory::Part;
use py_fields::Layout;
use std::alloc::{AllocError, Global};
use std::test::Fail;
use type_places::{
    CoreTypes, Found, Holder, TypeFields, TypePlace, by_symbol, core_types, is_holder, module_type,
};

/// Where the fields of a type stand that the sample layout does not say.
const FIELDS: TypeFields = TypeFields {
    basic_size: 48,
    base: 56,
};

/// Types: `type`, `object`, `code`, `str`, `bytes`, `tuple`, `dict`, `module`.
const TYPE: u64 = 0x1000;

const OBJECT: u64 = 0x1100;

const CODE: u64 = 0x1200;

const TEXT: u64 = 0x1300;

const BYTES: u64 = 0x1400;

const TUPLE: u64 = 0x1500;

const DICT: u64 = 0x1600;

const MODULE: u64 = 0x1700;

/// `_collections.deque`, whose instances have 80 bytes, and a class of a program that is named `deque` too, whose
/// instances have 96.
const DEQUE: u64 = 0x1800;

const OTHER_DEQUE: u64 = 0x1900;

/// The type of an iterator that holds a future, and the future's.
const ITERATOR: u64 = 0x1a00;

const FUTURE: u64 = 0x1b00;

/// A code object, a dict of modules, and a future's iterator.
const A_CODE: u64 = 0x2000;

const MODULES: u64 = 0x3000;

const AN_ITERATOR: u64 = 0x5000;

/// The flag of `type` and of what derives from it.
const IS_TYPE: u64 = 1 << 31;

/// The dict of the module `_collections` has this under `deque`.
fn process(alloc: Global, deque: u64) -> Result<Part, AllocError> {
    let words: [Words<'_>; 26] = [
        (TYPE, &[1, TYPE, 0, 0, IS_TYPE, 0, 800, OBJECT]),
        (OBJECT, &[1, TYPE, 0, 0, 0, 0, 16, 0]),
        (CODE, &[1, TYPE, 0, 0, 0, 0, 176, OBJECT]),
        (TEXT, &[1, TYPE, 0, 0, 0, 0, 80, OBJECT]),
        (BYTES, &[1, TYPE, 0, 0, 0, 0, 33, OBJECT]),
        (TUPLE, &[1, TYPE, 0, 0, 0, 0, 24, OBJECT]),
        (DICT, &[1, TYPE, 0, 0, 0, 0, 48, OBJECT]),
        (MODULE, &[1, TYPE, 0, 0, 0, 16, 56, OBJECT]),
        (DEQUE, &[1, TYPE, 0, 0, 0, 0, 80, OBJECT]),
        (OTHER_DEQUE, &[1, TYPE, 0, 0, 0, 0, 96, OBJECT]),
        (ITERATOR, &[1, TYPE, 0, 0x6000, 0, 0, 24, OBJECT]),
        (FUTURE, &[1, TYPE, 0, 0, 0, 0, 120, OBJECT]),
        (A_CODE, &[1, CODE, 0, 0, 0, 0x2100, 0x2200, 0x2300]),
        (0x2100, &[1, TEXT]),
        (0x2200, &[1, BYTES]),
        (0x2300, &[1, TUPLE]),
        (MODULES, &[1, DICT, 0, 0, 0x3100, 0]),
        (0x3100, &[0, 8, 0, 0, 1, 0, 7, 0x3200, 0x4000]),
        (
            0x3200,
            &[
                1,
                TEXT,
                12,
                0,
                100,
                0,
                0x7463_656c_6c6f_635f,
                0x736e_6f69,
                0,
            ],
        ),
        (0x4000, &[1, MODULE, 0x4100]),
        (0x4100, &[1, DICT, 0, 0, 0x4200, 0]),
        (0x4200, &[0, 8, 0, 0, 1, 0, 7, 0x4300, deque]),
        (0x4300, &[1, TEXT, 5, 0, 100, 0, 0x65_7571_6564, 0, 0]),
        (AN_ITERATOR, &[1, ITERATOR, 0x5100]),
        (0x5100, &[1, FUTURE]),
        (
            0x6000,
            &[
                0x6f69_636e_7973_615f,
                0x4965_7275_7475_462e,
                0x72_6574,
                0,
                0,
                0,
                0,
                0,
                0,
                0,
                0,
                0,
                0,
                0,
                0,
                0,
            ],
        ),
    ];
    memory_of(alloc, &words)
}

/// A place that the code of a frame leads to.
fn by_code(address: u64) -> TypePlace {
    TypePlace {
        address,
        found: Found::CodeOfAFrame,
    }
}

#[test]
fn code_leads_to_the_types_of_what_it_holds(rt: HostRuntime) -> Result<(), Fail> {
    let mut part = process(rt.alloc(), DEQUE)?;
    let met = core_types(&mut part, &Layout::sample(), &FIELDS, A_CODE, MODULES)?;
    let types = CoreTypes {
        code: by_code(CODE),
        metatype: by_code(TYPE),
        text: by_code(TEXT),
        bytes: by_code(BYTES),
        tuple: by_code(TUPLE),
        dict: by_code(DICT),
        object: by_code(OBJECT),
    };
    assert!(rt; met == Some(types));
    Ok(())
}

#[test]
fn what_is_no_code_leads_to_none(rt: HostRuntime) -> Result<(), Fail> {
    let mut part = process(rt.alloc(), DEQUE)?;
    let met = core_types(&mut part, &Layout::sample(), &FIELDS, TYPE, MODULES);
    assert!(rt; !met.is_ok_and(|types| types.is_some()));
    Ok(())
}

#[test]
fn a_symbol_names_a_type_or_none(rt: HostRuntime) -> Result<(), Fail> {
    let mut part = process(rt.alloc(), DEQUE)?;
    let place = by_symbol(&mut part, &Layout::sample(), Some(DEQUE))?;
    assert!(rt;
        place
            == Some(TypePlace {
                address: DEQUE,
                found: Found::Symbol
            })
    );
    Ok(())
}

#[test]
fn a_symbol_of_what_is_no_type_names_none(rt: HostRuntime) -> Result<(), Fail> {
    let mut part = process(rt.alloc(), DEQUE)?;
    let place = by_symbol(&mut part, &Layout::sample(), Some(A_CODE))?;
    assert!(rt; place.is_none());
    Ok(())
}

/// The type that the module has under `deque`, where its instances have 80 bytes.
fn deque_of(alloc: Global, deque: u64) -> Result<Option<TypePlace>, AllocError> {
    let mut part = process(alloc, deque)?;
    let layout = Layout::sample();
    let found = module_type(
        alloc,
        &mut part,
        &layout,
        &FIELDS,
        MODULES,
        "_collections",
        "deque",
        80,
    );
    match found {
        Ok(place) => Ok(place),
        Err(_) => Ok(None),
    }
}

#[test]
fn a_module_has_its_type(rt: HostRuntime) -> Result<(), Fail> {
    let place = deque_of(rt.alloc(), DEQUE)?;
    assert!(rt;
        place
            == Some(TypePlace {
                address: DEQUE,
                found: Found::ModuleDict
            })
    );
    Ok(())
}

#[test]
fn a_class_of_that_name_alone_is_not_taken(rt: HostRuntime) -> Result<(), Fail> {
    let place = deque_of(rt.alloc(), OTHER_DEQUE)?;
    assert!(rt; place.is_none());
    Ok(())
}

/// Whether the iterator is one that holds an object of a class.
fn holds(alloc: Global, wanted_class: u64) -> Result<bool, Fail> {
    let mut part = process(alloc, DEQUE)?;
    let holder = Holder {
        name: "_asyncio.FutureIter",
        basic_size: 24,
        place: 16,
        wanted_class,
    };
    let is = is_holder(
        alloc,
        &mut part,
        &Layout::sample(),
        &FIELDS,
        AN_ITERATOR,
        &holder,
    )?;
    Ok(is)
}

#[test]
fn a_holder_holds_what_is_wanted(rt: HostRuntime) -> Result<(), Fail> {
    assert!(rt; holds(rt.alloc(), FUTURE)?);
    assert!(rt; !holds(rt.alloc(), DEQUE)?);
    Ok(())
}
