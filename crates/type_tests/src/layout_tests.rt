//! What the types of a process say of a layout.
use crate::made::{Words, memory_of};
use process_memory::Part;
use py_fields::Layout;
use py_selftest::{
    LayoutCheck, Release, ThreadPlace, Types, Verdict, check_layout, check_value, push_check,
};
use std::alloc::{AllocError, Global};
use std::test::Fail;

/// Where `type` stands, and its members: `__basicsize__` alone, of a size at 32.
const TYPE: u64 = 0x1000;

const MEMBERS: u64 = 0x2000;

const NAME: u64 = 0x3000;

/// A table of places, which says that it is of 3.14.
const TABLE: u64 = 0x4000;

const EMPTY: &str = "{\"build\":null,\"differ\":[],\"doubt\":null,\"known\":null,\"not_told\":[],";

const OTHER: &str =
    ",\"other_table\":{\"major\":3,\"minor\":14},\"told\":[],\"verdict\":\"not described\"}";

const TABLE_LINE: &str =
    "The process has a table of places (_Py_DebugOffsets) that says it is of 3.14: nothing is read by it";

/// A thread without a frame, whose id is 99.
const THREAD: u64 = 0x5000;

/// Its interpreter, what that names as its modules, and the class of this, whose flags say that it is a dict.
const INTERPRETER: u64 = 0x6000;

const MODULES: u64 = 0x7000;

const CLASS: u64 = 0x8000;

fn process(alloc: Global) -> Result<Part, AllocError> {
    let words: [Words<'_>; 9] = [
        (TYPE, &[1, TYPE, 0, 0]),
        (TYPE + 240, &[MEMBERS]),
        (MEMBERS, &[NAME, 19, 32, 0, 0, 0]),
        (NAME, &[0x7363_6973_6162_5f5f, 0x5f_5f65_7a69]),
        (TABLE, &[0x7970_6775_6265_6478, 0x030e_00f0, 0]),
        (THREAD + 16, &[INTERPRETER, 0, 99]),
        (INTERPRETER + 16, &[MODULES]),
        (MODULES + 8, &[CLASS]),
        (CLASS + 32, &[0x2000_0000]),
    ];
    memory_of(alloc, &words)
}

/// What it says of the sample layout, as a process of this version of major 3.
fn checked(alloc: Global, minor: u64) -> Result<LayoutCheck, Fail> {
    let mut part = process(alloc)?;
    let types = Types {
        metatype: Some(TYPE),
        code: None,
        frame: None,
        text: None,
        tuple: None,
        bytes: None,
        long: None,
    };
    let release = Release { major: 3, minor };
    let threads = [ThreadPlace {
        address: THREAD,
        interpreter: INTERPRETER,
    }];
    Ok(check_layout(
        alloc,
        &mut part,
        &Layout::sample(),
        &types,
        Some(TABLE),
        release,
        &[5, 99],
        &threads,
    )?)
}

#[test]
fn what_is_not_told_confirms_nothing(rt: HostRuntime) -> Result<(), Fail> {
    let check = checked(rt.alloc(), 9)?;
    assert!(rt; check.verdict == Verdict::Silent);
    let mut text = String::new(rt.alloc());
    push_check(&mut text, &check)?;
    let mut lines = text.as_str().lines();
    assert!(rt; lines.next() == Some(TABLE_LINE));
    assert!(rt; lines.next() == Some("Layout not confirmed: 1 keys told, 43 not told"));
    assert!(rt; lines.next() == Some("Known answers: 3 of 3 are right"));
    Ok(())
}

#[test]
fn versions_that_are_not_known_have_a_value(rt: HostRuntime) -> Result<(), Fail> {
    let check = checked(rt.alloc(), 14)?;
    let value = check_value(rt.alloc(), &check)?;
    let text = value.to_string(rt.alloc())?;
    assert!(rt; text.as_str().starts_with(EMPTY), "{text}");
    assert!(rt; text.as_str().ends_with(OTHER), "{text}");
    Ok(())
}
