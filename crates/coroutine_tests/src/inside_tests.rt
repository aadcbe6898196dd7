//! Coroutines that have their frame inside, as from 3.11 on.
use crate::chains::{CLASS, Case, HOLDERS, TYPES};
use crate::made::{Words, memory_of, pieces_of};
use process_memory::{Part, Piece, Recorder};
use py_coroutines::{
    AwaitEnd, CodePlaces, Family, InsidePlaces, Kind, Places, States, Stop, is_sound, read_awaits,
    read_frame_place, read_kind,
};
use std::alloc::{AllocError, Global};
use std::test::Fail;

/// The state at 16 with the count of words at 20, the last instruction at 24, and the stack at 32.
const FRAME: InsidePlaces = InsidePlaces {
    size: 32,
    frame: 16,
    state: 16,
    states: States {
        created: 253,
        suspended: 254,
        running: 0,
        awaiting: Some(255),
    },
    instruction: 8,
    depth: 4,
    stack: 16,
};

const CODE: CodePlaces = CodePlaces {
    bytecode: 0,
    start: 0,
    first: 151,
    second: 150,
    least: 2,
};

/// As in 3.13.
const TOLD: Places = Places {
    types: TYPES,
    class: CLASS,
    holders: HOLDERS,
    code: CODE,
    family: Family::Inside(FRAME),
};

/// As in 3.11.
const IN_CODE: Places = Places {
    types: TYPES,
    class: CLASS,
    holders: HOLDERS,
    code: CODE,
    family: Family::Inside(InsidePlaces {
        states: States {
            created: 254,
            suspended: 255,
            running: 0,
            awaiting: None,
        },
        ..FRAME
    }),
};

/// A state with one word on its stack.
const AWAITING: u64 = 0x1_0000_00ff;

const YIELDING: u64 = 0x1_0000_00fe;

/// Coroutines, and what stands between; each class of that one has its name in a piece of its own.
const ROWS: [Words<'static>; 24] = [
    (0x1000, &[0, 0x10, AWAITING, 0, 0x1100]),
    (0x1100, &[0, 0x500, 0x1200]),
    (0x1200, &[0, 0x10, AWAITING, 0, 0x1300]),
    (0x1300, &[0, 0x600, 0x1400]),
    (0x1500, &[0, 0x10, AWAITING, 0, 0x1600]),
    (0x1600, &[0, 0x10, AWAITING, 0, 0x1500]),
    (0x1700, &[0, 0x10, 0x1_0000_00fd, 0, 0]),
    (0x1800, &[0, 0x20, 0x1_0000_0000, 0, 0]),
    (0x1900, &[0, 0x30, 0x1_0000_0001, 0, 0]),
    (0x1a00, &[0, 0x20, YIELDING, 0, 0]),
    (0x1b00, &[0, 0x10, 0xff, 0, 0]),
    (0x1c00, &[0, 0x10, AWAITING, 0, 0x1d00]),
    (0x1d00, &[0, 0x700, 0x1700]),
    (0x1e00, &[0, 0x10, AWAITING, 0]),
    (0x1f00, &[0, 0x10]),
    (0x2000, &[0, 0x500, 0x1300]),
    (0x2100, &[0, 0x600, 0]),
    (0x2200, &[0, 0x10, AWAITING, 0, 0x2300]),
    (0x2300, &[0, 0x40]),
    (0x500, &[0, 24, 0x10_0000]),
    (0x600, &[0x300, 24, 0x20_0000]),
    (0x700, &[0x200, 24, 0x10_0000]),
    (0x2400, &[0, 0x10, 0xffff_ffff_0000_00ff, 0]),
    (0x2500, &[0, 0x800]),
];

/// Names of types, each in 128 bytes.
const NAMES: [(u64, &'static str); 2] = [
    (0x10_0000, "coroutine_wrapper"),
    (0x20_0000, "_asyncio.FutureIter"),
];

fn add_name(
    pieces: &mut Vec<Piece>,
    alloc: Global,
    start: u64,
    name: &str,
) -> Result<(), AllocError> {
    let mut bytes = name.as_bytes().to_vec(alloc)?;
    bytes.resize(128, 0)?;
    pieces.push(Piece { start, bytes })?;
    Ok(())
}

fn memory(alloc: Global) -> Result<Part, AllocError> {
    let mut pieces = pieces_of(alloc, &ROWS)?;
    for (start, name) in &NAMES {
        add_name(&mut pieces, alloc, *start, name)?;
    }
    Ok(Part::of(alloc, pieces))
}

const CASES: [Case; 15] = [
    (
        0x1000,
        9,
        &[0x1000, 0x1100, 0x1200],
        AwaitEnd::Stops(Stop::Future { addr: 0x1400 }),
    ),
    (0x1000, 2, &[0x1000, 0x1100], AwaitEnd::Cut { addr: 0x1200 }),
    (
        0x1500,
        9,
        &[0x1500, 0x1600],
        AwaitEnd::Cycle { addr: 0x1500 },
    ),
    (0x1700, 9, &[0x1700], AwaitEnd::Stops(Stop::Created)),
    (0x1800, 9, &[0x1800], AwaitEnd::Stops(Stop::Running)),
    (0x1900, 9, &[0x1900], AwaitEnd::Stops(Stop::Finished)),
    (0x1a00, 9, &[0x1a00], AwaitEnd::Stops(Stop::Yielding)),
    (0x1b00, 9, &[0x1b00], AwaitEnd::Stops(Stop::NoTop)),
    (
        0x1c00,
        9,
        &[0x1c00],
        AwaitEnd::Stops(Stop::Other {
            addr: 0x1d00,
            class: 0x700,
        }),
    ),
    (
        0x1e00,
        9,
        &[0x1e00],
        AwaitEnd::Stops(Stop::Unreadable {
            addr: 0x1e20,
            len: 8,
        }),
    ),
    (
        0x1f00,
        9,
        &[0x1f00],
        AwaitEnd::Stops(Stop::Unreadable {
            addr: 0x1f00,
            len: 32,
        }),
    ),
    (
        0x2000,
        9,
        &[],
        AwaitEnd::Stops(Stop::Other {
            addr: 0x2000,
            class: 0x500,
        }),
    ),
    (
        0x2200,
        9,
        &[0x2200],
        AwaitEnd::Stops(Stop::Future { addr: 0x2300 }),
    ),
    (0x2400, 9, &[0x2400], AwaitEnd::Stops(Stop::NoTop)),
    (
        0x2500,
        9,
        &[],
        AwaitEnd::Stops(Stop::Unreadable {
            addr: 0x800,
            len: 8,
        }),
    ),
];

#[test]
fn chains_end_as_they_do(rt: HostRuntime) -> Result<(), Fail> {
    let alloc = rt.alloc();
    let places = TOLD;
    assert!(rt; is_sound(&places));
    let mut memory = Recorder::new(alloc, memory(alloc)?);
    for case in &CASES {
        let chain = read_awaits(alloc, &mut memory, &places, case.1, case.0)?;
        assert!(rt; chain.members.as_slice() == case.2, "{:#x}", case.0);
        assert!(rt; chain.end == case.3, "{:#x}", case.0);
    }
    Ok(())
}

/// In an `await`, in a plain `yield`, and in code that is not in memory; and the code.
const CODED: [Words<'static>; 4] = [
    (0x1000, &[0, 0x10, AWAITING, 0x8006, 0x2000]),
    (0x2000, &[0, 0x10, AWAITING, 0x800e, 0x3000]),
    (0x3000, &[0, 0x10, AWAITING, 0x9000, 0x4000]),
    (0x8000, &[0, 0x0397, 0x0197]),
];

const CODED_CASES: [Case; 2] = [
    (
        0x1000,
        9,
        &[0x1000, 0x2000],
        AwaitEnd::Stops(Stop::Yielding),
    ),
    (
        0x3000,
        9,
        &[0x3000],
        AwaitEnd::Stops(Stop::Unreadable {
            addr: 0x9002,
            len: 2,
        }),
    ),
];

#[test]
fn code_says_what_awaits(rt: HostRuntime) -> Result<(), Fail> {
    let alloc = rt.alloc();
    let places = IN_CODE;
    assert!(rt; is_sound(&places));
    let mut memory = memory_of(alloc, &CODED)?;
    for case in &CODED_CASES {
        let chain = read_awaits(alloc, &mut memory, &places, case.1, case.0)?;
        assert!(rt; chain.members.as_slice() == case.2, "{:#x}", case.0);
        assert!(rt; chain.end == case.3, "{:#x}", case.0);
    }
    Ok(())
}

#[test]
fn members_are_what_they_are(rt: HostRuntime) -> Result<(), Fail> {
    let alloc = rt.alloc();
    let places = TOLD;
    assert!(rt; is_sound(&places));
    let mut memory = memory(alloc)?;
    let kind = read_kind(&mut memory, &places, 0x1900);
    assert!(rt; matches!(kind, Ok(Some(Kind::AsyncGenerator))));
    let place = read_frame_place(alloc, &mut memory, &places.family, 0x1800);
    assert!(rt; matches!(place, Ok(Some(0x1810))));
    let none = read_frame_place(alloc, &mut memory, &places.family, 0x1900);
    assert!(rt; matches!(none, Ok(None)));
    Ok(())
}
