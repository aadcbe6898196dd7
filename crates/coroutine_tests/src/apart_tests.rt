//! Coroutines whose frame is an object of its own, as up to 3.10.
use crate::chains::{CLASS, Case, HOLDERS, TYPES};
use crate::made::{Words, memory_of};
use py_coroutines::{
    ApartPlaces, ApartStack, AwaitEnd, CodePlaces, Family, Places, States, Stop, is_sound,
    read_awaits,
};
use std::test::Fail;

/// The frame's address at 16, and whether it runs at 24; the frame has its code, its last instruction and its stack.
const POINTER: ApartPlaces = ApartPlaces {
    size: 32,
    frame: 16,
    running: Some(24),
    frame_size: 24,
    code: 0,
    last: 8,
    stack: ApartStack::Pointer { top: 16 },
};

const DEPTH: ApartPlaces = ApartPlaces {
    size: 24,
    running: None,
    frame_size: 25,
    stack: ApartStack::Depth {
        bottom: 16,
        depth: 12,
        state: 24,
        states: States {
            created: 254,
            suspended: 255,
            running: 0,
            awaiting: None,
        },
    },
    ..POINTER
};

/// Code names its instructions at 8, which begin at 16.
const CODE: CodePlaces = CodePlaces {
    bytecode: 8,
    start: 16,
    first: 72,
    second: 72,
    least: 0,
};

/// As in 3.7.
const WITH_POINTER: Places = Places {
    types: TYPES,
    class: CLASS,
    holders: HOLDERS,
    code: CODE,
    family: Family::Apart(POINTER),
};

/// As in 3.10.
const WITH_DEPTH: Places = Places {
    types: TYPES,
    class: CLASS,
    holders: HOLDERS,
    code: CODE,
    family: Family::Apart(DEPTH),
};

/// Coroutines with frames: one in an `await` of one in a plain `yield`; one that runs, is finished, or not begun; one
/// with an empty stack, and one with no code in memory.
const POINTER_ROWS: [Words<'static>; 15] = [
    (0x1000, &[0, 0x10, 0x2000, 0]),
    (0x2000, &[0x8000, 4, 0x3008]),
    (0x3000, &[0x1100]),
    (0x1100, &[0, 0x20, 0x2100, 0]),
    (0x2100, &[0x8000, 2, 0x3008]),
    (0x1200, &[0, 0x10, 0x2000, 1]),
    (0x1300, &[0, 0x10, 0, 0]),
    (0x1400, &[0, 0x10, 0x2400, 0]),
    (0x2400, &[0x8000, 0xffff_ffff, 0x3008]),
    (0x1500, &[0, 0x10, 0x2500, 0]),
    (0x2500, &[0x8000, 4, 0]),
    (0x1600, &[0, 0x10, 0x2600, 0]),
    (0x2600, &[0x9000, 4, 0x3008]),
    (0x8000, &[0, 0x8100]),
    (0x8100, &[0, 0, 0x0048_0001_0001_0001, 0]),
];

const POINTER_CASES: [Case; 6] = [
    (
        0x1000,
        9,
        &[0x1000, 0x1100],
        AwaitEnd::Stops(Stop::Yielding),
    ),
    (0x1200, 9, &[0x1200], AwaitEnd::Stops(Stop::Running)),
    (0x1300, 9, &[0x1300], AwaitEnd::Stops(Stop::Finished)),
    (0x1400, 9, &[0x1400], AwaitEnd::Stops(Stop::Created)),
    (0x1500, 9, &[0x1500], AwaitEnd::Stops(Stop::NoTop)),
    (
        0x1600,
        9,
        &[0x1600],
        AwaitEnd::Stops(Stop::Unreadable {
            addr: 0x9008,
            len: 8,
        }),
    ),
];

#[test]
fn frames_with_a_pointer(rt: HostRuntime) -> Result<(), Fail> {
    let alloc = rt.alloc();
    let places = WITH_POINTER;
    assert!(rt; is_sound(&places));
    let mut memory = memory_of(alloc, &POINTER_ROWS)?;
    for case in &POINTER_CASES {
        let chain = read_awaits(alloc, &mut memory, &places, case.1, case.0)?;
        assert!(rt; chain.members.as_slice() == case.2, "{:#x}", case.0);
        assert!(rt; chain.end == case.3, "{:#x}", case.0);
    }
    Ok(())
}

/// The same with a state, and the last instruction in units of two bytes; the count stands behind it.
const DEPTH_ROWS: [Words<'static>; 14] = [
    (0x1000, &[0, 0x10, 0x2000]),
    (0x2000, &[0x8000, 0x2_0000_0002, 0x3000, 255]),
    (0x3000, &[0, 0x1100]),
    (0x1100, &[0, 0x20, 0x2100]),
    (0x2100, &[0x8000, 0x2_0000_0001, 0x3000, 255]),
    (0x1200, &[0, 0x10, 0x2200]),
    (0x2200, &[0x8000, 0x2_0000_0002, 0x3000, 0]),
    (0x1300, &[0, 0x10, 0]),
    (0x1400, &[0, 0x10, 0x2400]),
    (0x2400, &[0x8000, 0x0_ffff_ffff, 0x3000, 254]),
    (0x1500, &[0, 0x10, 0x2500]),
    (0x2500, &[0x8000, 0x2, 0x3000, 255]),
    (0x8000, &[0, 0x8100]),
    (0x8100, &[0, 0, 0x0048_0001_0001_0001, 0]),
];

const DEPTH_CASES: [Case; 6] = [
    (
        0x1000,
        9,
        &[0x1000, 0x1100],
        AwaitEnd::Stops(Stop::Yielding),
    ),
    (0x1200, 9, &[0x1200], AwaitEnd::Stops(Stop::Running)),
    (0x1300, 9, &[0x1300], AwaitEnd::Stops(Stop::Finished)),
    (0x1400, 9, &[0x1400], AwaitEnd::Stops(Stop::Created)),
    (0x1500, 9, &[0x1500], AwaitEnd::Stops(Stop::NoTop)),
    (0x1000, 1, &[0x1000], AwaitEnd::Cut { addr: 0x1100 }),
];

#[test]
fn frames_with_a_depth(rt: HostRuntime) -> Result<(), Fail> {
    let alloc = rt.alloc();
    let places = WITH_DEPTH;
    assert!(rt; is_sound(&places));
    let mut memory = memory_of(alloc, &DEPTH_ROWS)?;
    for case in &DEPTH_CASES {
        let chain = read_awaits(alloc, &mut memory, &places, case.1, case.0)?;
        assert!(rt; chain.members.as_slice() == case.2, "{:#x}", case.0);
        assert!(rt; chain.end == case.3, "{:#x}", case.0);
    }
    Ok(())
}
