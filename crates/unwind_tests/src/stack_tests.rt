//! The stack of a thread in a small file, which is written down here.
use core_unwind::{
    CodeMap, CodePlace, End, Frame, Limit, Manner, Mapping, NativeStack, Next, State, read_guess,
    read_stack, read_step, thread_state,
};
use frame_rows::Machine;
use frame_tables::Room;
use process_memory::{Part, Piece};
use std::alloc::{AllocError, Global};
use std::test::Fail;

/// A file of x86-64 that is mapped at 0x400000: its header, a load segment of code and PT_GNU_EH_FRAME; from 176 on
/// the table of two entries, from 204 on the common information entry, and from 228 and 252 on the entries of
/// 0x400000 to 0x40000f and of 0x400020 to 0x40003f. The CFA of the first is rsp + 8, and behind an instruction of
/// one byte rsp + 16, with rbp saved at the CFA less 16; that of the second is rsp + 8, and from 0x400024 on rsp +
/// 32. The return address is saved at the CFA less 8.
static FILE: [u8; 276] = [
    127, 69, 76, 70, 2, 1, 1, 0, 0, 0, 0, 0, 0, 0, 0, 0, 3, 0, 62, 0, 1, 0, 0, 0, 0, 0, 0, 0, 0, 0,
    0, 0, 64, 0, 0, 0, 0, 0, 0, 0, 0, 0, 0, 0, 0, 0, 0, 0, 0, 0, 0, 0, 64, 0, 56, 0, 2, 0, 0, 0, 0,
    0, 0, 0, 1, 0, 0, 0, 5, 0, 0, 0, 0, 0, 0, 0, 0, 0, 0, 0, 0, 0, 64, 0, 0, 0, 0, 0, 0, 0, 64, 0,
    0, 0, 0, 0, 20, 1, 0, 0, 0, 0, 0, 0, 20, 1, 0, 0, 0, 0, 0, 0, 0, 16, 0, 0, 0, 0, 0, 0, 80, 229,
    116, 100, 4, 0, 0, 0, 176, 0, 0, 0, 0, 0, 0, 0, 176, 0, 64, 0, 0, 0, 0, 0, 176, 0, 64, 0, 0, 0,
    0, 0, 28, 0, 0, 0, 0, 0, 0, 0, 28, 0, 0, 0, 0, 0, 0, 0, 4, 0, 0, 0, 0, 0, 0, 0, 1, 27, 3, 59,
    24, 0, 0, 0, 2, 0, 0, 0, 80, 255, 255, 255, 52, 0, 0, 0, 112, 255, 255, 255, 76, 0, 0, 0, 20,
    0, 0, 0, 0, 0, 0, 0, 1, 122, 82, 0, 1, 120, 16, 1, 27, 12, 7, 8, 144, 1, 0, 0, 20, 0, 0, 0, 28,
    0, 0, 0, 20, 255, 255, 255, 16, 0, 0, 0, 0, 65, 14, 16, 134, 2, 0, 0, 16, 0, 0, 0, 52, 0, 0, 0,
    28, 255, 255, 255, 32, 0, 0, 0, 0, 68, 14, 32, 0, 0, 0, 0,
];

/// Where it is mapped: at another address than its own.
const CODE: u64 = 0x7000_0000;

/// The stack: from here on some words.
const STACK: u64 = 0x9000;

/// Steps without guesses.
static PLAIN: Manner = Manner {
    machine: Machine::X86_64,
    code_bits: u64::MAX,
    guesses: false,
};

/// A memory of these words from the stack on.
fn memory_of(alloc: Global, words: &[u64]) -> Result<Part, AllocError> {
    let mut bytes = Vec::new(alloc);
    for word in words {
        bytes.extend_from_slice(&word.to_le_bytes())?;
    }
    let mut pieces = Vec::new(alloc);
    pieces.push(Piece {
        start: STACK,
        bytes,
    })?;
    Ok(Part::of(alloc, pieces))
}

/// A thread whose newest frame is at an address, and whose stack pointer is the stack.
fn thread_at(pc: u64) -> State {
    let mut registers = [None; 32];
    registers[7] = Some(STACK);
    State {
        pc,
        is_exact: true,
        registers,
        least: 0,
        signals: 64,
        bytes: 1000,
    }
}

/// The one mapping.
fn map_of(alloc: Global) -> Result<CodeMap<'static>, AllocError> {
    let mut mappings = Vec::new(alloc);
    mappings.push(Mapping {
        start: CODE,
        end: CODE + 276,
        offset: 0,
        file: 5,
        bytes: Some(&FILE),
    })?;
    CodeMap::of(alloc, mappings)
}

/// The stack of such a thread, of at most `limit` frames, over these words.
fn stack_of(
    alloc: Global,
    words: &[u64],
    limit: usize,
    pc: u64,
) -> Result<Option<NativeStack>, AllocError> {
    let mappings = map_of(alloc)?;
    let mut part = memory_of(alloc, words)?;
    if limit == 0 {
        return Ok(None);
    }
    match read_stack(alloc, &mut part, &mappings, &PLAIN, limit, &thread_at(pc)) {
        Ok(stack) => Ok(Some(stack)),
        Err(_) => Ok(None),
    }
}

/// How it ends, and how many frames it has.
fn end_of(
    alloc: Global,
    words: &[u64],
    limit: usize,
    pc: u64,
) -> Result<Option<(usize, End)>, AllocError> {
    match stack_of(alloc, words, limit, pc)? {
        Some(stack) => Ok(Some((stack.frames.len(), stack.end))),
        None => Ok(None),
    }
}

/// A frame in the file, at one of its own addresses, that is exact or not.
fn frame_of(pc: u64, is_exact: bool, address: u64, cfa: u64) -> Frame {
    Frame {
        pc,
        is_exact,
        place: Some(CodePlace { file: 5, address }),
        cfa: Some(cfa),
        is_signal: false,
        mark: None,
    }
}

#[test]
fn a_stack_is_told_frame_by_frame(rt: HostRuntime) -> Result<(), Fail> {
    // the second frame stands behind a call that ends its function's first instruction
    let words = [0, 0, 0, CODE + 1, 0, 7];
    let stack = stack_of(rt.alloc(), &words, 9, CODE + 0x24)?;
    let is = match stack {
        Some(stack) => {
            stack.end == End::Whole
                && stack.frames.as_slice()
                    == [
                        frame_of(CODE + 0x24, true, 0x40_0024, STACK + 32),
                        frame_of(CODE + 1, false, 0x40_0000, STACK + 40),
                    ]
                    .as_slice()
        }
        None => false,
    };
    assert!(rt; is);
    Ok(())
}

#[test]
fn an_end_says_why(rt: HostRuntime) -> Result<(), Fail> {
    let caller = CODE + 0x30;
    let cases = [
        (CODE + 0x24, 0, 9, 1, End::Whole),
        (
            CODE + 0x24,
            CODE + 276,
            9,
            2,
            End::NoTable { at: CODE + 275 },
        ),
        (CODE + 0x24, 0x1000, 9, 2, End::NoFile { at: 0xfff }),
        (CODE + 0x12, 0, 9, 1, End::NoTable { at: CODE + 0x12 }),
        (CODE - 1, 0, 9, 1, End::NoFile { at: CODE - 1 }),
        (
            CODE + 0x24,
            caller,
            9,
            2,
            End::Unreadable { at: STACK + 56 },
        ),
        (CODE + 0x24, caller, 1, 1, End::Cut(Limit::Frames)),
    ];
    for (pc, address, limit, frames, end) in cases {
        let words = [0, 0, 0, address, 0, 0];
        let told = end_of(rt.alloc(), &words, limit, pc)?;
        assert!(rt; told == Some((frames, end)), "{pc} {address}");
    }
    Ok(())
}

#[test]
fn a_step_gives_the_callers_registers(rt: HostRuntime) -> Result<(), Fail> {
    let mappings = map_of(rt.alloc())?;
    let mut part = memory_of(rt.alloc(), &[0x33, CODE + 0x30])?;
    let mut room = Room::new();
    let turn = read_step(
        &mut part,
        &mappings,
        &PLAIN,
        &mut room,
        &thread_at(CODE + 4),
    );
    let is = match turn {
        Ok(turn) => match turn.next {
            Next::Caller(caller) => {
                caller.pc == CODE + 0x30
                    && !caller.is_exact
                    && caller.registers[6] == Some(0x33)
                    && caller.registers[7] == Some(STACK + 16)
            }
            Next::Stops(_) => false,
        },
        Err(_) => false,
    };
    assert!(rt; is);
    Ok(())
}

/// The state behind the guess of a thread that stands at an address, over these words.
fn guess_of(alloc: Global, words: &[u64], pc: u64) -> Result<Option<State>, AllocError> {
    let mappings = map_of(alloc)?;
    let mut part = memory_of(alloc, words)?;
    let Some(stack) = stack_of(alloc, words, 9, pc)? else {
        return Ok(None);
    };
    match read_guess(&mut part, &mappings, Machine::X86_64, &stack) {
        Ok(Some(guess)) => Ok(Some(guess.caller)),
        Ok(None) => Ok(None),
        Err(_) => Ok(None),
    }
}

#[test]
fn a_jump_to_no_code_was_a_call(rt: HostRuntime) -> Result<(), Fail> {
    let guess = guess_of(rt.alloc(), &[CODE + 0x30, 0], 0)?;
    let is = match guess {
        Some(caller) => {
            caller.pc == CODE + 0x30 && !caller.is_exact && caller.registers[7] == Some(STACK + 8)
        }
        None => false,
    };
    assert!(rt; is);
    Ok(())
}

#[test]
fn what_returns_to_no_code_is_no_guess(rt: HostRuntime) -> Result<(), Fail> {
    assert!(rt; guess_of(rt.alloc(), &[7, 0], 0)?.is_none());
    assert!(rt; guess_of(rt.alloc(), &[CODE + 0x30, 0], CODE + 0x12)?.is_none());
    Ok(())
}

#[test]
fn a_status_record_tells_the_registers(rt: HostRuntime) {
    let mut status = [0; 336];
    status[208] = 9;
    status[240] = 5;
    status[264] = 7;
    let is = match thread_state(Machine::X86_64, &status) {
        Some(state) => {
            state.pc == 5
                && state.is_exact
                && state.registers[1] == Some(9)
                && state.registers[7] == Some(7)
                && state.registers[17].is_none()
        }
        None => false,
    };
    assert!(rt; is);
}

#[test]
fn a_short_record_tells_nothing(rt: HostRuntime) {
    assert!(rt; thread_state(Machine::Aarch64, &[0; 375]).is_none());
    assert!(rt; thread_state(Machine::Aarch64, &[0; 376]).is_some());
}

/// A thread below the file's code that keeps a frame pointer, over these words, and its guess.
fn based_guess(alloc: Global, words: &[u64], base: u64) -> Result<Option<State>, AllocError> {
    let mappings = map_of(alloc)?;
    let mut part = memory_of(alloc, words)?;
    let mut first = thread_at(CODE + 0x12);
    first.registers[6] = Some(base);
    let stack = match read_stack(alloc, &mut part, &mappings, &PLAIN, 9, &first) {
        Ok(stack) => stack,
        Err(_) => return Ok(None),
    };
    match read_guess(&mut part, &mappings, Machine::X86_64, &stack) {
        Ok(Some(guess)) => Ok(Some(guess.caller)),
        Ok(None) => Ok(None),
        Err(_) => Ok(None),
    }
}

#[test]
fn a_frame_pointer_leads_to_the_caller(rt: HostRuntime) -> Result<(), Fail> {
    let words = [0, 0x33, CODE + 0x30, 0];
    let is = match based_guess(rt.alloc(), &words, STACK + 8)? {
        Some(caller) => {
            caller.pc == CODE + 0x30
                && caller.registers[6] == Some(0x33)
                && caller.registers[7] == Some(STACK + 24)
        }
        None => false,
    };
    assert!(rt; is);
    // one below the stack pointer, and one that is no multiple of 8
    assert!(rt; based_guess(rt.alloc(), &words, STACK - 8)?.is_none());
    assert!(rt; based_guess(rt.alloc(), &words, STACK + 4)?.is_none());
    Ok(())
}
