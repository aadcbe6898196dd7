//! How stacks go on where no table covers the address, over code and memories that are written down here.
use core_unwind::{CodeMap, End, Manner, Mark, NativeStack, State, read_guess, read_stack};
use frame_rows::Machine;
use process_memory::{Part, Piece};
use std::alloc::{AllocError, Global};
use std::test::Fail;

/// The code: in no file.
const CODE: u64 = 0x7000;

/// The stack.
const STACK: u64 = 0x9000;

/// A thread on a machine that stands at the code with such registers.
fn thread_of(machine: Machine, base: u64) -> State {
    let mut registers = [None; 32];
    match machine {
        Machine::X86_64 => registers[7] = Some(STACK),
        Machine::Aarch64 => registers[31] = Some(STACK),
    }
    registers[6] = Some(base);
    State {
        pc: CODE,
        is_exact: false,
        registers,
        least: 0,
        signals: 64,
        bytes: 1000,
    }
}

/// A memory of some code, and of words on the stack.
fn memory_of(alloc: Global, code: &[u8], words: &[u64]) -> Result<Part, AllocError> {
    let mut bytes = Vec::new(alloc);
    for word in words {
        bytes.extend_from_slice(&word.to_le_bytes())?;
    }
    let mut own = Vec::new(alloc);
    own.extend_from_slice(code)?;
    let mut pieces = Vec::new(alloc);
    pieces.push(Piece {
        start: CODE,
        bytes: own,
    })?;
    pieces.push(Piece {
        start: STACK,
        bytes,
    })?;
    Ok(Part::of(alloc, pieces))
}

/// The stack of such a thread: no file is mapped.
fn stack_of(
    alloc: Global,
    machine: Machine,
    code: &[u8],
    words: &[u64],
    base: u64,
) -> Result<Option<NativeStack>, AllocError> {
    let mappings = CodeMap::of(alloc, Vec::new(alloc))?;
    let mut part = memory_of(alloc, code, words)?;
    let manner = Manner {
        machine,
        code_bits: u64::MAX,
        guesses: false,
    };
    let first = thread_of(machine, base);
    match read_stack(alloc, &mut part, &mappings, &manner, 9, &first) {
        Ok(stack) => Ok(Some(stack)),
        Err(_) => Ok(None),
    }
}

/// The mark of the newest frame, its CFA, and where its caller stands.
fn told(stack: &Option<NativeStack>) -> Option<(Option<Mark>, Option<u64>, u64)> {
    let stack = stack.as_ref()?;
    let frame = stack.frames.first()?;
    Some((frame.mark, frame.cfa, stack.last.pc))
}

#[test]
fn what_stands_before_a_return_is_followed(rt: HostRuntime) -> Result<(), Fail> {
    // add $8, %rsp; pop %rbp; pop %r12; ret
    let code = [
        0x48, 0x83, 0xc4, 8, 0x5d, 0x41, 0x5c, 0xc3, 0, 0, 0, 0, 0, 0, 0,
    ];
    let stack = stack_of(rt.alloc(), Machine::X86_64, &code, &[1, 2, 3, 0x44, 5], 0)?;
    assert!(rt; told(&stack) == Some((Some(Mark::Epilogue), Some(STACK + 32), 0x44)));
    let is = match &stack {
        Some(stack) => {
            stack.last.registers[6] == Some(2)
                && stack.last.registers[12] == Some(3)
                && stack.last.registers[7] == Some(STACK + 32)
                && stack.end == End::NoFile { at: 0x43 }
        }
        None => false,
    };
    assert!(rt; is);
    Ok(())
}

#[test]
fn leave_takes_the_frame_pointers_stack(rt: HostRuntime) -> Result<(), Fail> {
    let code = [0xc9, 0xc3, 0, 0, 0, 0, 0, 0, 0];
    let stack = stack_of(
        rt.alloc(),
        Machine::X86_64,
        &code,
        &[1, 2, 3, 0x44],
        STACK + 16,
    )?;
    assert!(rt; told(&stack) == Some((Some(Mark::Epilogue), Some(STACK + 32), 0x44)));
    Ok(())
}

#[test]
fn other_instructions_are_no_epilogue(rt: HostRuntime) -> Result<(), Fail> {
    // one that takes from the stack pointer, one without a return, one that returns to 0
    let codes = [
        [0x48, 0x83, 0xc4, 0xf8, 0xc3, 0, 0, 0, 0, 0, 0, 0],
        [0x5d, 0x90, 0xc3, 0, 0, 0, 0, 0, 0, 0, 0, 0],
    ];
    for code in codes {
        let stack = stack_of(rt.alloc(), Machine::X86_64, &code, &[0x33, 0x44], 0)?;
        assert!(rt; told(&stack) == Some((None, None, CODE)));
    }
    let code = [0xc3, 0, 0, 0, 0, 0, 0, 0];
    let stack = stack_of(rt.alloc(), Machine::X86_64, &code, &[0, 0x44], 0)?;
    assert!(rt; told(&stack) == Some((None, None, CODE)));
    let stack = stack_of(rt.alloc(), Machine::Aarch64, &code, &[0x33, 0x44], 0)?;
    assert!(rt; told(&stack) == Some((None, None, CODE)));
    Ok(())
}

/// Words on the stack, each with its number, but for one.
fn numbered(alloc: Global, count: u64, at: u64, word: u64) -> Result<Vec<u64>, AllocError> {
    let mut words = Vec::new(alloc);
    for number in 0..count {
        words.push(if number == at { word } else { number })?;
    }
    Ok(words)
}

#[test]
fn a_handler_returns_to_two_instructions(rt: HostRuntime) -> Result<(), Fail> {
    // mov $15, %rax; syscall
    let code = [0x48, 0xc7, 0xc0, 0x0f, 0, 0, 0, 0x0f, 0x05];
    // the stack pointer of what was interrupted stands at 160, and where it stood at 168
    let words = numbered(rt.alloc(), 25, 20, 0xa000)?;
    let stack = stack_of(rt.alloc(), Machine::X86_64, &code, words.as_slice(), 0)?;
    assert!(rt; told(&stack) == Some((Some(Mark::Trampoline), Some(0xa000), 21)));
    let is = match &stack {
        Some(stack) => {
            stack.last.is_exact
                && stack.last.registers[6] == Some(15)
                && stack.last.registers[8] == Some(5)
        }
        None => false,
    };
    assert!(rt; is);
    Ok(())
}

#[test]
fn on_aarch64_too(rt: HostRuntime) -> Result<(), Fail> {
    // mov x8, #139; svc #0
    let code = [0x68, 0x11, 0x80, 0xd2, 0x01, 0, 0, 0xd4];
    // x0 stands at 312, the stack pointer at 560, and where it stood at 568
    let words = numbered(rt.alloc(), 75, 70, 0xa000)?;
    let stack = stack_of(rt.alloc(), Machine::Aarch64, &code, words.as_slice(), 0)?;
    assert!(rt; told(&stack) == Some((Some(Mark::Trampoline), Some(0xa000), 71)));
    let is = match &stack {
        Some(stack) => stack.last.registers[30] == Some(69),
        None => false,
    };
    assert!(rt; is);
    Ok(())
}

#[test]
fn a_frame_pointer_is_a_guess_alone(rt: HostRuntime) -> Result<(), Fail> {
    // the return address is in no code of a file: no guess
    let words = [0, 0, STACK + 32, 0x44, 0, 0];
    let stack = stack_of(rt.alloc(), Machine::X86_64, &[0x90; 16], &words, STACK + 16)?;
    assert!(rt; told(&stack) == Some((None, None, CODE)));
    let Some(stack) = stack else {
        return Ok(());
    };
    let mappings = CodeMap::of(rt.alloc(), Vec::new(rt.alloc()))?;
    let mut part = memory_of(rt.alloc(), &[0x90; 16], &words)?;
    let guess = read_guess(&mut part, &mappings, Machine::X86_64, &stack);
    assert!(rt; guess == Ok(None));
    Ok(())
}
