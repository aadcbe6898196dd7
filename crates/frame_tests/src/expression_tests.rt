//! Operations of expressions by DWARF 5, section 2.5.1 and table 7.9.
use frame_expressions::{Combination, Operation, operation_in};
use frame_rows::Flaw;

/// The word of a number that is so much below 0.
const MINUS_2: u64 = 0xffff_ffff_ffff_fffe;

/// Operations and their bytes.
const OPERATIONS: [(&[u8], Operation); 22] = [
    (&[0x06], Operation::Load(8)),
    (&[0x94, 4], Operation::Load(4)),
    (&[0x08, 0xfe], Operation::Push(0xfe)),
    (&[0x09, 0xfe], Operation::Push(MINUS_2)),
    (&[0x0a, 0xfe, 0xff], Operation::Push(0xfffe)),
    (&[0x0b, 0xfe, 0xff], Operation::Push(MINUS_2)),
    (
        &[0x0c, 0xfe, 0xff, 0xff, 0xff],
        Operation::Push(0xffff_fffe),
    ),
    (&[0x0d, 0xfe, 0xff, 0xff, 0xff], Operation::Push(MINUS_2)),
    (
        &[0x0d, 0xfe, 0xff, 0xff, 0x7f],
        Operation::Push(0x7fff_fffe),
    ),
    (
        &[0x0e, 1, 2, 3, 4, 5, 6, 7, 8],
        Operation::Push(0x0807_0605_0403_0201),
    ),
    (&[0x10, 0x80, 1], Operation::Push(128)),
    (&[0x11, 0x7e], Operation::Push(MINUS_2)),
    (&[0x12], Operation::Duplicate),
    (&[0x13], Operation::Drop),
    (&[0x14], Operation::Over),
    (&[0x16], Operation::Swap),
    (&[0x23, 8], Operation::PlusConstant(8)),
    (&[0x4f], Operation::Push(31)),
    (
        &[0x77, 8],
        Operation::Register {
            register: 7,
            offset: 8,
        },
    ),
    (
        &[0x76, 0x7e],
        Operation::Register {
            register: 6,
            offset: MINUS_2,
        },
    ),
    (&[0x2d], Operation::Combine(Combination::Less)),
    (&[0x96], Operation::Nop),
];

#[test]
fn operations_are_those_of_the_standard(rt: HostRuntime) {
    for (bytes, operation) in OPERATIONS {
        let is_right = match operation_in(bytes) {
            Ok(read) => read.operation == operation && read.size == bytes.len(),
            Err(_) => false,
        };
        assert!(rt; is_right, "{bytes:?}");
    }
}

/// What is refused, and why: among them the jumps `bra` and `skip`.
const REFUSED: [(&[u8], Flaw); 6] = [
    (&[], Flaw::Cut),
    (&[0x0c, 1, 2, 3], Flaw::Cut),
    (&[0x77, 0x80], Flaw::Cut),
    (&[0x28, 0, 0], Flaw::Unknown(0x28)),
    (&[0x2f, 0, 0], Flaw::Unknown(0x2f)),
    (
        &[0x10, 128, 128, 128, 128, 128, 128, 128, 128, 128, 1],
        Flaw::LongNumber,
    ),
];

#[test]
fn other_operations_are_refused(rt: HostRuntime) {
    for (bytes, flaw) in REFUSED {
        let is_refused = match operation_in(bytes) {
            Ok(_) => false,
            Err(error) => error == flaw,
        };
        assert!(rt; is_refused, "{bytes:?}");
    }
}

/// The opcode of each combination, the word below the top and the top, and what they come to.
const COMBINED: [(u8, u64, u64, u64); 17] = [
    (0x1a, 12, 10, 8),
    (0x1c, 1, 3, MINUS_2),
    (0x1e, MINUS_2, 3, 0xffff_ffff_ffff_fffa),
    (0x21, 12, 10, 14),
    (0x22, MINUS_2, 3, 1),
    (0x24, 3, 4, 48),
    (0x24, 3, 64, 0),
    (0x25, MINUS_2, 60, 15),
    (0x27, 12, 10, 6),
    (0x29, 5, 5, 1),
    (0x2a, 5, 5, 1),
    (0x2a, MINUS_2, 1, 0),
    (0x2b, 5, 5, 0),
    (0x2c, MINUS_2, 1, 1),
    (0x2d, MINUS_2, 1, 1),
    (0x2d, 5, 5, 0),
    (0x2e, 5, 6, 1),
];

#[test]
fn two_words_become_one(rt: HostRuntime) {
    for (opcode, below, top, wanted) in COMBINED {
        let word = match operation_in(&[opcode]) {
            Ok(read) => combined(read.operation, below, top),
            Err(_) => None,
        };
        assert!(rt; word == Some(wanted), "{opcode}");
    }
}

/// What an operation on two words makes of them.
fn combined(operation: Operation, below: u64, top: u64) -> Option<u64> {
    match operation {
        Operation::Combine(combination) => Some(combination.of(below, top)),
        _ => None,
    }
}
