//! Rows by DWARF 5, sections 6.4.2 and 6.4.3: what each instruction does, and each refusal.
use frame_rows::{Cfa, Convention, Flaw, Machine, Row, RowError, Rule, row_at};

/// What the usual initial instructions of x86-64 say: the CFA is register 7 and 8, register 16 is saved 8 below.
const INITIAL: [u8; 5] = [0x0c, 7, 8, 0x90, 1];

const X86_64: Convention = Convention {
    machine: Machine::X86_64,
    code: 1,
    factor: -8,
};

const AARCH64: Convention = Convention {
    machine: Machine::Aarch64,
    code: 4,
    factor: -8,
};

/// The row at an address of an entry that begins at 0, with room for two rows.
fn row_of(convention: &Convention, own: &[u8], address: u64) -> Result<Row, RowError> {
    let mut kept = [Row::new(); 2];
    row_at(convention, &INITIAL, own, 0, address, &mut kept)
}

/// The number that is so much below 0, modulo 2^64.
const BELOW_16: u64 = 0xffff_ffff_ffff_fff0;

/// Instructions, and the CFA and the rule of register 3 behind them.
const BEHIND: [(&[u8], Option<Cfa>, Option<Rule>); 24] = [
    (&[0x00], USUAL, None),
    (&[0x83, 2], USUAL, Some(Rule::Saved(BELOW_16))),
    (&[0x05, 3, 2], USUAL, Some(Rule::Saved(BELOW_16))),
    (&[0x11, 3, 0x7e], USUAL, Some(Rule::Saved(16))),
    (&[0x14, 3, 2], USUAL, Some(Rule::Value(BELOW_16))),
    (&[0x15, 3, 0x7e], USUAL, Some(Rule::Value(16))),
    (&[0x07, 3], USUAL, Some(Rule::Undefined)),
    (&[0x08, 3], USUAL, Some(Rule::Same)),
    (&[0x09, 3, 6], USUAL, Some(Rule::Register(6))),
    (&[0x83, 2, 0xc3], USUAL, None),
    (&[0x83, 2, 0x06, 3], USUAL, None),
    (
        &[0x0c, 6, 16],
        Some(Cfa::Based {
            register: 6,
            offset: 16,
        }),
        None,
    ),
    (
        &[0x12, 6, 0x7e],
        Some(Cfa::Based {
            register: 6,
            offset: 16,
        }),
        None,
    ),
    (
        &[0x0d, 6],
        Some(Cfa::Based {
            register: 6,
            offset: 8,
        }),
        None,
    ),
    (
        &[0x0e, 0x90, 1],
        Some(Cfa::Based {
            register: 7,
            offset: 144,
        }),
        None,
    ),
    (
        &[0x13, 0x7e],
        Some(Cfa::Based {
            register: 7,
            offset: 16,
        }),
        None,
    ),
    (
        &[0x0f, 2, 0x76, 0x78],
        Some(Cfa::Said { start: 7, end: 9 }),
        None,
    ),
    (
        &[0x10, 3, 2, 0x76, 0x78],
        USUAL,
        Some(Rule::Expression { start: 8, end: 10 }),
    ),
    (
        &[0x16, 3, 1, 0x30],
        USUAL,
        Some(Rule::ValueExpression { start: 8, end: 9 }),
    ),
    (&[0x0a, 0x0c, 6, 0, 0x83, 2, 0x0b], USUAL, None),
    (
        &[0x83, 2, 0x0a, 0x07, 3, 0x0a, 0x08, 3, 0x0b, 0x0b],
        USUAL,
        Some(Rule::Saved(BELOW_16)),
    ),
    (&[0x2e, 16], USUAL, None),
    (&[0x07, 17, 0x07, 0x90, 1], USUAL, None),
    (&[], USUAL, None),
];

/// The CFA of the initial instructions.
const USUAL: Option<Cfa> = Some(Cfa::Based {
    register: 7,
    offset: 8,
});

#[test]
fn each_instruction_does_what_the_standard_says(rt: HostRuntime) {
    for (own, cfa, rule) in BEHIND {
        let is_right = match row_of(&X86_64, own, 4) {
            Ok(row) => row.cfa == cfa && row.rules[3] == rule,
            Err(_) => false,
        };
        assert!(rt; is_right, "{own:?}");
    }
}

/// Instructions, the last address at which the CFA is as before them, and the register and offset that come then.
const ADVANCES: [(&[u8], u64); 4] = [
    (&[0x45, 0x0e, 16], 4),
    (&[0x02, 200, 0x0e, 16], 199),
    (&[0x03, 1, 2, 0x0e, 16], 512),
    (&[0x04, 1, 2, 3, 4, 0x0e, 16], 0x0403_0200),
];

/// The offset of the CFA at an address.
fn offset_at(convention: &Convention, own: &[u8], address: u64) -> u64 {
    match row_of(convention, own, address) {
        Ok(row) => match row.cfa {
            Some(Cfa::Based { offset, .. }) => offset,
            _ => 0,
        },
        Err(_) => 0,
    }
}

#[test]
fn a_row_begins_at_its_location(rt: HostRuntime) {
    for (own, last) in ADVANCES {
        let before = offset_at(&X86_64, own, last);
        assert!(rt; before == 8, "{own:?}");
        let behind = offset_at(&X86_64, own, last + 1);
        assert!(rt; behind == 16, "{own:?}");
    }
}

#[test]
fn locations_are_in_code_alignments(rt: HostRuntime) {
    let before = offset_at(&AARCH64, &[0x45, 0x0e, 16], 19);
    assert!(rt; before == 8);
    let behind = offset_at(&AARCH64, &[0x45, 0x0e, 16], 20);
    assert!(rt; behind == 16);
}

/// Whether the return address is signed, on aarch64, and the rule of register 31.
fn signed_by(own: &[u8]) -> Option<(bool, Option<Rule>)> {
    match row_of(&AARCH64, own, 0) {
        Ok(row) => Some((row.signed, row.rules[31])),
        Err(_) => None,
    }
}

#[test]
fn the_return_address_is_signed_or_not(rt: HostRuntime) {
    let once = signed_by(&[0x2d]);
    assert!(rt; once == Some((true, None)));
    let twice = signed_by(&[0x2d, 0x2d, 0x08, 31]);
    assert!(rt; twice == Some((false, Some(Rule::Same))));
    let remembered = signed_by(&[0x0a, 0x2d, 0x0b]);
    assert!(rt; remembered == Some((false, None)));
}

/// Instructions that are refused: where, counted from the initial ones on, and why.
const REFUSED: [(&[u8], usize, Flaw); 13] = [
    (&[0x0e], 5, Flaw::Cut),
    (&[0x0e, 0x80], 5, Flaw::Cut),
    (&[0x00, 0x03, 1], 6, Flaw::Cut),
    (&[0x10, 3, 2, 1], 5, Flaw::Cut),
    (
        &[0x00, 0x0e, 128, 128, 128, 128, 128, 128, 128, 128, 128, 1],
        6,
        Flaw::LongNumber,
    ),
    (&[0x01, 0, 0, 0, 0, 0, 0, 0, 0], 5, Flaw::Unknown(0x01)),
    (&[0x00, 0x2f, 3, 2], 6, Flaw::Unknown(0x2f)),
    (&[0x3f], 5, Flaw::Unknown(0x3f)),
    (&[0x0b], 5, Flaw::NothingRemembered),
    (&[0x0a, 0x0a, 0x0a], 7, Flaw::TooManyRemembered),
    (&[0x0f, 1, 0x30, 0x0e, 16], 8, Flaw::NoCfa),
    (&[0x0f, 1, 0x30, 0x0d, 6], 8, Flaw::NoCfa),
    (&[0x2d], 5, Flaw::OtherMachine),
];

/// Where and why there is no row at address 4.
fn error_of(own: &[u8]) -> Option<RowError> {
    match row_of(&X86_64, own, 4) {
        Ok(_) => None,
        Err(error) => Some(error),
    }
}

#[test]
fn refusals_say_where_and_why(rt: HostRuntime) {
    for (own, at, flaw) in REFUSED {
        let error = error_of(own);
        let wanted = Some(RowError { at, flaw });
        assert!(rt; error == wanted, "{own:?}");
    }
}

#[test]
fn an_expression_has_256_bytes_at_most(rt: HostRuntime) {
    let mut own = [0; 260];
    own[0] = 0x0f;
    own[1] = 0x81;
    own[2] = 2;
    let error = error_of(&own);
    let wanted = Some(RowError {
        at: 5,
        flaw: Flaw::LongExpression,
    });
    assert!(rt; error == wanted);
    own[1] = 0x80;
    let error = error_of(&own);
    assert!(rt; error == None);
}

#[test]
fn what_stands_behind_the_address_has_no_say(rt: HostRuntime) {
    let error = error_of(&[0x45, 0x01]);
    assert!(rt; error == None);
}
