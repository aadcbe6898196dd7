//! What follows a frame, by the rules there.
ghost use Rattle.std.specs.Prelude.{◌≡◌, IfOk, length};
ghost use Rattle.process_memory.specs.Seen.{Reading};
ghost use Rattle.frame_tables.specs.Records.{Fits};
ghost use Rattle.core_unwind.specs.Turns.{address_of, caller_of, frame_of, instruction_bytes, is_above, is_first};
ghost use Rattle.core_unwind.specs.Turns.{next_in};
ghost use Rattle.core_unwind.specs.Turns.{next_of, return_rule, stopped, turn_of, unknown_return};

use crate::end::{End, Refusal, UnwindError};
use crate::frame::{Frame, Next, Turn};
use crate::kept::register_in;
use crate::place::CodePlace;
use crate::state::State;
use crate::value::{Rules, read_cfa, read_registers, rule_of};
use frame_rows::{Row, Rule};
use frame_tables::Entry;
use process_memory::ProcessMemory;

/// A frame of which no table speaks, at which the stack ends.
pub(crate) fn stopped(state: &State, place: Option<CodePlace>, end: End) -> Turn
    ensures { result ≡ stopped state.now place end }
{
    let frame = Frame {
        pc: state.pc,
        is_exact: state.is_exact,
        place,
        cfa: None,
        is_signal: false,
        mark: None,
    };
    Turn {
        frame,
        next: Next::Stops(end),
    }
}

/// The rule of the return address.
fn return_rule(rules: &Rules<'_>) -> Option<Rule>
    ensures { result ≡ return_rule rules.now }
{
    rule_of(&rules.row, rules.entry.return_register)
}

/// Whether there is no caller: the return address is undefined.
fn is_first(rules: &Rules<'_>) -> bool
    ensures { result ≡ is_first rules.now }
{
    match return_rule(rules) {
        Some(Rule::Undefined) => true,
        _ => false,
    }
}

/// The end where the return address is not known.
fn unknown_return(rules: &Rules<'_>, cfa: u64) -> End
    ensures { result ≡ unknown_return rules.now cfa }
{
    match return_rule(rules) {
        Some(Rule::Saved(offset)) => End::Unreadable {
            at: cfa.wrapping_add(offset),
        },
        _ => End::Refused(Refusal::ReturnAddress),
    }
}

/// A return address without the bits of its signature.
fn address_of(row: &Row, code_bits: u64, word: u64) -> u64
    ensures { result ≡ address_of row.now code_bits word }
{
    if row.signed { word & code_bits } else { word }
}

/// Whether a CFA is above that of the frame before. That of a signal's frame needs not be: it may be on another stack.
fn is_above(state: &State, rules: &Rules<'_>, cfa: u64) -> bool
    ensures { result ≡ is_above state.now rules.now cfa }
{
    rules.entry.is_signal || u128::from(cfa) >= state.least
}

/// How many bytes of instructions an entry has.
pub(crate) fn instruction_bytes(entry: &Entry) -> u128
    ensures { result ≡ instruction_bytes entry.now }
{
    let initial = entry.initial.end.saturating_sub(entry.initial.start);
    let own = entry.own.end.saturating_sub(entry.own.start);
    initial as u128 + own as u128
}

/// The caller's state. What a signal interrupted is exact, and may have the same CFA again.
fn caller_of(
    state: &State,
    rules: &Rules<'_>,
    cfa: u64,
    pc: u64,
    registers: [Option<u64>; 32],
) -> State
    ensures { result ≡ caller_of state.now rules.now cfa pc registers }
{
    let is_signal = rules.entry.is_signal;
    let bytes = state.bytes.saturating_sub(instruction_bytes(&rules.entry));
    let (least, signals) = if is_signal {
        (u128::from(cfa), state.signals.saturating_sub(1))
    } else {
        (u128::from(cfa) + 1, state.signals)
    };
    State {
        pc,
        is_exact: is_signal,
        registers,
        least,
        signals,
        bytes,
    }
}

/// What follows a frame whose caller had these registers.
fn next_of(
    code_bits: u64,
    state: &State,
    rules: &Rules<'_>,
    cfa: u64,
    registers: [Option<u64>; 32],
) -> Next
    ensures { result ≡ next_of code_bits state.now rules.now cfa registers }
{
    match register_in(&registers, rules.entry.return_register) {
        Some(word) => {
            let pc = address_of(&rules.row, code_bits, word);
            if pc == 0 && !rules.entry.is_signal {
                Next::Stops(End::Whole)
            } else {
                Next::Caller(caller_of(state, rules, cfa, pc, registers))
            }
        }
        None => Next::Stops(unknown_return(rules, cfa)),
    }
}

/// A frame of which a row speaks.
fn frame_of(state: &State, place: CodePlace, rules: &Rules<'_>, cfa: Option<u64>) -> Frame
    ensures { result ≡ frame_of state.now place rules.now cfa }
{
    Frame {
        pc: state.pc,
        is_exact: state.is_exact,
        place: Some(place),
        cfa,
        is_signal: rules.entry.is_signal,
        mark: None,
    }
}

/// What follows a frame, by the rules there. At most 8224 reads.
fn read_next<P: ProcessMemory>(
    process: &mut P,
    code_bits: u64,
    state: &State,
    rules: &Rules<'_>,
    cfa: Option<u64>,
) -> Result<Next, UnwindError>
    requires fits { Fits (length rules.now.table) rules.now.entry }
    ensures { Reading 8224 (P.seen process.old) (P.seen process.new)
        (λ m. IfOk result (λ next. next ≡ next_in code_bits state.now rules.now m cfa)) }
{
    if is_first(rules) {
        return Ok(Next::Stops(End::Whole));
    }
    let Some(cfa) = cfa else {
        return Ok(Next::Stops(End::Refused(Refusal::Cfa)));
    };
    if !is_above(state, rules, cfa) {
        return Ok(Next::Stops(End::NotAbove));
    }
    let registers = read_registers(process, &state.registers, rules, cfa)?;
    Ok(next_of(code_bits, state, rules, cfa, registers))
}

/// A frame, and what follows it, by the rules there. At most 8480 reads.
pub(crate) fn read_turn<P: ProcessMemory>(
    process: &mut P,
    code_bits: u64,
    state: &State,
    place: CodePlace,
    rules: &Rules<'_>,
) -> Result<Turn, UnwindError>
    requires fits { Fits (length rules.now.table) rules.now.entry }
    ensures { Reading 8480 (P.seen process.old) (P.seen process.new)
        (λ m. IfOk result (λ turn. turn ≡ turn_of code_bits state.now place rules.now m)) }
{
    let cfa = read_cfa(process, &state.registers, rules)?;
    let frame = frame_of(state, place, rules, cfa);
    let next = read_next(process, code_bits, state, rules, cfa)?;
    Ok(Turn { frame, next })
}
