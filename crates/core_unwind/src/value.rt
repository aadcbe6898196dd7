//! What the rules of a row come to.
ghost use Rattle.std.specs.Prelude.{◌≡◌, IfOk, length};
ghost use Rattle.process_memory.specs.Seen.{Reading};
ghost use Rattle.frame_tables.specs.Records.{Fits};
ghost use Rattle.core_unwind.specs.Values.{cfa_of, expressed, listed, moved_by, rule_of, saved_at, value_of};

use crate::end::UnwindError;
use crate::expression::evaluate;
use crate::kept::{kept, register_in};
use crate::read::read_word;
use frame_rows::{Cfa, Row, Rule};
use frame_tables::{Entry, Table};
use process_memory::ProcessMemory;

/// What a file says at an address: its table, the entry that covers the address, and the row there.
#[derive(Drop)]
pub(crate) struct Rules<'a> {
    pub(crate) table: Table<'a>,
    pub(crate) entry: Entry,
    pub(crate) row: Row,
}

/// What an expression of a row comes to. At most 256 reads.
fn read_expression<P: ProcessMemory>(
    process: &mut P,
    registers: &[Option<u64>; 32],
    rules: &Rules<'_>,
    first: Option<u64>,
    start: usize,
    end: usize,
) -> Result<Option<u64>, UnwindError>
    requires fits { Fits (length rules.now.table) rules.now.entry }
    ensures { Reading 256 (P.seen process.old) (P.seen process.new)
        (λ m. IfOk result (λ value. value ≡ expressed rules.now registers.now m first start end)) }
{
    match rules.table.expression(&rules.entry, start, end) {
        Some(bytes) => evaluate(process, registers, first, bytes),
        None => Ok(None),
    }
}

/// A word and so much more, where it is known.
fn moved_by(word: Option<u64>, offset: u64) -> Option<u64>
    ensures { result ≡ moved_by offset word }
{
    match word {
        Some(word) => Some(word.wrapping_add(offset)),
        None => None,
    }
}

/// The rule of a register.
pub(crate) fn rule_of(row: &Row, register: u64) -> Option<Rule>
    ensures { result ≡ rule_of row.now register }
{
    if register < 32 {
        row.rules[register as usize]
    } else {
        None
    }
}

/// The rule of the CFA.
fn cfa_rule(rules: &Rules<'_>) -> Option<Cfa>
    ensures { result ≡ rules.now.row.cfa }
{
    rules.row.cfa
}

/// The CFA, where it is known. At most 256 reads.
pub(crate) fn read_cfa<P: ProcessMemory>(
    process: &mut P,
    registers: &[Option<u64>; 32],
    rules: &Rules<'_>,
) -> Result<Option<u64>, UnwindError>
    requires fits { Fits (length rules.now.table) rules.now.entry }
    ensures { Reading 256 (P.seen process.old) (P.seen process.new)
        (λ m. IfOk result (λ cfa. cfa ≡ cfa_of rules.now registers.now m)) }
{
    match cfa_rule(rules) {
        Some(Cfa::Based { register, offset }) => {
            let word = register_in(registers, register);
            Ok(moved_by(word, offset))
        }
        Some(Cfa::Said { start, end }) => {
            read_expression(process, registers, rules, None, start, end)
        }
        None => Ok(None),
    }
}

/// What the caller had in a register that is saved where an expression says. At most 257 reads.
fn read_saved<P: ProcessMemory>(
    process: &mut P,
    registers: &[Option<u64>; 32],
    rules: &Rules<'_>,
    cfa: u64,
    start: usize,
    end: usize,
) -> Result<Option<u64>, UnwindError>
    requires fits { Fits (length rules.now.table) rules.now.entry }
    ensures { Reading 257 (P.seen process.old) (P.seen process.new)
        (λ m. IfOk result (λ value. value ≡ saved_at rules.now registers.now m cfa start end)) }
{
    let address = read_expression(process, registers, rules, Some(cfa), start, end)?;
    match address {
        Some(place) => read_word(process, place),
        None => Ok(None),
    }
}

/// What the caller had in a register, where it is known. At most 257 reads.
fn read_value<P: ProcessMemory>(
    process: &mut P,
    registers: &[Option<u64>; 32],
    rules: &Rules<'_>,
    cfa: u64,
    register: u64,
) -> Result<Option<u64>, UnwindError>
    requires fits { Fits (length rules.now.table) rules.now.entry }
    ensures { Reading 257 (P.seen process.old) (P.seen process.new)
        (λ m. IfOk result (λ value. value ≡ value_of rules.now registers.now m cfa register)) }
{
    match rule_of(&rules.row, register) {
        None => {
            let machine = rules.entry.convention.machine;
            Ok(kept(machine, registers, cfa, register))
        }
        Some(Rule::Undefined) => Ok(None),
        Some(Rule::Saved(offset)) => read_word(process, cfa.wrapping_add(offset)),
        Some(Rule::Value(offset)) => {
            let value = moved_by(Some(cfa), offset);
            Ok(value)
        }
        Some(Rule::Same) => {
            let same = register_in(registers, register);
            Ok(same)
        }
        Some(Rule::Register(other)) => {
            let value = register_in(registers, other);
            Ok(value)
        }
        Some(Rule::Expression { start, end }) => {
            read_saved(process, registers, rules, cfa, start, end)
        }
        Some(Rule::ValueExpression { start, end }) => {
            read_expression(process, registers, rules, Some(cfa), start, end)
        }
    }
}

/// What the caller had in each register. At most 257 reads for each.
pub(crate) fn read_registers<P: ProcessMemory>(
    process: &mut P,
    registers: &[Option<u64>; 32],
    rules: &Rules<'_>,
    cfa: u64,
) -> Result<[Option<u64>; 32], UnwindError>
    requires fits { Fits (length rules.now.table) rules.now.entry }
    ensures { Reading 8224 (P.seen process.old) (P.seen process.new)
        (λ m. IfOk result (λ values. values ≡ listed (value_of rules.now registers.now m cfa) 0 32)) }
{
    let mut values = [None; 32];
    for register in 0..32 {
        let value = read_value(process, registers, rules, cfa, register as u64)?;
        values[register] = value;
    }
    Ok(values)
}
