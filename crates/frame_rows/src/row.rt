//! A row: where the CFA is, and each register of the caller's.
ghost use Rattle.std.specs.Prelude.{◌≡◌};
ghost use Rattle.frame_rows.specs.Rows.{registers_of, empty_row, with_rule, with_cfa, rule_at, changed};
ghost use Rattle.frame_rows.specs.Rows.{with_offset, start_of};

use crate::instruction::Change;
use crate::number::Flaw;
use crate::program::Frame;

/// How many registers a row has room for.
const REGISTERS: usize = 32;

/// The most bytes of an expression.
const LONGEST_EXPRESSION: u64 = 256;

/// The machine that a file is for.
#[derive(Clone, Copy, Debug, PartialEq, Eq)]
pub enum Machine {
    X86_64,
    Aarch64,
}

/// Where a register of the caller's is.
#[derive(Clone, Copy, Debug, PartialEq, Eq)]
pub enum Rule {
    /// Nowhere.
    Undefined,
    /// In memory at the CFA and so much more, modulo 2^64.
    Saved(u64),
    /// Its value is the CFA and so much more, modulo 2^64.
    Value(u64),
    /// Where it was.
    Same,
    /// In another register.
    Register(u64),
    /// In memory where an expression says: the bytes from `start` up to `end` of the initial instructions and
    /// the entry's, one behind the other.
    Expression { start: usize, end: usize },
    /// Its value is what an expression says.
    ValueExpression { start: usize, end: usize },
}

/// Where the canonical frame address is.
#[derive(Clone, Copy, Debug, PartialEq, Eq)]
pub enum Cfa {
    /// In a register and so much more, modulo 2^64.
    Based { register: u64, offset: u64 },
    /// Where an expression says.
    Said { start: usize, end: usize },
}

/// A row.
#[derive(Clone, Copy, Debug, PartialEq, Eq)]
pub struct Row {
    /// Where the CFA is, once it is said.
    pub cfa: Option<Cfa>,
    /// The rule of each register, by its number, if it has one. Those past the machine's have none.
    pub rules: [Option<Rule>; REGISTERS],
    /// Whether the return address is signed, as it may be on aarch64.
    pub signed: bool,
}

impl Machine {
    /// How many registers are followed: on x86-64 0 to 16, of which 16 is the return address, on aarch64 0 to 31, of
    /// which 31 is the stack pointer. Others are decoded and dropped.
    pub fn registers(self) -> u64
        ensures { result ≡ registers_of self }
    {
        match self {
            Machine::X86_64 => 17,
            Machine::Aarch64 => 32,
        }
    }
}

impl Row {
    /// The row with no rule.
    pub fn new() -> Row
        ensures { result ≡ empty_row }
    {
        Row {
            cfa: None,
            rules: [None; REGISTERS],
            signed: false,
        }
    }

    /// The rule of a register.
    fn rule(&self, register: u64) -> Option<Rule>
        ensures { result ≡ rule_at self.now register }
    {
        if register < REGISTERS as u64 {
            self.rules[register as usize]
        } else {
            None
        }
    }

    /// The row with a register's rule changed, if the machine has the register.
    fn with_rule(self, machine: Machine, register: u64, rule: Option<Rule>) -> Row
        ensures { result ≡ with_rule machine self register rule }
    {
        let mut row = self;
        if register < machine.registers() {
            row.rules[register as usize] = rule;
        }
        row
    }

    /// The row behind a change by an instruction that ends at `end`.
    pub(crate) fn changed(self, change: Change, frame: &Frame, end: usize) -> Result<Row, Flaw>
        ensures { result ≡ changed frame.now end change self }
    {
        let (machine, scale) = (frame.machine, frame.scale);
        match change {
            Change::Nop => Ok(self),
            Change::Offset { register, factor } => {
                let rule = Rule::Saved(factor.wrapping_mul(scale));
                Ok(self.with_rule(machine, register, Some(rule)))
            }
            Change::ValueOffset { register, factor } => {
                let rule = Rule::Value(factor.wrapping_mul(scale));
                Ok(self.with_rule(machine, register, Some(rule)))
            }
            Change::SameValue(register) => {
                Ok(self.with_rule(machine, register, Some(Rule::Same)))
            }
            Change::Restore(register) => {
                Ok(self.with_rule(machine, register, frame.first.rule(register)))
            }
            Change::Undefined(register) => {
                Ok(self.with_rule(machine, register, Some(Rule::Undefined)))
            }
            Change::Register { register, other } => {
                Ok(self.with_rule(machine, register, Some(Rule::Register(other))))
            }
            Change::Expression { register, size } => {
                let start = start_of(size, end)?;
                Ok(self.with_rule(machine, register, Some(Rule::Expression { start, end })))
            }
            Change::ValueExpression { register, size } => {
                let start = start_of(size, end)?;
                let rule = Rule::ValueExpression { start, end };
                Ok(self.with_rule(machine, register, Some(rule)))
            }
            Change::DefineCfa { register, offset } => Ok(self.with_cfa(register, offset)),
            Change::DefineCfaScaled { register, factor } => {
                Ok(self.with_cfa(register, factor.wrapping_mul(scale)))
            }
            Change::CfaExpression(size) => {
                let start = start_of(size, end)?;
                Ok(Row {
                    cfa: Some(Cfa::Said { start, end }),
                    ..self
                })
            }
            Change::CfaRegister(register) => match self.cfa {
                Some(Cfa::Based { offset, .. }) => Ok(self.with_cfa(register, offset)),
                _ => Err(Flaw::NoCfa),
            },
            Change::CfaOffset(offset) => self.with_offset(offset),
            Change::CfaOffsetScaled(factor) => self.with_offset(factor.wrapping_mul(scale)),
            Change::NegateSigned => match machine {
                Machine::X86_64 => Err(Flaw::OtherMachine),
                Machine::Aarch64 => Ok(Row {
                    signed: !self.signed,
                    ..self
                }),
            },
        }
    }

    fn with_cfa(self, register: u64, offset: u64) -> Row
        ensures { result ≡ with_cfa self register offset }
    {
        Row {
            cfa: Some(Cfa::Based { register, offset }),
            ..self
        }
    }

    /// The row with the CFA's offset changed.
    fn with_offset(self, offset: u64) -> Result<Row, Flaw>
        ensures { result ≡ with_offset self offset }
    {
        match self.cfa {
            Some(Cfa::Based { register, .. }) => Ok(self.with_cfa(register, offset)),
            _ => Err(Flaw::NoCfa),
        }
    }
}

/// Where an expression of so many bytes starts that ends at `end`.
fn start_of(size: u64, end: usize) -> Result<usize, Flaw>
    ensures { result ≡ start_of size end }
{
    if size > LONGEST_EXPRESSION {
        return Err(Flaw::LongExpression);
    }
    Ok(end.saturating_sub(size as usize))
}
