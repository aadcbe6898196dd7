//! The instructions of a program of call frame information, one by one.
ghost use Rattle.std.specs.Prelude.{◌≡◌, ◌≤◌, length, IfOk};
ghost use Rattle.frame_rows.specs.Instructions.{form_of, operands, operands_in, fixed_operand, one_operand};
ghost use Rattle.frame_rows.specs.Instructions.{two_operands};
ghost use Rattle.frame_rows.specs.Instructions.{signed_operand, signed_operands, sized_operands, block_operands};
ghost use Rattle.frame_rows.specs.Instructions.{meaning_of, instruction_in};
ghost use Rattle.frame_rows.specs.Numbers.{HasRoom};

use crate::number::{Flaw, fixed, signed, unsigned};

/// What an instruction does to the row.
#[derive(Clone, Copy, Debug, PartialEq, Eq)]
pub enum Change {
    /// Nothing.
    Nop,
    /// The register is saved at the CFA and so many times the data alignment, as a word.
    Offset { register: u64, factor: u64 },
    /// The register's value is the CFA and so many times the data alignment, as a word.
    ValueOffset { register: u64, factor: u64 },
    /// The register is as it was.
    SameValue(u64),
    /// The register has the rule that it had behind the initial instructions.
    Restore(u64),
    /// The register is lost.
    Undefined(u64),
    /// The register is in another.
    Register { register: u64, other: u64 },
    /// The register is saved where an expression says, which is the last so many bytes of the instruction.
    Expression { register: u64, size: u64 },
    /// The register's value is what an expression says, which is the last so many bytes of the instruction.
    ValueExpression { register: u64, size: u64 },
    /// The CFA is a register and an offset.
    DefineCfa { register: u64, offset: u64 },
    /// The CFA is a register and so many times the data alignment, as a word.
    DefineCfaScaled { register: u64, factor: u64 },
    /// The CFA is what an expression says, which is the last so many bytes of the instruction.
    CfaExpression(u64),
    /// The CFA's register changes.
    CfaRegister(u64),
    /// The CFA's offset changes.
    CfaOffset(u64),
    /// The CFA's offset becomes so many times the data alignment, as a word.
    CfaOffsetScaled(u64),
    /// The return address is signed, where it was not, and not where it was.
    NegateSigned,
}

/// An instruction.
#[derive(Clone, Copy, Debug, PartialEq, Eq)]
pub enum Instruction {
    /// The location moves on by so many times the code alignment.
    Advance(u64),
    /// The row is remembered.
    Remember,
    /// The row remembered last comes back, and is remembered no more.
    Recall,
    /// The row changes.
    Change(Change),
}

/// What stands behind an opcode.
#[derive(Clone, Copy)]
pub(crate) enum Form {
    /// Nothing.
    Plain,
    /// A number of one byte.
    OneByte,
    /// A number of two bytes.
    TwoBytes,
    /// A number of four bytes.
    FourBytes,
    /// A ULEB128 number.
    One,
    /// A SLEB128 number.
    Signed,
    /// Two ULEB128 numbers.
    Two,
    /// A ULEB128 number, and a SLEB128 number.
    OneSigned,
    /// A ULEB128 number that says how many bytes there are behind it.
    Sized,
    /// A ULEB128 number, and another that says how many bytes there are behind it.
    Block,
}

/// The operands of an instruction, and how many bytes they have.
#[derive(Clone, Copy)]
pub(crate) struct Operands {
    pub(crate) first: u64,
    /// As a word, in two's complement.
    pub(crate) second: u64,
    pub(crate) size: usize,
}

/// An instruction and how many bytes it has.
#[derive(Clone, Copy)]
pub(crate) struct Read {
    pub(crate) instruction: Instruction,
    pub(crate) size: usize,
}

/// What stands behind an opcode, if there is such an instruction.
fn form_of(opcode: u8) -> Option<Form>
    ensures { result ≡ form_of opcode }
{
    match opcode {
        0xc0..=0xff => Some(Form::Plain),
        0x80..=0xbf => Some(Form::One),
        0x40..=0x7f => Some(Form::Plain),
        0x00 | 0x0a | 0x0b | 0x2d => Some(Form::Plain),
        0x02 => Some(Form::OneByte),
        0x03 => Some(Form::TwoBytes),
        0x04 => Some(Form::FourBytes),
        0x06 | 0x07 | 0x08 | 0x0d | 0x0e | 0x2e => Some(Form::One),
        0x05 | 0x09 | 0x0c | 0x14 => Some(Form::Two),
        0x13 => Some(Form::Signed),
        0x0f => Some(Form::Sized),
        0x10 | 0x16 => Some(Form::Block),
        0x11 | 0x12 | 0x15 => Some(Form::OneSigned),
        _ => None,
    }
}

/// What an opcode means with its operands.
fn meaning_of(opcode: u8, operands: &Operands) -> Instruction
    ensures { result ≡ meaning_of opcode operands.now }
{
    match opcode {
        0xc0..=0xff => Instruction::Change(Change::Restore(u64::from(opcode - 0xc0))),
        0x80..=0xbf => Instruction::Change(Change::Offset {
            register: u64::from(opcode - 0x80),
            factor: operands.first,
        }),
        0x40..=0x7f => Instruction::Advance(u64::from(opcode - 0x40)),
        0x02..=0x04 => Instruction::Advance(operands.first),
        0x05 => Instruction::Change(Change::Offset {
            register: operands.first,
            factor: operands.second,
        }),
        0x06 => Instruction::Change(Change::Restore(operands.first)),
        0x07 => Instruction::Change(Change::Undefined(operands.first)),
        0x08 => Instruction::Change(Change::SameValue(operands.first)),
        0x09 => Instruction::Change(Change::Register {
            register: operands.first,
            other: operands.second,
        }),
        0x0a => Instruction::Remember,
        0x0b => Instruction::Recall,
        0x0c => Instruction::Change(Change::DefineCfa {
            register: operands.first,
            offset: operands.second,
        }),
        0x0d => Instruction::Change(Change::CfaRegister(operands.first)),
        0x0e => Instruction::Change(Change::CfaOffset(operands.first)),
        0x0f => Instruction::Change(Change::CfaExpression(operands.first)),
        0x10 => Instruction::Change(Change::Expression {
            register: operands.first,
            size: operands.second,
        }),
        0x11 => Instruction::Change(Change::Offset {
            register: operands.first,
            factor: operands.second,
        }),
        0x12 => Instruction::Change(Change::DefineCfaScaled {
            register: operands.first,
            factor: operands.second,
        }),
        0x13 => Instruction::Change(Change::CfaOffsetScaled(operands.first)),
        0x14 | 0x15 => Instruction::Change(Change::ValueOffset {
            register: operands.first,
            factor: operands.second,
        }),
        0x16 => Instruction::Change(Change::ValueExpression {
            register: operands.first,
            size: operands.second,
        }),
        0x2d => Instruction::Change(Change::NegateSigned),
        _ => Instruction::Change(Change::Nop),
    }
}

/// The operands that the bytes behind an opcode begin with.
fn operands_in(form: Form, rest: &[u8]) -> Result<Operands, Flaw>
    ensures value { result ≡ operands_in form rest.now }
    ensures whole { IfOk result (λ o. o.size ≤ length rest.now) }
{
    match form {
        Form::Plain => Ok(Operands::new(0, 0, 0)),
        Form::OneByte => fixed_operand(1, rest),
        Form::TwoBytes => fixed_operand(2, rest),
        Form::FourBytes => fixed_operand(4, rest),
        Form::One => one_operand(rest),
        Form::Signed => signed_operand(rest),
        Form::Two => two_operands(rest),
        Form::OneSigned => signed_operands(rest),
        Form::Sized => sized_operands(rest),
        Form::Block => block_operands(rest),
    }
}

/// A number of so many bytes.
fn fixed_operand(size: u32, rest: &[u8]) -> Result<Operands, Flaw>
    requires { size ≤ 4 }
    ensures value { result ≡ fixed_operand size rest.now }
    ensures whole { IfOk result (λ o. o.size ≤ length rest.now) }
{
    let number = fixed(size, rest)?;
    Ok(Operands::new(number.value, 0, number.size))
}

/// A number.
fn one_operand(rest: &[u8]) -> Result<Operands, Flaw>
    ensures value { result ≡ one_operand rest.now }
    ensures whole { IfOk result (λ o. o.size ≤ length rest.now) }
{
    let first = unsigned(rest)?;
    Ok(Operands::new(first.value, 0, first.size))
}

/// A number with a sign.
fn signed_operand(rest: &[u8]) -> Result<Operands, Flaw>
    ensures value { result ≡ signed_operand rest.now }
    ensures whole { IfOk result (λ o. o.size ≤ length rest.now) }
{
    let first = signed(rest)?;
    Ok(Operands::new(first.value.cast_unsigned(), 0, first.size))
}

/// Two numbers.
fn two_operands(rest: &[u8]) -> Result<Operands, Flaw>
    ensures value { result ≡ two_operands rest.now }
    ensures whole { IfOk result (λ o. o.size ≤ length rest.now) }
{
    let first = unsigned(rest)?;
    let second = unsigned(&rest[first.size..])?;
    Ok(Operands::new(first.value, second.value, first.size + second.size))
}

/// A number, and one with a sign.
fn signed_operands(rest: &[u8]) -> Result<Operands, Flaw>
    ensures value { result ≡ signed_operands rest.now }
    ensures whole { IfOk result (λ o. o.size ≤ length rest.now) }
{
    let first = unsigned(rest)?;
    let second = signed(&rest[first.size..])?;
    Ok(Operands::new(
        first.value,
        second.value.cast_unsigned(),
        first.size + second.size,
    ))
}

/// A number that says how many bytes there are behind it.
fn sized_operands(rest: &[u8]) -> Result<Operands, Flaw>
    ensures value { result ≡ sized_operands rest.now }
    ensures whole { IfOk result (λ o. o.size ≤ length rest.now) }
{
    let first = unsigned(rest)?;
    if first.value > (rest.len() - first.size) as u64 {
        return Err(Flaw::Cut);
    }
    Ok(Operands::new(first.value, 0, first.size + first.value as usize))
}

/// A number, and another that says how many bytes there are behind it.
fn block_operands(rest: &[u8]) -> Result<Operands, Flaw>
    ensures value { result ≡ block_operands rest.now }
    ensures whole { IfOk result (λ o. o.size ≤ length rest.now) }
{
    let first = unsigned(rest)?;
    let second = unsigned(&rest[first.size..])?;
    let head = first.size + second.size;
    if second.value > (rest.len() - head) as u64 {
        return Err(Flaw::Cut);
    }
    Ok(Operands::new(first.value, second.value, head + second.value as usize))
}

impl Operands {
    fn new(first: u64, second: u64, size: usize) -> Operands
        ensures { result ≡ operands first second size }
    {
        Operands {
            first,
            second,
            size,
        }
    }
}

/// The instruction that the bytes begin with.
pub(crate) fn instruction_in(bytes: &[u8]) -> Result<Read, Flaw>
    ensures value { result ≡ instruction_in bytes.now }
    ensures whole { IfOk result (λ r. HasRoom (length bytes.now) r.size) }
{
    if bytes.is_empty() {
        return Err(Flaw::Cut);
    }
    let Some(form) = form_of(bytes[0]) else {
        return Err(Flaw::Unknown(bytes[0]));
    };
    let operands = operands_in(form, &bytes[1..])?;
    Ok(Read {
        instruction: meaning_of(bytes[0], &operands),
        size: 1 + operands.size,
    })
}
