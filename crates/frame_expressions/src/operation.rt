//! The operations of an expression, one by one.
ghost use Rattle.std.specs.Prelude.{◌≡◌, ◌≤◌, ◌<◌, ◌+◌, ◌^◌, ◌++◌, ℕ, List, Ok, IfOk, IfErr, length};
ghost use Rattle.frame_expressions.specs.Operations.{form_of, combination_of, operation_of, operand_in, widened};
ghost use Rattle.frame_expressions.specs.Operations.{operation_in};
ghost use Rattle.frame_expressions.specs.Operations.{Spells, IsFirst, read};
ghost use Rattle.frame_expressions.specs.Meanings.{combined, shifted_left, shifted_right};
ghost use Rattle.frame_expressions.specs.declared.operation.Operation.{Operation as OperationValue};

use frame_rows::{Flaw, Number, fixed, signed, unsigned};

/// What becomes of the two words on top of the stack. The one below the top stands on the left.
#[derive(Clone, Copy, Debug, PartialEq, Eq)]
pub enum Combination {
    /// Their sum, modulo 2^64.
    Plus,
    /// Their difference, modulo 2^64.
    Minus,
    /// Their product, modulo 2^64.
    Multiply,
    And,
    Or,
    Xor,
    /// The left one moved to higher bits by as many as the right one says; 0 for 64 and more.
    ShiftLeft,
    /// The left one moved to lower bits, without its sign.
    ShiftRight,
    /// 1 where they are equal, else 0; so with those behind, as numbers with signs.
    Equal,
    NotEqual,
    AtLeast,
    Greater,
    AtMost,
    Less,
}

/// An operation.
#[derive(Clone, Copy, Debug, PartialEq, Eq)]
pub enum Operation {
    /// A word goes on the stack.
    Push(u64),
    /// What a register has and so much more, modulo 2^64, goes on the stack.
    Register { register: u64, offset: u64 },
    /// The two words on top become one.
    Combine(Combination),
    /// So much is added to the word on top, modulo 2^64.
    PlusConstant(u64),
    /// The word on top becomes what so many bytes of memory have at that address.
    Load(u64),
    /// The word on top goes.
    Drop,
    /// The word on top goes on the stack once more.
    Duplicate,
    /// The word below the top goes on the stack once more.
    Over,
    /// The two words on top change places.
    Swap,
    /// Nothing.
    Nop,
}

/// What stands behind an opcode.
#[derive(Clone, Copy)]
pub(crate) enum Form {
    /// Nothing.
    Plain,
    /// A number of one byte, of two, of four and of eight.
    One,
    Two,
    Four,
    Eight,
    /// The same with a sign.
    OneSigned,
    TwoSigned,
    FourSigned,
    /// A ULEB128 number.
    Unsigned,
    /// A SLEB128 number.
    Signed,
}

/// An operation and how many bytes it has.
#[derive(Clone, Copy, Debug, PartialEq, Eq)]
pub struct Read {
    pub operation: Operation,
    pub size: usize,
}

/// What stands behind an opcode, if there is such an operation.
fn form_of(opcode: u8) -> Option<Form>
    ensures { result ≡ form_of opcode }
{
    match opcode {
        0x30..=0x4f => Some(Form::Plain),
        0x70..=0x8f => Some(Form::Signed),
        0x08 | 0x94 => Some(Form::One),
        0x09 => Some(Form::OneSigned),
        0x0a => Some(Form::Two),
        0x0b => Some(Form::TwoSigned),
        0x0c => Some(Form::Four),
        0x0d => Some(Form::FourSigned),
        0x0e | 0x0f => Some(Form::Eight),
        0x10 | 0x23 => Some(Form::Unsigned),
        0x11 => Some(Form::Signed),
        0x06 | 0x12 | 0x13 | 0x14 | 0x16 | 0x96 => Some(Form::Plain),
        0x1a | 0x1c | 0x1e | 0x21 => Some(Form::Plain),
        0x22 | 0x24 | 0x25 | 0x27 => Some(Form::Plain),
        0x29..=0x2e => Some(Form::Plain),
        _ => None,
    }
}

/// What an opcode on two words means.
fn combination_of(opcode: u8) -> Combination
    ensures { result ≡ combination_of opcode }
{
    match opcode {
        0x1a => Combination::And,
        0x1c => Combination::Minus,
        0x1e => Combination::Multiply,
        0x21 => Combination::Or,
        0x22 => Combination::Plus,
        0x24 => Combination::ShiftLeft,
        0x25 => Combination::ShiftRight,
        0x27 => Combination::Xor,
        0x29 => Combination::Equal,
        0x2a => Combination::AtLeast,
        0x2b => Combination::Greater,
        0x2c => Combination::AtMost,
        0x2d => Combination::Less,
        _ => Combination::NotEqual,
    }
}

/// What an opcode means with its operand.
fn operation_of(opcode: u8, operand: u64) -> Operation
    ensures { result ≡ operation_of opcode operand }
{
    match opcode {
        0x30..=0x4f => Operation::Push(u64::from(opcode - 0x30)),
        0x70..=0x8f => Operation::Register {
            register: u64::from(opcode - 0x70),
            offset: operand,
        },
        0x08..=0x11 => Operation::Push(operand),
        0x06 => Operation::Load(8),
        0x94 => Operation::Load(operand),
        0x12 => Operation::Duplicate,
        0x13 => Operation::Drop,
        0x14 => Operation::Over,
        0x16 => Operation::Swap,
        0x23 => Operation::PlusConstant(operand),
        0x96 => Operation::Nop,
        _ => Operation::Combine(combination_of(opcode)),
    }
}

/// A number below `2 * half` as one with a sign, as a word.
fn widened(half: u64, number: Number) -> Number
    requires half { half ≤ 0x80000000 }
    requires small { number.value < 2 ^ 32 }
    ensures { result ≡ widened half number }
{
    if number.value < half {
        return number;
    }
    Number {
        value: number.value.wrapping_sub(2 * half),
        size: number.size,
    }
}

/// The operand that the bytes behind an opcode begin with, as a word.
#[tactic(auto, unfolding(crate::specs::Operations::operand_in))]
fn operand_in(form: Form, rest: &[u8]) -> Result<Number, Flaw>
    ensures value { result ≡ operand_in form rest.now }
    ensures whole { IfOk result (λ n. n.size ≤ length rest.now) }
{
    match form {
        Form::Plain => Ok(Number { value: 0, size: 0 }),
        Form::One => fixed(1, rest),
        Form::Two => fixed(2, rest),
        Form::Four => fixed(4, rest),
        Form::Eight => fixed(8, rest),
        Form::OneSigned => {
            let number = fixed(1, rest)?;
            Ok(widened(0x80, number))
        }
        Form::TwoSigned => {
            let number = fixed(2, rest)?;
            Ok(widened(0x8000, number))
        }
        Form::FourSigned => {
            let number = fixed(4, rest)?;
            Ok(widened(0x8000_0000, number))
        }
        Form::Unsigned => unsigned(rest),
        Form::Signed => {
            let number = signed(rest)?;
            Ok(Number {
                value: number.value.cast_unsigned(),
                size: number.size,
            })
        }
    }
}

/// The operation that some bytes begin with: one alone. It is refused as `Cut` where they are the beginning of one, as
/// `Unknown` where no operation that is followed here has the opcode, as a jump, and as `LongNumber` where a number has
/// more than nine bytes. An expression ends where its bytes do.
pub fn operation_in(bytes: &[u8]) -> Result<Read, Flaw>
    ensures right { IfOk result (IsFirst bytes.now) }
    ensures only { (text behind : List ℕ) (o : OperationValue) → bytes.now ≡ text ++ behind → Spells text o
        → result ≡ Ok (read o (length text)) }
    ensures value { result ≡ operation_in bytes.now }
{
    read_in(bytes)
}

/// The same.
fn read_in(bytes: &[u8]) -> Result<Read, Flaw>
    ensures { result ≡ operation_in bytes.now }
{
    if bytes.is_empty() {
        return Err(Flaw::Cut);
    }
    let Some(form) = form_of(bytes[0]) else {
        return Err(Flaw::Unknown(bytes[0]));
    };
    let operand = operand_in(form, &bytes[1..])?;
    Ok(Read {
        operation: operation_of(bytes[0], operand.value),
        size: 1 + operand.size,
    })
}

impl Combination {
    /// What the two words on top come to.
    pub fn of(self, left: u64, right: u64) -> u64
        ensures { result ≡ combined self left right }
    {
        let (l, r) = (left.cast_signed(), right.cast_signed());
        match self {
            Combination::Plus => left.wrapping_add(right),
            Combination::Minus => left.wrapping_sub(right),
            Combination::Multiply => left.wrapping_mul(right),
            Combination::And => left & right,
            Combination::Or => left | right,
            Combination::Xor => left ^ right,
            Combination::ShiftLeft => shifted_left(left, right),
            Combination::ShiftRight => shifted_right(left, right),
            Combination::Equal => u64::from(left == right),
            Combination::NotEqual => u64::from(left != right),
            Combination::AtLeast => u64::from(l >= r),
            Combination::Greater => u64::from(l > r),
            Combination::AtMost => u64::from(l <= r),
            Combination::Less => u64::from(l < r),
        }
    }
}

fn shifted_left(left: u64, right: u64) -> u64
    ensures { result ≡ shifted_left left right }
{
    if right < 64 { left << right } else { 0 }
}

fn shifted_right(left: u64, right: u64) -> u64
    ensures { result ≡ shifted_right left right }
{
    if right < 64 { left >> right } else { 0 }
}
