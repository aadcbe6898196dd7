//! Numbers in a program of call frame instructions.
ghost use Rattle.std.specs.Prelude.{◌≡◌, ◌+◌, ◌≤◌, ◌<◌, ◌^◌, ℕ, pos, neg_ℤ, ◌≤ℤ◌, ◌<ℤ◌, length, IfOk};
ghost use Rattle.frame_rows.specs.Numbers.{unsigned_in, unsigned_within, signed_in, signed_within, fixed_in};
ghost use Rattle.frame_rows.specs.Numbers.{HasRoom};

/// Why no instruction stands at a place, or what stands there can't be followed.
#[derive(Clone, Copy, Debug, PartialEq, Eq)]
pub enum Flaw {
    /// The bytes end before the instruction does.
    Cut,
    /// A number has more than nine bytes.
    LongNumber,
    /// No instruction that is followed here has this opcode, as 0x01 (`set_loc`).
    Unknown(u8),
    /// `restore_state` with no state remembered.
    NothingRemembered,
    /// More states are remembered than there is room for.
    TooManyRemembered,
    /// A part of the rule for the CFA changes, which isn't a register and an offset.
    NoCfa,
    /// An expression has more than 256 bytes.
    LongExpression,
    /// The instruction is one of another machine.
    OtherMachine,
}

/// A number without a sign, and how many bytes it takes.
#[derive(Clone, Copy, Debug, PartialEq, Eq)]
pub struct Number {
    pub value: u64,
    pub size: usize,
}

/// A number with a sign, and how many bytes it takes.
#[derive(Clone, Copy, Debug, PartialEq, Eq)]
pub struct SignedNumber {
    pub value: i64,
    pub size: usize,
}

/// The most bytes that a number has.
const MOST: u32 = 9;

/// The ULEB128 number that the bytes begin with: seven bits of each byte, the lowest first, and bit 7 set in
/// each but the last. It is refused as `Cut` or as `LongNumber`.
pub fn unsigned(bytes: &[u8]) -> Result<Number, Flaw>
    ensures value { result ≡ unsigned_in bytes.now }
    ensures whole { IfOk result (λ n. HasRoom (length bytes.now) n.size) }
    ensures small { IfOk result (λ n. n.value < 2 ^ 63) }
{
    unsigned_within(MOST, bytes)
}

/// The same of at most so many bytes.
fn unsigned_within(most: u32, bytes: &[u8]) -> Result<Number, Flaw>
    requires { most ≤ 9 }
    ensures value { result ≡ unsigned_within most bytes.now }
    ensures whole { IfOk result (λ n. HasRoom (length bytes.now) n.size) }
    ensures small { IfOk result (λ n. n.value < 128 ^ most) }
{
    if most == 0 {
        return Err(Flaw::LongNumber);
    }
    if bytes.is_empty() {
        return Err(Flaw::Cut);
    }
    let low = u64::from(bytes[0] % 128);
    if bytes[0] < 128 {
        return Ok(Number {
            value: low,
            size: 1,
        });
    }
    let high = unsigned_within(most - 1, &bytes[1..])?;
    Ok(Number {
        value: low + 128 * high.value,
        size: 1 + high.size,
    })
}

/// The SLEB128 number that the bytes begin with: as above, and bit 6 of the last byte is its sign. It is refused as
/// `Cut` or as `LongNumber`.
pub fn signed(bytes: &[u8]) -> Result<SignedNumber, Flaw>
    ensures value { result ≡ signed_in bytes.now }
    ensures whole { IfOk result (λ n. HasRoom (length bytes.now) n.size) }
{
    signed_within(MOST, bytes)
}

/// The same of at most so many bytes.
fn signed_within(most: u32, bytes: &[u8]) -> Result<SignedNumber, Flaw>
    requires { most ≤ 9 }
    ensures value { result ≡ signed_within most bytes.now }
    ensures whole { IfOk result (λ n. HasRoom (length bytes.now) n.size) }
    ensures low { IfOk result (λ n. neg_ℤ (pos (128 ^ most)) ≤ℤ n.value) }
    ensures high { IfOk result (λ n. n.value <ℤ pos (128 ^ most)) }
{
    if most == 0 {
        return Err(Flaw::LongNumber);
    }
    if bytes.is_empty() {
        return Err(Flaw::Cut);
    }
    if bytes[0] < 64 {
        return Ok(SignedNumber {
            value: i64::from(bytes[0]),
            size: 1,
        });
    }
    if bytes[0] < 128 {
        return Ok(SignedNumber {
            value: i64::from(bytes[0]) - 128,
            size: 1,
        });
    }
    let high = signed_within(most - 1, &bytes[1..])?;
    Ok(SignedNumber {
        value: i64::from(bytes[0] % 128) + 128 * high.value,
        size: 1 + high.size,
    })
}

/// The number of so many bytes, the lowest first. It is refused as `Cut`.
pub fn fixed(size: u32, bytes: &[u8]) -> Result<Number, Flaw>
    requires { size ≤ 8 }
    ensures value { result ≡ fixed_in size bytes.now }
    ensures whole { IfOk result (λ n. n.size ≤ length bytes.now) }
    ensures small { IfOk result (λ n. n.value < 256 ^ size) }
{
    if size == 0 {
        return Ok(Number { value: 0, size: 0 });
    }
    if bytes.is_empty() {
        return Err(Flaw::Cut);
    }
    let high = fixed(size - 1, &bytes[1..])?;
    Ok(Number {
        value: u64::from(bytes[0]) + 256 * high.value,
        size: 1 + high.size,
    })
}
