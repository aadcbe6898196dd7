//! Numbers in front of a text.
ghost use Rattle.std.specs.Prelude.{◌≡◌, ◌≤◌, length, MatchOption};
ghost use Rattle.std.specs.List.{prefix_len};
ghost use Rattle.std.specs.Char.{is_ascii_digit};
ghost use Rattle.native_merge.specs.Digits.{HasNumber, IsNumberOf};

/// A number in ASCII digits, and what stands behind it.
#[derive(Clone, Copy)]
pub(crate) struct Number<'a> {
    pub(crate) value: u64,
    /// How many digits there are.
    pub(crate) digits: usize,
    pub(crate) rest: &'a str,
}

/// How many digits stand in front.
fn digits_len(text: &[u8]) -> usize
    ensures value { result ≡ prefix_len is_ascii_digit text.now }
    ensures within { result ≤ length text.now }
{
    for (at, byte) in text.iter().enumerate() {
        if !byte.is_ascii_digit() {
            return at;
        }
    }
    text.len()
}

/// The number that a text begins with; none where no digit stands there, or the number passes a `u64`.
pub(crate) fn leading_number(text: &str) -> Option<Number<'_>>
    ensures { MatchOption result (HasNumber text.now → ⊥) (IsNumberOf text.now) }
{
    let (digits, rest) = text.split_at(digits_len(text.as_bytes()));
    let value = digits.parse::<u64>().ok()?;
    Some(Number {
        value,
        digits: digits.len(),
        rest,
    })
}
