//! Fields of a line: what stands before white space, and numbers.
ghost use Rattle.std.specs.Prelude.{◌≡◌, ◌<◌, ◌≤◌, true, false, MatchOption};
ghost use Rattle.std.specs.Char.{digit_value, is_ascii_whitespace};
ghost use Rattle.std.specs.List.{position};
ghost use Rattle.std.specs.Str.Parse.{digits_value};
ghost use Rattle.maps_text.specs.Fields.{field, behind, has_white, is_dash, has_dash, before_dash, after_dash};
ghost use Rattle.maps_text.specs.Fields.{is_number};

/// Where the first white space stands.
fn first_white(bytes: &[u8]) -> Option<usize>
    ensures { result ≡ position is_ascii_whitespace bytes.now }
{
    bytes.iter().position(|byte| byte.is_ascii_whitespace())
}

/// Where the first `-` stands.
fn first_dash(bytes: &[u8]) -> Option<usize>
    ensures { result ≡ position is_dash bytes.now }
{
    bytes.iter().position(|byte| *byte == b'-')
}

/// What stands before the first white space, and what stands behind it; None where there is none.
pub(crate) fn cut_field(bytes: &[u8]) -> Option<(&[u8], &[u8])>
    ensures { MatchOption result (has_white bytes.now ≡ false) (λ parts.
        (has_white bytes.now ≡ true) × (parts.0.now ≡ field bytes.now) × (parts.1.now ≡ behind bytes.now)) }
{
    let Some(at) = first_white(bytes) else {
        return None;
    };
    Some((&bytes[..at], &bytes[at + 1..]))
}

/// What stands before the first `-`, and what stands behind it; None where there is none.
pub(crate) fn cut_range(bytes: &[u8]) -> Option<(&[u8], &[u8])>
    ensures { MatchOption result (has_dash bytes.now ≡ false) (λ parts.
        (has_dash bytes.now ≡ true) × (parts.0.now ≡ before_dash bytes.now) × (parts.1.now ≡ after_dash bytes.now)) }
{
    let Some(at) = first_dash(bytes) else {
        return None;
    };
    Some((&bytes[..at], &bytes[at + 1..]))
}

/// The value of a hexadecimal digit of either case.
fn digit_in(byte: u8) -> Option<u8>
    ensures { MatchOption result (16 ≤ digit_value byte) (λ digit. (digit < 16) × (digit ≡ digit_value byte)) }
{
    match byte {
        b'0'..=b'9' => Some(byte - b'0'),
        b'a'..=b'f' => Some(byte - b'a' + 10),
        b'A'..=b'F' => Some(byte - b'A' + 10),
        _ => None,
    }
}

/// The number that 1 to 16 hexadecimal digits of either case write; None exactly for other bytes. It takes no memory.
pub fn number_in(digits: &[u8]) -> Option<u64>
    ensures { MatchOption result (is_number digits.now ≡ false) (λ number.
        (is_number digits.now ≡ true) × (number ≡ digits_value 16 digits.now)) }
{
    if digits.is_empty() || digits.len() > 16 {
        return None;
    }
    let mut number = 0u64;
    for digit in digits {
        let value = digit_in(*digit)?;
        number = number * 16 + u64::from(value);
    }
    Some(number)
}
