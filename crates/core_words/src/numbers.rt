//! Numbers in words, and versions of three of them.
ghost use Rattle.std.specs.Prelude.{◌≡◌, ◌≤◌, option_map};
ghost use Rattle.core_words.specs.Words.{digits_in, word_number, release_by, release_of, split_at_dot};
ghost use Rattle.core_words.specs.Seen.{asked_version};

/// A version of three numbers alone.
#[derive(Debug, Clone, Copy, PartialEq, Eq)]
pub struct Release {
    pub major: u64,
    pub minor: u64,
    pub patch: u64,
}

/// The number that one digit or more of the radix spell, at most so many of them; none where the text has other
/// characters, or the number is 2^64 or more.
pub fn digits_in(radix: u32, most: usize, digits: &str) -> Option<u64>
    requires low { 2 ≤ radix }
    requires high { radix ≤ 36 }
    ensures { result ≡ digits_in radix most digits.now }
{
    if digits.len() > most || digits.starts_with('+') {
        return None;
    }
    u64::from_str_radix(digits, radix).ok()
}

/// 1 to 20 decimal digits, or `0x` and 1 to 16 hexadecimal digits.
pub(crate) fn word_number(word: &str) -> Option<u64>
    ensures { result ≡ word_number word.now }
{
    match word.strip_prefix("0x") {
        Some(digits) => digits_in(16, 16, digits),
        None => digits_in(10, 20, word),
    }
}

fn release_by(major: Option<u64>, minor: Option<u64>, patch: Option<u64>) -> Option<Release>
    ensures { option_map asked_version result ≡ release_by major minor patch }
{
    match (major, minor, patch) {
        (Some(major), Some(minor), Some(patch)) => Some(Release {
            major,
            minor,
            patch,
        }),
        _ => None,
    }
}

fn split_at_dot(word: &str) -> Option<(&str, &str)>
    ensures { option_map (λ parts. (parts.0.now, parts.1.now)) result ≡ split_at_dot word.now }
{
    word.split_once('.')
}

/// Three runs of 1 to 3 digits joined by dots.
pub(crate) fn release_of(word: &str) -> Option<Release>
    ensures { option_map asked_version result ≡ release_of word.now }
{
    let Some((major, rest)) = split_at_dot(word) else {
        return None;
    };
    let Some((minor, patch)) = split_at_dot(rest) else {
        return None;
    };
    release_by(
        digits_in(10, 3, major),
        digits_in(10, 3, minor),
        digits_in(10, 3, patch),
    )
}
