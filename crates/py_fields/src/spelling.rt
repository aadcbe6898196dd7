//! The spelling of a version at the front of some bytes.
ghost use Rattle.std.specs.Prelude.{◌≡◌, ◌≤◌, ◌<◌, ℕ, true, false, length, slice_index, option_map, IfSome};
ghost use Rattle.std.specs.Char.{is_ascii_digit};
ghost use Rattle.py_fields.specs.Spelling.{is_metadata};
ghost use Rattle.py_fields.specs.Fronts.{are_runs, are_runs_after, digit_front, flags_len, front_of, has_end};
ghost use Rattle.py_fields.specs.Fronts.{is_dotted, level_len, major_front, metadata_front, metadata_len, metadata_of};
ghost use Rattle.py_fields.specs.Fronts.{minor_front, short_front, spelled, version_of};

use bstr::decode_utf8;

/// The parts of a version's text.
#[derive(Clone, Copy)]
pub(crate) struct Spelling<'a> {
    pub(crate) major: u64,
    pub(crate) minor: u64,
    pub(crate) patch: u64,
    /// What follows the patch number; empty where nothing does.
    pub(crate) flags: &'a [u8],
    /// What follows the `+`, where there is one.
    pub(crate) metadata: Option<&'a [u8]>,
}

/// `2` or `3`, and a dot.
fn major_front(bytes: &[u8]) -> Option<(u64, &[u8])>
    ensures { front_of result ≡ major_front bytes.now }
{
    match bytes {
        [major @ b'2'..=b'3', b'.', rest @ ..] => Some((u64::from(*major - b'0'), rest)),
        _ => None,
    }
}

/// `3` to `14`, and a dot.
fn minor_front(bytes: &[u8]) -> Option<(u64, &[u8])>
    ensures { front_of result ≡ minor_front bytes.now }
{
    match bytes {
        [minor @ b'3'..=b'9', b'.', rest @ ..] => Some((u64::from(*minor - b'0'), rest)),
        [b'1', ones @ b'0'..=b'4', b'.', rest @ ..] => {
            Some((10 + u64::from(*ones - b'0'), rest))
        }
        _ => None,
    }
}

/// One digit.
fn digit_front(bytes: &[u8]) -> Option<(u64, &[u8])>
    ensures value { front_of result ≡ digit_front bytes.now }
    ensures behind { IfSome result (λ front. length front.1.now ≤ length bytes.now) }
    ensures digit { IfSome result (λ front. front.0 ≤ 9) }
{
    match bytes {
        [digit @ b'0'..=b'9', rest @ ..] => Some((u64::from(*digit - b'0'), rest)),
        _ => None,
    }
}

/// One or two digits, with none behind them.
fn short_front(bytes: &[u8]) -> Option<(u64, &[u8])>
    ensures value { front_of result ≡ short_front bytes.now }
    ensures behind { IfSome result (λ front. length front.1.now ≤ length bytes.now) }
{
    let (first, rest) = digit_front(bytes)?;
    match digit_front(rest) {
        None => Some((first, rest)),
        Some((ones, rest)) => {
            if digit_front(rest).is_some() {
                return None;
            }
            Some((first * 10 + ones, rest))
        }
    }
}

/// How many letters of flags there are.
fn level_len(bytes: &[u8]) -> usize
    ensures value { result ≡ level_len bytes.now }
    ensures fits { result ≤ length bytes.now }
{
    match bytes {
        [b'a'..=b'c', ..] => 1,
        [b'r', b'c', ..] => 2,
        _ => 0,
    }
}

/// How many bytes of flags there are.
fn flags_len(bytes: &[u8]) -> usize
    ensures value { result ≡ flags_len bytes.now }
    ensures fits { result ≤ length bytes.now }
{
    let level = level_len(bytes);
    if level == 0 {
        return 0;
    }
    match short_front(&bytes[level..]) {
        Some((_, rest)) => bytes.len() - rest.len(),
        None => 0,
    }
}

/// A byte of metadata, or a dot between two runs of it.
fn is_dotted(byte: u8) -> bool
    ensures { result ≡ is_dotted byte }
{
    matches!(byte, b'0'..=b'9' | b'a'..=b'z' | b'-' | b'.')
}

/// Where these end.
fn dotted_end(bytes: &[u8]) -> usize
    ensures within { result ≤ length bytes.now }
    ensures before { (k : ℕ) → k < result → is_dotted (slice_index bytes.now k) ≡ true }
    ensures end { result < length bytes.now → is_dotted (slice_index bytes.now result) ≡ false }
{
    bytes
        .iter()
        .position(|byte| !is_dotted(*byte))
        .unwrap_or(bytes.len())
}

/// How many of these there are.
fn metadata_len(bytes: &[u8]) -> usize
    ensures value { result ≡ metadata_len bytes.now }
    ensures fits { result ≤ length bytes.now }
{
    dotted_end(bytes)
}

/// Whether metadata is nothing, or runs joined by dots.
fn are_runs(metadata: &[u8]) -> bool
    ensures { result ≡ are_runs metadata.now }
{
    if metadata.is_empty() {
        return true;
    }
    let mut after_dot = true;
    for byte in metadata {
        let is_dot = *byte == b'.';
        if after_dot && is_dot {
            return false;
        }
        after_dot = is_dot;
    }
    !after_dot
}

/// `+` and its metadata, where a `+` stands; none where the metadata is no runs joined by dots.
fn metadata_front(bytes: &[u8]) -> Option<(Option<&[u8]>, &[u8])>
    ensures { metadata_of result ≡ metadata_front bytes.now }
{
    match bytes {
        [b'+', rest @ ..] => {
            let (metadata, rest) = rest.split_at(metadata_len(rest));
            if !are_runs(metadata) {
                return None;
            }
            Some((Some(metadata), rest))
        }
        _ => Some((None, bytes)),
    }
}

/// Whether a space stands here, and behind it a character that does not end the line.
fn has_end(bytes: &[u8]) -> bool
    ensures { result ≡ has_end bytes.now }
{
    match bytes {
        [b' ', rest @ ..] => match decode_utf8(rest).0 {
            Some(character) => character != '\n',
            None => false,
        },
        _ => false,
    }
}

/// The version that some bytes begin with.
#[tactic(auto, unfolding(crate::specs::Fronts::spelled, crate::specs::Fronts::spelled_after))]
pub(crate) fn spelling_at(bytes: &[u8]) -> Option<Spelling<'_>>
    ensures { option_map version_of result ≡ spelled bytes.now }
{
    let (major, rest) = major_front(bytes)?;
    let (minor, rest) = minor_front(rest)?;
    let (patch, rest) = short_front(rest)?;
    let (flags, rest) = rest.split_at(flags_len(rest));
    let (metadata, rest) = metadata_front(rest)?;
    if !has_end(rest) {
        return None;
    }
    Some(Spelling {
        major,
        minor,
        patch,
        flags,
        metadata,
    })
}
