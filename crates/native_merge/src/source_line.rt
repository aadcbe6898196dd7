//! Lines of C files that tell where a piece comes from.
ghost use Rattle.std.specs.Prelude.{◌≡◌, ◌≢◌, ◌≤◌, ◌<◌, ℕ, length, slice_index, MatchOption};
ghost use Rattle.native_merge.specs.NameEnds.{IsInnerDot, IsLastIn, IsNameEnd, is_closing};
ghost use Rattle.native_merge.specs.SourceLines.{Tells, TellsNone};

use crate::digits::leading_number;

/// What a line tells: a file of Cython's, and the number of a line there.
#[derive(Clone, Copy)]
pub(crate) struct Mark<'a> {
    pub(crate) name: &'a str,
    pub(crate) number: u32,
}

/// Whether a quote, a colon and a digit stand in front.
fn is_closing(text: &[u8]) -> bool
    ensures { result ≡ is_closing text.now }
{
    match text {
        [b'"', b':', digit, ..] => digit.is_ascii_digit(),
        _ => false,
    }
}

/// The place of the first dot behind the first byte.
fn inner_dot(text: &[u8]) -> Option<usize>
    ensures { MatchOption result ((place : ℕ) → 1 ≤ place → place < length text.now → slice_index text.now place ≢ 46)
        (IsInnerDot text.now) }
{
    for place in 1..text.len() {
        if text[place] == b'.' {
            return Some(place);
        }
    }
    None
}

/// The last place from one on at which a quote, a colon and a digit stand.
fn last_closing(text: &[u8], from: usize) -> Option<usize>
    ensures { IsLastIn text.now from (length text.now) result }
{
    let mut last = None;
    for place in from..text.len() {
        if is_closing(&text[place..]) {
            last = Some(place);
        }
    }
    last
}

/// Where the name of a file ends that some bytes begin with: at the last place that allows it.
fn name_end(text: &[u8]) -> Option<usize>
    ensures { IsNameEnd text.now result }
{
    let dot = inner_dot(text)?;
    let last = last_closing(text, dot + 2);
    last
}

/// What a line tells, where it has the form and its number fits.
pub(crate) fn line_mark(line: &str) -> Option<Mark<'_>>
    ensures { MatchOption result (TellsNone line.now) (λ mark. Tells line.now mark.name.now mark.number) }
{
    let text = line.trim_start().strip_prefix("/* \"")?;
    let end = name_end(text.as_bytes())?;
    let (name, closing) = text.split_at(end);
    let digits = closing.strip_prefix("\":")?;
    let number = leading_number(digits)?.value;
    if number > u64::from(u32::MAX) {
        return None;
    }
    Some(Mark {
        name,
        number: number as u32,
    })
}
