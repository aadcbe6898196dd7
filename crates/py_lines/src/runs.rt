//! What is written for one range: entries of a table, of which many are alike.
ghost use Rattle.std.specs.Prelude.{◌≡◌, ◌<◌, ◌≤◌, ◌+◌, ◌*◌, ◌^◌, ◌%◌, ℕ, ℤ, pos, negsuc, ◌≤ℤ◌, ◌-◌, All};
ghost use Rattle.py_lines.specs.Coding.{wholes, rest_of, parts_of, run_of, pair_runs, piece_runs, runs_of, IsNearDelta};

use crate::LineFamily;

/// Entries that are alike, one behind the other.
#[derive(Clone, Copy)]
pub(crate) struct Run {
    /// How many they are.
    pub(crate) times: u64,
    /// How many bytes of code each covers.
    pub(crate) covers: u64,
    /// By how much each moves the line; None where its code has no line.
    pub(crate) delta: Option<i64>,
}

/// A delta in parts that a byte holds: some that are alike, and the last.
#[derive(Clone, Copy)]
pub(crate) struct Parts {
    /// How many there are before the last.
    pub(crate) wholes: u64,
    /// Each of them.
    pub(crate) whole: i64,
    pub(crate) last: i64,
}

/// The most bytes of code under an entry of two bytes.
const PAIR_MOST: u64 = 255;
/// The most bytes of code under a location.
const LOCATION_MOST: u64 = 16;
/// The greatest delta of an entry of two bytes.
const PART_MOST: u64 = 127;

/// How often `most` is taken off a number while it is beyond that.
fn wholes(most: u64, n: u64) -> u64
    requires { 0 < most }
    ensures { result ≡ wholes most n }
{
    n.saturating_sub(1) / most
}

/// What is left of the number then.
fn rest_of(most: u64, n: u64) -> u64
    requires { 0 < most }
    ensures value { result ≡ rest_of most n }
    ensures small { result ≤ most }
{
    n - most * wholes(most, n)
}

/// A delta in parts of at most 127 upwards, or at most `low` downwards.
fn parts_of(low: u64, delta: i64) -> Parts
    requires low { 0 < low }
    requires byte { low ≤ 128 }
    requires above { negsuc (2 ^ 33) ≤ℤ delta }
    requires below { delta ≤ℤ pos (2 ^ 33) }
    ensures { result ≡ parts_of low delta }
{
    let size = delta.unsigned_abs();
    if delta < 0 {
        Parts {
            wholes: wholes(low, size),
            whole: -(low as i64),
            last: -(rest_of(low, size) as i64),
        }
    } else {
        Parts {
            wholes: wholes(PART_MOST, size),
            whole: PART_MOST as i64,
            last: rest_of(PART_MOST, size) as i64,
        }
    }
}

impl Run {
    fn new(times: u64, covers: u64, delta: Option<i64>) -> Run
        ensures { result ≡ run_of times covers delta }
    {
        Run {
            times,
            covers,
            delta,
        }
    }
}

/// The runs of code with a delta in `Pairs`: pieces that leave the line, then the first part of the delta with
/// the last piece, then the other parts, which cover no code.
fn pair_runs(len: u64, parts: Parts) -> [Run; 4]
    ensures { result ≡ pair_runs len parts }
{
    let rest = rest_of(PAIR_MOST, len);
    let is_whole = parts.wholes == 0;
    [
        Run::new(wholes(PAIR_MOST, len), PAIR_MOST, Some(0)),
        Run::new(if is_whole { 0 } else { 1 }, rest, Some(parts.whole)),
        Run::new(parts.wholes.saturating_sub(1), 0, Some(parts.whole)),
        Run::new(1, if is_whole { rest } else { 0 }, Some(parts.last)),
    ]
}

/// The runs of code in the later families: parts of a delta that cover no code, then the code in pieces of at
/// most so many bytes, of which the first has `first`, and the others have `later`.
fn piece_runs(most: u64, len: u64, parts: Run, first: Option<i64>, later: Option<i64>) -> [Run; 4]
    requires { 0 < most }
    ensures { result ≡ piece_runs most len parts first later }
{
    let wholes = wholes(most, len);
    let is_whole = wholes == 0;
    [
        parts,
        Run::new(if is_whole { 0 } else { 1 }, most, first),
        Run::new(wholes.saturating_sub(1), most, later),
        Run::new(1, rest_of(most, len), if is_whole { first } else { later }),
    ]
}

/// The runs of so many bytes of code with a delta, or without a line.
pub(crate) fn runs_of(family: LineFamily, len: u64, delta: Option<i64>) -> [Run; 4]
    requires near { IsNearDelta delta }
    ensures { result ≡ runs_of family len delta }
{
    let none = Run::new(0, 0, Some(0));
    match (family, delta) {
        (LineFamily::Pairs, _) => pair_runs(len, parts_of(128, delta.unwrap_or(0))),
        (LineFamily::Ranges, Some(delta)) => {
            let parts = parts_of(PART_MOST, delta);
            let climbs = Run::new(parts.wholes, 0, Some(parts.whole));
            piece_runs(PAIR_MOST, len, climbs, Some(parts.last), Some(0))
        }
        (LineFamily::Ranges, None) => piece_runs(PAIR_MOST, len, none, None, None),
        (LineFamily::Locations, Some(_)) => piece_runs(LOCATION_MOST, len, none, delta, Some(0)),
        (LineFamily::Locations, None) => piece_runs(LOCATION_MOST, len, none, None, None),
    }
}
