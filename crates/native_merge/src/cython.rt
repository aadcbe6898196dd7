//! The names of Cython's functions.
ghost use Rattle.std.specs.Prelude.{◌≡◌, drop, option_map, MatchOption};
ghost use Rattle.native_merge.specs.CythonNames.{DemanglesOnce, HasTurn, IsDemangled, IsPointIn, IsShortened, IsTurnAt};
ghost use Rattle.native_merge.specs.CythonNames.{behind, fronts, left_behind};
ghost use Rattle.native_pairs.specs.Kinds.{is_call_glue};

use crate::digits::{Number, leading_number};

/// Whether a function only hands a call on, and so is shown in no stack: four helpers of Cython's.
///
/// The names are those that py-spy leaves out.
pub fn ignore_frame(name: &str) -> bool
    ensures { result ≡ is_call_glue name.now }
{
    native_pairs::is_call_glue(name.as_bytes())
}

/// What is left of a name behind this front.
fn behind<'a>(front: &str, name: &'a str) -> Option<&'a str>
    ensures { option_map (λ left. left.now) result ≡ behind front.now name.now }
{
    name.strip_prefix(front)
}

/// What is left of a name behind what Cython puts in front; the first that fits goes.
fn left_behind(name: &str) -> Option<&str>
    ensures { option_map (λ left. left.now) result ≡ left_behind fronts name.now }
{
    behind("__pyx_fuse_1_0__pyx_pw", name)
        .or_else(|| behind("__pyx_fuse_0__pyx_f", name))
        .or_else(|| behind("__pyx_fuse_1__pyx_f", name))
        .or_else(|| behind("__pyx_pf", name))
        .or_else(|| behind("__pyx_pw", name))
        .or_else(|| behind("__pyx_f", name))
        .or_else(|| behind("___pyx_f", name))
        .or_else(|| behind("___pyx_pw", name))
}

/// The number that a place begins with; none where no `_` with digits stands there, or they pass a `u64`.
fn turn_at(place: &str) -> Option<Number<'_>>
    ensures { MatchOption result (HasTurn place.now → ⊥) (IsTurnAt place.now) }
{
    let text = place.strip_prefix('_')?;
    leading_number(text)
}

/// Where the next number may stand: so many bytes behind the digits, where that is a border of characters.
fn next_place<'a>(turn: &Number<'a>) -> Option<&'a str>
    ensures { MatchOption result (IsPointIn turn.now.value turn.now.digits turn.now.rest.now → ⊥)
        (λ next. IsPointIn turn.now.value turn.now.digits turn.now.rest.now
        × (next.now ≡ drop turn.now.value turn.now.rest.now)) }
{
    let value = turn.value as usize;
    let point = value.checked_add(turn.digits)?.checked_add(1)?;
    if point >= turn.rest.len() {
        return None;
    }
    let (_, next) = turn.rest.split_at_checked(value)?;
    Some(next)
}

/// A name without the numbers in front of it.
fn shortened(left: &str) -> &str
    ensures { IsShortened left.now left.now result.now }
{
    let mut place = left;
    let mut name = left;
    while let Some(turn) = turn_at(place) {
        name = turn.rest;
        let Some(next) = next_place(&turn) else {
            return name;
        };
        place = next;
    }
    name
}

/// The name of a function without what Cython has put in front of it; other names as they are.
///
/// The first that fits of eight fronts goes, as `__pyx_pw`. Then numbers go, each an underscore and one or more
/// ASCII digits: the name is what follows the last one. Cython writes how long a name is in front of it, so the
/// next number is looked for that many bytes behind the digits, where that point is a border of characters and
/// lies, counted from the underscore, before as many bytes as the name has. A number past 2^64 - 1 ends it. The
/// fronts and the search are py-spy's, which reads some numbers otherwise.
pub fn demangle(name: &str) -> &str
    ensures value { IsDemangled name.now result.now }
    ensures once { DemanglesOnce }
{
    match left_behind(name) {
        Some(left) => shortened(left),
        None => name,
    }
}
