//! What a process says of a layout, as a JSON value.
ghost use Rattle.std.specs.Prelude.{◌≡◌, ◌++◌, false, IfOk, OnOk, map};
ghost use Rattle.serde_json.specs.View.{view};
ghost use Rattle.serde_json.specs.Written.{has_float};
ghost use Rattle.py_selftest.specs.Checking.{check_shown, key_shown};
ghost use Rattle.py_selftest.specs.Trees.{build_tree, check_tree, is_listed, key_tree, list_tree, listed_of};
ghost use Rattle.py_selftest.specs.Trees.{known_tree, listed_tree, number_tree, numbers_tree};
ghost use Rattle.py_selftest.specs.Trees.{release_tree, right_tree};
ghost use Rattle.py_selftest.specs.Trees.{doubt_tree, doubt_word, verdict_word};

use crate::checking::{KeyTold, LayoutCheck, Verdict, differs};
use crate::questions::{Answer, Counted, count_known, has_no_right_frame};
use crate::telling::Release;
use crate::text::is_told;
use crate::trusting::Build;
use serde_json::{Value, json};
use std::alloc::{AllocError, Global};

/// A number, or null.
fn number_value(number: Option<u64>) -> Value
    ensures { view result ≡ number_tree number }
{
    match number {
        Some(number) => Value::from(number),
        None => Value::Null,
    }
}

/// The layout's number, in 8 bytes.
fn layout_number(key: &KeyTold) -> Option<u64>
    ensures { result ≡ key.now.layout }
{
    match key.layout {
        Some(number) => Some(number as u64),
        None => None,
    }
}

/// A number that is told: its key, the layout's number, and the process's.
fn key_value(alloc: Global, key: &KeyTold) -> Result<Value, AllocError>
    ensures { IfOk result (λ value. view value ≡ key_tree (key_shown key.now)) }
{
    let layout = number_value(layout_number(key));
    let process = number_value(key.process);
    json!(in alloc; {
        "key": key.name(),
        "layout": layout,
        "process": process
    })
}

/// Which numbers are listed.
#[derive(Clone, Copy)]
pub(crate) enum Listed {
    /// Those that are told.
    Told,
    /// Those of which the process says another one.
    Differing,
    /// Those that are not told.
    Untold,
}

/// Whether a number is listed.
fn is_listed(listed: Listed, key: &KeyTold) -> bool
    ensures { result ≡ is_listed listed (key_shown key.now) }
{
    match listed {
        Listed::Told => is_told(key, true),
        Listed::Differing => differs(key),
        Listed::Untold => is_told(key, false),
    }
}

/// What stands for a number in a list: its key alone, where it is not told.
fn listed_value(alloc: Global, listed: Listed, key: &KeyTold) -> Result<Value, AllocError>
    ensures { IfOk result (λ value. view value ≡ listed_tree listed (key_shown key.now)) }
{
    match listed {
        Listed::Told => key_value(alloc, key),
        Listed::Differing => key_value(alloc, key),
        Listed::Untold => Value::try_from_str(alloc, key.name()),
    }
}

/// Adds a number to a list, if it is listed.
fn add_listed(
    alloc: Global,
    values: &mut Vec<Value>,
    listed: Listed,
    key: &KeyTold,
) -> Result<(), AllocError>
    ensures { OnOk result (map view values.new.items
        ≡ map view values.old.items ++ listed_of listed (key_shown key.now)) }
{
    let is = is_listed(listed, key);
    if is {
        values.push(listed_value(alloc, listed, key)?)?;
    }
    Ok(())
}

/// A list of numbers, in order.
fn list_value(alloc: Global, listed: Listed, keys: &[KeyTold]) -> Result<Value, AllocError>
    ensures { IfOk result (λ value. view value ≡ list_tree listed (map key_shown keys.now)) }
{
    let mut values = Vec::new(alloc);
    for key in keys {
        add_listed(alloc, &mut values, listed, key)?;
    }
    Ok(Value::Array(values))
}

/// A build that is none of the usual ones, or null.
fn build_value(alloc: Global, build: Option<Build>) -> Result<Value, AllocError>
    ensures { IfOk result (λ value. view value ≡ build_tree build) }
{
    match build {
        None => Ok(Value::Null),
        Some(Build::FreeThreaded) => Value::try_from_str(alloc, "free-threaded"),
        Some(Build::TraceRefs) => Value::try_from_str(alloc, "trace-refs"),
    }
}

/// How many known answers are right, and how many there are.
fn right_value(alloc: Global, right: u64, of: u64) -> Result<Value, AllocError>
    ensures { IfOk result (λ value. view value ≡ right_tree right of) }
{
    json!(in alloc; {
        "of": of,
        "right": right
    })
}

/// The same; null where there are none.
fn known_value(alloc: Global, known: &[Answer]) -> Result<Value, AllocError>
    ensures { IfOk result (λ value. view value ≡ known_tree known.now) }
{
    if known.is_empty() {
        return Ok(Value::Null);
    }
    right_value(
        alloc,
        count_known(known, Counted::Right),
        known.len() as u64,
    )
}

/// A version by its first two numbers, or null.
fn release_value(alloc: Global, release: Option<Release>) -> Result<Value, AllocError>
    ensures { IfOk result (λ value. view value ≡ release_tree release) }
{
    match release {
        None => Ok(Value::Null),
        Some(release) => numbers_value(alloc, release.major, release.minor),
    }
}

/// The same, by the numbers.
fn numbers_value(alloc: Global, major: u64, minor: u64) -> Result<Value, AllocError>
    ensures { IfOk result (λ value. view value ≡ numbers_tree major minor) }
{
    json!(in alloc; {
        "major": major,
        "minor": minor
    })
}

/// Why a layout is doubted.
fn doubt_word(by_frames: bool) -> &'static str
    ensures { result.now ≡ doubt_word by_frames }
{
    if by_frames { "frames" } else { "type" }
}

/// The same, or null where it is not.
fn doubt_value(alloc: Global, verdict: Verdict, by_frames: bool) -> Result<Value, AllocError>
    ensures { IfOk result (λ value. view value ≡ doubt_tree verdict by_frames) }
{
    match verdict {
        Verdict::Doubtful => Value::try_from_str(alloc, doubt_word(by_frames)),
        Verdict::Agrees => Ok(Value::Null),
        Verdict::Differs => Ok(Value::Null),
        Verdict::Silent => Ok(Value::Null),
        Verdict::NotDescribed => Ok(Value::Null),
    }
}

/// What is said of a layout, as a word.
fn verdict_word(verdict: Verdict) -> &'static str
    ensures { result.now ≡ verdict_word verdict }
{
    match verdict {
        Verdict::Agrees => "agrees",
        Verdict::Differs => "differs",
        Verdict::Doubtful => "doubtful",
        Verdict::Silent => "silent",
        Verdict::NotDescribed => "not described",
    }
}

/// The object.
fn object_value(alloc: Global, check: &LayoutCheck) -> Result<Value, AllocError>
    ensures { IfOk result (λ value. view value ≡ check_tree (check_shown check.now)) }
{
    let build = build_value(alloc, check.build)?;
    let doubt = doubt_value(
        alloc,
        check.verdict,
        has_no_right_frame(check.frames, &check.known),
    )?;
    let known = known_value(alloc, &check.known)?;
    let other_table = release_value(alloc, check.other_table)?;
    let differ = list_value(alloc, Listed::Differing, &check.keys)?;
    let not_told = list_value(alloc, Listed::Untold, &check.keys)?;
    let told = list_value(alloc, Listed::Told, &check.keys)?;
    json!(in alloc; {
        "build": build,
        "differ": differ,
        "doubt": doubt,
        "known": known,
        "not_told": not_told,
        "other_table": other_table,
        "told": told,
        "verdict": verdict_word(check.verdict)
    })
}

/// What a process says of a layout, as a JSON value: an object with `verdict`: `agrees`, `differs`, `doubtful`,
/// `silent` or `not described`; `build`: `free-threaded`, `trace-refs`, or null for a usual one; `told`, the numbers
/// of the layout that the process tells, each an object with its `key`, the `layout`'s number and the `process`'s;
/// `differ`, those of them that are two numbers; `doubt`, `frames` or `type` where it is doubted, by whether no answer
/// of a frame is right, else null; `not_told`, the keys of the others; `known`, null, or an object that says how many
/// known answers are `right`, and `of` how many; and `other_table`, null, or the `major` and `minor` number of the
/// version that the process's own table of places says, where its form is not known, so that nothing is read by it.
///
/// The keys of an object stand in the order of their bytes. The one error is out of memory.
pub fn check_value(alloc: Global, check: &LayoutCheck) -> Result<Value, AllocError>
    ensures value { IfOk result (λ value. view value ≡ check_tree (check_shown check.now)) }
    ensures no_float { has_float (check_tree (check_shown check.now)) ≡ false }
{
    object_value(alloc, check)
}
