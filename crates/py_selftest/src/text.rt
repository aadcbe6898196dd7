//! The lines that say what a process says of a layout.
ghost use Rattle.std.specs.Prelude.{◌≡◌, ◌≤◌, ◌++◌, OnOk, map, string_bytes};
ghost use Rattle.py_selftest.specs.Checking.{check_shown, key_shown};
ghost use Rattle.py_selftest.specs.Text.{build_text, check_text, count_told, counts_text, differ_text};
ghost use Rattle.py_selftest.specs.Text.{differing_text, is_as_asked, is_told, numbers_of, numbers_text};
ghost use Rattle.py_selftest.specs.Text.{told_text};
ghost use Rattle.py_selftest.specs.Text.{doubt_text, known_text, release_text, right_text, table_text, verdict_text};

use crate::checking::{KeyTold, LayoutCheck, Verdict, differs};
use crate::questions::{Answer, Counted, count_known, has_no_right_frame, one_if};
use crate::telling::Release;
use crate::trusting::Build;
use std::alloc::AllocError;

/// Whether a number is there, or is not there, as is asked.
fn is_as_asked(process: Option<u64>, told: bool) -> bool
    ensures { result ≡ is_as_asked told process }
{
    if told {
        process.is_some()
    } else {
        process.is_none()
    }
}

/// Whether a number that the layout has is told, or is not told, as is asked.
pub(crate) fn is_told(key: &KeyTold, told: bool) -> bool
    ensures { result ≡ is_told told (key_shown key.now) }
{
    key.layout.is_some() && is_as_asked(key.process, told)
}

/// How many numbers of the layout are told, or are not told.
fn count_told(keys: &[KeyTold], told: bool) -> u64
    ensures { result ≡ count_told told (map key_shown keys.now) }
{
    let mut count = 0;
    for key in keys {
        count += one_if(is_told(key, told));
    }
    count
}

/// These counts.
fn push_told(text: &mut String, told: u64, untold: u64) -> Result<(), AllocError>
    ensures { OnOk result (string_bytes text.new ≡ string_bytes text.old ++ told_text told untold) }
{
    write!(text, ": {told} keys told, {untold} not told\n")
}

/// How many numbers are told, and how many are not.
fn push_counts(text: &mut String, keys: &[KeyTold]) -> Result<(), AllocError>
    ensures { OnOk result (string_bytes text.new ≡ string_bytes text.old ++ counts_text (map key_shown keys.now)) }
{
    let told = count_told(keys, true);
    let untold = count_told(keys, false);
    push_told(text, told, untold)
}

/// That the process says another number than the layout.
fn push_numbers(text: &mut String, name: &str, layout: u32, process: u64) -> Result<(), AllocError>
    ensures { OnOk result (string_bytes text.new ≡ string_bytes text.old ++ numbers_text name.now layout process) }
{
    text.push_str("Layout differs: ")?;
    text.push_str(name)?;
    write!(text, " is {layout}, the process says {process}\n")
}

/// The line of a number that is told twice.
fn push_both(
    text: &mut String,
    name: &str,
    layout: Option<u32>,
    process: Option<u64>,
) -> Result<(), AllocError>
    ensures { OnOk result (string_bytes text.new ≡ string_bytes text.old ++ numbers_of name.now layout process) }
{
    match layout {
        None => Ok(()),
        Some(layout) => match process {
            None => Ok(()),
            Some(process) => push_numbers(text, name, layout, process),
        },
    }
}

/// The line of a number, if the process says another one.
fn push_differ(text: &mut String, key: &KeyTold) -> Result<(), AllocError>
    ensures { OnOk result (string_bytes text.new ≡ string_bytes text.old ++ differ_text (key_shown key.now)) }
{
    let other = differs(key);
    if other {
        return push_both(text, key.name(), key.layout, key.process);
    }
    Ok(())
}

/// A line for each number of which the process says another one.
fn push_differing(text: &mut String, keys: &[KeyTold]) -> Result<(), AllocError>
    ensures { OnOk result (string_bytes text.new ≡ string_bytes text.old
        ++ differing_text (map key_shown keys.now)) }
{
    for key in keys {
        push_differ(text, key)?;
    }
    Ok(())
}

/// The build, where it is none of the usual ones.
fn push_build(text: &mut String, build: Option<Build>) -> Result<(), AllocError>
    ensures { OnOk result (string_bytes text.new ≡ string_bytes text.old ++ build_text build) }
{
    match build {
        None => Ok(()),
        Some(Build::FreeThreaded) => text.push_str("The process is of a free-threaded build\n"),
        Some(Build::TraceRefs) => text.push_str("The process is of a build with trace refs\n"),
    }
}

/// Of which version a table says that it is, where its form is not known.
fn push_table(text: &mut String, table: Option<Release>) -> Result<(), AllocError>
    ensures { OnOk result (string_bytes text.new ≡ string_bytes text.old ++ table_text table) }
{
    match table {
        None => Ok(()),
        Some(release) => push_release(text, release.major, release.minor),
    }
}

/// The same, by the version's two numbers.
fn push_release(text: &mut String, major: u64, minor: u64) -> Result<(), AllocError>
    ensures { OnOk result (string_bytes text.new ≡ string_bytes text.old ++ release_text major minor) }
{
    text.push_str("The process has a table of places (_Py_DebugOffsets) that says it is of ")?;
    write!(text, "{major}.{minor}: nothing is read by it\n")
}

/// How many known answers are right.
fn push_right(text: &mut String, right: u64, of: u64) -> Result<(), AllocError>
    ensures { OnOk result (string_bytes text.new ≡ string_bytes text.old ++ right_text right of) }
{
    write!(text, "Known answers: {right} of {of} are right\n")
}

/// The same; nothing where there are none.
fn push_known(text: &mut String, known: &[Answer]) -> Result<(), AllocError>
    ensures { OnOk result (string_bytes text.new ≡ string_bytes text.old ++ known_text known.now) }
{
    if known.is_empty() {
        return Ok(());
    }
    push_right(text, count_known(known, Counted::Right), known.len() as u64)
}

/// Why a layout is doubted.
fn push_doubt(text: &mut String, by_frames: bool) -> Result<(), AllocError>
    ensures { OnOk result (string_bytes text.new ≡ string_bytes text.old ++ doubt_text by_frames) }
{
    if by_frames {
        return text.push_str("Layout doubtful, no known answer of a frame is right");
    }
    text.push_str("Layout not confirmed, type's own table is none that is known")
}

/// What is said of a layout by its numbers.
fn push_verdict(
    text: &mut String,
    verdict: Verdict,
    frames: u64,
    known: &[Answer],
    keys: &[KeyTold],
) -> Result<(), AllocError>
    ensures { OnOk result (string_bytes text.new ≡ string_bytes text.old
        ++ verdict_text verdict frames known.now (map key_shown keys.now)) }
{
    match verdict {
        Verdict::Agrees => {
            text.push_str("Layout agrees")?;
            push_counts(text, keys)
        }
        Verdict::Differs => push_differing(text, keys),
        Verdict::Doubtful => {
            push_doubt(text, has_no_right_frame(frames, known))?;
            push_counts(text, keys)
        }
        Verdict::Silent => {
            text.push_str("Layout not confirmed")?;
            push_counts(text, keys)
        }
        Verdict::NotDescribed => {
            text.push_str("Layout not confirmed: this version's types are not known\n")
        }
    }
}

/// Appends the lines that say what a process says of a layout, each with a line feed at its end: `Layout agrees: 31
/// keys told, 12 not told`; a line `Layout differs: frame.locals is 360, the process says 352` for each number that
/// does; `Layout not confirmed: ..`. In front stands the build, where it is none of the usual ones. The one error is
/// out of memory.
pub fn push_check(text: &mut String, check: &LayoutCheck) -> Result<(), AllocError>
    ensures { OnOk result (string_bytes text.new ≡ string_bytes text.old ++ check_text (check_shown check.now)) }
{
    push_build(text, check.build)?;
    push_table(text, check.other_table)?;
    push_verdict(text, check.verdict, check.frames, &check.known, &check.keys)?;
    push_known(text, &check.known)
}
