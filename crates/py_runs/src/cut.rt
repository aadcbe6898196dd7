//! Members in runs, and the borders of runs.
ghost use Rattle.std.specs.Prelude.{◌≡◌, ◌≤◌, ◌+◌, ◌++◌, IfOk, IfSome, OnOk, map};
ghost use Rattle.py_runs.specs.Cuts.{alone, c_runs, left_by, open_if, opened, plain_run, pushed_if, shim_run, spans_of};
ghost use Rattle.py_runs.specs.Cuts.{taken};

use crate::c_frame::CFrame;
use crate::member::Member;
use std::alloc::{AllocError, Global};

/// A run, as far as its members tell it.
#[derive(Clone, Copy, Debug, PartialEq, Eq)]
pub struct Span {
    /// The address of its newest member.
    pub begins: u64,
    /// The address of its oldest member.
    pub ends: u64,
    /// How many Python frames it has.
    pub frames: usize,
    /// Whether a run ends at its oldest member.
    pub is_whole: bool,
}

/// A run: what one call of the interpreter's loop executes.
#[derive(Clone, Copy, Debug, PartialEq, Eq)]
pub struct Run {
    /// How many Python frames it has.
    pub frames: usize,
    /// The address of its record on the stack, if it has one.
    pub border: Option<u64>,
}

/// A run of one member.
fn alone(shims: bool, member: Member) -> Span
    ensures { result ≡ alone shims member }
{
    let frames = if member.is_last && shims { 0 } else { 1 };
    Span {
        begins: member.address,
        ends: member.address,
        frames,
        is_whole: member.is_last,
    }
}

/// One more member behind a run that is open.
fn opened(unclosed: Option<Span>, room: usize, own: Span) -> Span
    requires few { IfSome unclosed (λ span. span.frames + own.frames ≤ room) }
    ensures { result ≡ opened unclosed own }
{
    match unclosed {
        Some(span) => Span {
            begins: span.begins,
            ends: own.ends,
            frames: span.frames + own.frames,
            is_whole: own.is_whole,
        },
        None => own,
    }
}

/// Adds a run, if it is whole; else it stays open.
fn close_into(spans: &mut Vec<Span>, span: Span) -> Result<Option<Span>, AllocError>
    ensures adds { OnOk result (spans.new.items ≡ spans.old.items ++ pushed_if span) }
    ensures unclosed { IfOk result (λ unclosed. unclosed ≡ open_if span) }
{
    if span.is_whole {
        spans.push(span)?;
        return Ok(None);
    }
    Ok(Some(span))
}

/// The runs of some members.
pub(crate) fn spans_of(
    alloc: Global,
    shims: bool,
    members: &[Member],
) -> Result<Vec<Span>, AllocError>
    ensures { IfOk result (λ spans. spans.items ≡ spans_of shims members.now) }
{
    let room = members.len();
    let mut spans = Vec::new(alloc);
    let mut unclosed = None;
    for member in members {
        let span = opened(unclosed, room, alone(shims, *member));
        unclosed = close_into(&mut spans, span)?;
    }
    match unclosed {
        Some(span) => {
            spans.push(span)?;
            Ok(spans)
        }
        None => Ok(spans),
    }
}

/// Runs without borders.
pub(crate) fn plain_runs(alloc: Global, spans: &[Span]) -> Result<Vec<Run>, AllocError>
    ensures { IfOk result (λ runs. runs.items ≡ map plain_run spans.now) }
{
    let mut runs = Vec::new(alloc);
    push_plain(&mut runs, spans)?;
    Ok(runs)
}

fn push_plain(runs: &mut Vec<Run>, spans: &[Span]) -> Result<(), AllocError>
    ensures { OnOk result (runs.new.items ≡ runs.old.items ++ map plain_run spans.now) }
{
    for span in spans {
        runs.push(Run {
            frames: span.frames,
            border: None,
        })?;
    }
    Ok(())
}

/// The border of a run from 3.12 on.
fn shim_run(span: Span) -> Run
    ensures { result ≡ shim_run span }
{
    let border = if span.is_whole { Some(span.ends) } else { None };
    Run {
        frames: span.frames,
        border,
    }
}

/// Runs with their borders from 3.12 on.
pub(crate) fn shim_runs(alloc: Global, spans: &[Span]) -> Result<Vec<Run>, AllocError>
    ensures { IfOk result (λ runs. runs.items ≡ map shim_run spans.now) }
{
    let mut runs = Vec::new(alloc);
    for span in spans {
        runs.push(shim_run(*span))?;
    }
    Ok(runs)
}

/// Adds the first run, where a C frame's current frame begins it, and answers those that are left then.
fn push_taken<'a>(
    runs: &mut Vec<Run>,
    frame: CFrame,
    spans: &'a [Span],
) -> Result<&'a [Span], AllocError>
    ensures adds { OnOk result (runs.new.items ≡ runs.old.items ++ taken frame spans.now) }
    ensures left { IfOk result (λ left. left.now ≡ left_by frame spans.now) }
{
    let Some((span, rest)) = spans.split_first() else {
        return Ok(spans);
    };
    if frame.current != span.begins {
        return Ok(spans);
    }
    runs.push(Run {
        frames: span.frames,
        border: Some(frame.address),
    })?;
    Ok(rest)
}

/// Runs with their borders in 3.11, by the C frames of the thread.
pub(crate) fn c_runs(
    alloc: Global,
    frames: &[CFrame],
    spans: &[Span],
) -> Result<Vec<Run>, AllocError>
    ensures { IfOk result (λ runs. runs.items ≡ c_runs frames.now spans.now) }
{
    let mut runs = Vec::new(alloc);
    let mut left = spans;
    for frame in frames {
        left = push_taken(&mut runs, *frame, left)?;
    }
    push_plain(&mut runs, left)?;
    Ok(runs)
}
