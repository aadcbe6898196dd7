//! Cores that are judged one after the other, and their text.
ghost use Rattle.std.specs.Prelude.{◌≡◌, ◌+◌, ◌++◌, ◌∷◌, ◌<◌, ◌≤◌, ◌^◌, ℕ, [], IfOk, List, OnOk, get_or, length, map};
ghost use Rattle.core_triage.specs.Groups.{IsGrouping, groups_of};
ghost use Rattle.core_triage.specs.Keys.{compared_in, same_key};
ghost use Rattle.core_report.specs.Grouped.{IsJudgedRight, Judged, group_text, groups_text, name_line, refusal_line};
ghost use Rattle.core_report.specs.Grouped.{refusals_text};
ghost use Rattle.core_report.specs.Judging.{Keeps, kept_names, kept_refusals, refusal_seen};
ghost use Rattle.core_report.specs.Outcome.{cause_status};

use crate::cause::Cause;
use core_stacks::report;
use core_texts::{Part, push_parts};
use core_triage::{StackKey, group, key_of};
use fault_lines::core_parts;
use image_memory::Images;
use py_layout::Layouts;
use py_process::{CoreError, Report};
use py_stacks::Config;
use std::alloc::{AllocError, Global};

/// Cores that were judged, in order: those that have a report, by the keys of their stacks, and the others.
#[derive(Drop)]
pub(crate) struct JudgedCores<'a> {
    alloc: Global,
    /// The names of the cores that have a report.
    names: Vec<&'a [u8]>,
    /// Their keys.
    keys: Vec<StackKey>,
    /// The names of the others, each with the cause.
    refusals: Vec<(&'a [u8], CoreError)>,
}

impl<'a> JudgedCores<'a> {
    pub(crate) fn new(alloc: Global) -> JudgedCores<'a>
        ensures none { Keeps [] result }
        ensures empty { length result.keys.items ≡ 0 }
    {
        JudgedCores {
            alloc,
            names: Vec::new(alloc),
            keys: Vec::new(alloc),
            refusals: Vec::new(alloc),
        }
    }

    /// Judges a core of these bytes, which are dropped: its report under the default configuration, or the cause why
    /// it has none, is kept. The one error is out of memory.
    pub(crate) fn judge(
        &mut self,
        name: &'a [u8],
        bytes: Vec<u8>,
        images: &Images,
        layouts: &Layouts,
    ) -> Result<(), AllocError>
        ensures judged { OnOk result ((cores : List Judged) → Keeps cores self.old
            → (core : Judged) × (core.name ≡ name.now)
            × IsJudgedRight images.now layouts.now bytes.items core.answer × Keeps (cores ++ core ∷ []) self.new) }
        ensures few { OnOk result (length self.new.keys.items ≤ length self.old.keys.items + 1) }
    {
        match report(self.alloc, bytes, images, layouts, &Config::default()) {
            Ok(report) => {
                self.keep(name, &report)?;
                Ok(())
            }
            Err(CoreError::OutOfMemory) => Err(AllocError),
            Err(error) => {
                self.refusals.push((name, error))?;
                Ok(())
            }
        }
    }

    /// Keeps a core that has this report.
    fn keep(&mut self, name: &'a [u8], report: &Report) -> Result<(), AllocError>
        ensures kept { OnOk result ((cores : List Judged) → Keeps cores self.old
            → Keeps (cores ++ record { name = name.now; answer = Ok report.now } ∷ []) self.new) }
        ensures few { OnOk result (length self.new.keys.items ≤ length self.old.keys.items + 1) }
    {
        let key = key_of(self.alloc, &report.traces)?;
        self.names.push(name)?;
        self.keys.push(key)?;
        Ok(())
    }

    /// The groups of the cores that have a report, and then the others.
    pub(crate) fn text(&self) -> Result<Vec<u8>, AllocError>
        requires few { length self.now.keys.items < 2 ^ 32 }
        ensures text_is { IfOk result (λ text. text.items
            ≡ groups_text (kept_names self.now) 1 (groups_of same_key self.now.keys.items)
            ++ refusals_text (kept_refusals self.now)) }
        ensures grouped { OnOk result (IsGrouping (λ a b. a ≡ b) (map compared_in self.now.keys.items)
            (groups_of same_key self.now.keys.items)) }
    {
        let groups = group(self.alloc, &self.keys)?;
        let mut text = Vec::new(self.alloc);
        push_groups(&mut text, &self.names, &groups)?;
        push_refusals(&mut text, &self.refusals)?;
        Ok(text)
    }
}

/// Appends the groups, numbered from 1 on.
fn push_groups(text: &mut Vec<u8>, names: &[&[u8]], groups: &[Vec<u32>]) -> Result<(), AllocError>
    ensures { OnOk result (text.new.items ≡ text.old.items
        ++ groups_text (map (λ n. n.now) names.now) 1 (map (λ g. g.items) groups.now)) }
{
    for (place, places) in groups.iter().enumerate() {
        push_group(text, names, place as u64 + 1, places)?;
    }
    Ok(())
}

/// Appends a group, by the places of its cores' names.
fn push_group(
    text: &mut Vec<u8>,
    names: &[&[u8]],
    number: u64,
    places: &[u32],
) -> Result<(), AllocError>
    ensures { OnOk result (text.new.items ≡ text.old.items
        ++ group_text (map (λ n. n.now) names.now) number places.now) }
{
    push_parts(
        text,
        &[
            Part::Text("Group "),
            Part::Decimal(number),
            Part::Text(": "),
            Part::Decimal(places.len() as u64),
            Part::Text("\n"),
        ],
    )?;
    for place in places {
        push_name(text, name_at(names, *place))?;
    }
    Ok(())
}

/// The name at a place.
fn name_at<'n>(names: &[&'n [u8]], place: u32) -> &'n [u8]
    ensures { result.now ≡ get_or (map (λ n. n.now) names.now) place [] }
{
    match names.get(place as usize) {
        Some(name) => name,
        None => b"",
    }
}

/// Appends the line of a name.
fn push_name(text: &mut Vec<u8>, name: &[u8]) -> Result<(), AllocError>
    ensures { OnOk result (text.new.items ≡ text.old.items ++ name_line name.now) }
{
    push_parts(
        text,
        &[Part::Text("    "), Part::Bytes(name), Part::Text("\n")],
    )
}

/// Appends the cores that have no report, where there are any.
fn push_refusals(text: &mut Vec<u8>, refusals: &[(&[u8], CoreError)]) -> Result<(), AllocError>
    ensures { OnOk result (text.new.items ≡ text.old.items ++ refusals_text (map refusal_seen refusals.now)) }
{
    if refusals.is_empty() {
        return Ok(());
    }
    push_parts(
        text,
        &[
            Part::Text("Refused: "),
            Part::Decimal(refusals.len() as u64),
            Part::Text("\n"),
        ],
    )?;
    for (name, error) in refusals {
        push_refusal(text, name, error)?;
    }
    Ok(())
}

/// Appends the line of a core that has no report.
fn push_refusal(text: &mut Vec<u8>, name: &[u8], error: &CoreError) -> Result<(), AllocError>
    ensures { OnOk result (text.new.items ≡ text.old.items ++ refusal_line (name.now, error.now)) }
{
    push_parts(
        text,
        &[Part::Text("    "), Part::Bytes(name), Part::Text(": ")],
    )?;
    push_parts(text, &core_parts(error))?;
    text.extend_from_slice(b"\n")
}
