//! Ranges of addresses laid over each other: the first that holds an address wins.
ghost use Rattle.std.specs.Prelude.{◌≡◌, ◌+◌, ◌-◌, ◌<◌, ◌≤◌, ◌^◌, ◌++◌, ◌⊎◌, All, IfOk, List, [], ◌∷◌, length, drop};
ghost use Rattle.std.specs.Prelude.{map};
ghost use Rattle.elf64_core.specs.SpanTables.{AreSpans};
ghost use Rattle.piece_table.specs.Laid.{AreBelow, AreLaid, HasPieceRoom, HaveRoom, Rises, table_entry_of, overlaid};
ghost use Rattle.piece_table.specs.Laid.{part_between, parts_between};
ghost use Rattle.piece_table.specs.Overlays.{IsBoundedRange};

use elf64_core::{SpanTable, TableEntry};
use std::alloc::{AllocError, Global};

/// A piece of a range: addresses that are its alone.
#[derive(Clone, Copy)]
pub(crate) struct Owned {
    /// The addresses, and where what stands there is found.
    pub(crate) entry: TableEntry,
    /// The number of the range.
    pub(crate) owner: usize,
}

/// Addresses between pieces that come first, and what is added to the numbers of others' owners there.
#[derive(Clone, Copy)]
struct Gap {
    low: u64,
    high: u64,
    shift: usize,
}

/// The part of a piece that lies in a gap, if any does.
#[tactic(auto, unfolding(crate::specs::Laid::part_between))]
fn part_between(piece: Owned, gap: Gap) -> Option<Owned>
    requires { HasPieceRoom gap.shift piece }
    ensures { result ≡ part_between gap.low gap.high gap.shift piece }
{
    let entry = piece.entry;
    let start = entry.start.max(gap.low);
    let end = (entry.start + entry.len).min(gap.high);
    if end <= start {
        return None;
    }
    Some(Owned {
        entry: TableEntry {
            start,
            len: end - start,
            offset: entry.offset + (start - entry.start),
        },
        owner: piece.owner + gap.shift,
    })
}

/// Adds what pieces, from a number on, have in a gap. The result is the number of the first that may have
/// more further up; those before it end in the gap or before it.
fn add_between(
    made: &mut Vec<Owned>,
    under: &[Owned],
    next: usize,
    gap: Gap,
) -> Result<usize, AllocError>
    requires room { HaveRoom gap.shift under.now }
    requires rise { Rises 0 under.now }
    requires below { AreBelow gap.low next under.now }
    requires ascends { gap.low ≤ gap.high }
    ensures made { IfOk result (λ _. made.new.items
        ≡ made.old.items ++ parts_between gap.low gap.high gap.shift (drop next under.now)) }
    ensures below { IfOk result (λ number. AreBelow gap.high number under.now) }
{
    for number in next..under.len() {
        let piece = under[number];
        if let Some(part) = part_between(piece, gap) {
            made.push(part)?;
        }
        if piece.entry.start + piece.entry.len > gap.high {
            return Ok(number);
        }
    }
    Ok(under.len())
}

/// Pieces, and others in the gaps between them.
pub(crate) fn overlay(
    alloc: Global,
    over: &[Owned],
    under: &[Owned],
    shift: usize,
) -> Result<Vec<Owned>, AllocError>
    requires room { HaveRoom shift under.now }
    requires ends { HaveRoom 0 over.now }
    requires rise { Rises 0 under.now }
    requires over_rise { Rises 0 over.now }
    ensures { IfOk result (λ made. made.items ≡ overlaid shift 0 over.now under.now) }
{
    let mut made = Vec::new(alloc);
    let mut low = 0;
    let mut next = 0;
    for top in over {
        let high = top.entry.start;
        next = add_between(&mut made, under, next, Gap { low, high, shift })?;
        made.push(*top)?;
        low = high + top.entry.len;
    }
    let high = u64::MAX;
    add_between(&mut made, under, next, Gap { low, high, shift })?;
    Ok(made)
}

/// The piece of one range, if it holds any address.
fn lay_one(alloc: Global, range: TableEntry) -> Result<Vec<Owned>, AllocError>
    ensures { IfOk result (λ laid. AreLaid (range ∷ []) laid.items) }
{
    let mut laid = Vec::new(alloc);
    if range.len > 0 {
        laid.push(Owned {
            entry: range,
            owner: 0,
        })?;
    }
    Ok(laid)
}

/// The pieces of ranges, each the longest interval of addresses of which its range is the first that holds
/// them. Those of one half are laid over those of the other, so that time goes by n log n, which no clause says.
pub(crate) fn lay(alloc: Global, ranges: &[TableEntry]) -> Result<Vec<Owned>, AllocError>
    requires { All IsBoundedRange ranges.now }
    ensures { IfOk result (λ laid. AreLaid ranges.now laid.items) }
{
    match ranges {
        [] => Ok(Vec::new(alloc)),
        [range] => lay_one(alloc, *range),
        _ => {
            let (front, back) = ranges.split_at(ranges.len() / 2);
            let over = lay(alloc, front)?;
            let under = lay(alloc, back)?;
            overlay(alloc, &over, &under, front.len())
        }
    }
}

/// The addresses of pieces.
fn entries_of(alloc: Global, laid: &[Owned]) -> Result<Vec<TableEntry>, AllocError>
    ensures { IfOk result (λ entries. entries.items ≡ map table_entry_of laid.now) }
{
    laid.iter().map(|piece| piece.entry).collect(alloc)
}

/// Pieces as a table. More than 2^32 - 1 are refused for out of memory.
pub(crate) fn table_of_laid(alloc: Global, laid: &[Owned]) -> Result<SpanTable, AllocError>
    requires { length laid.now < 2 ^ 32 → AreSpans (map table_entry_of laid.now) }
    ensures { IfOk result (λ table. table ≡ map table_entry_of laid.now) }
{
    if laid.len() > u32::MAX as usize {
        return Err(AllocError);
    }
    let entries = entries_of(alloc, laid)?;
    Ok(SpanTable::of(alloc, entries))
}
