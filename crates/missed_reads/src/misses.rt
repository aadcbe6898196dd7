//! Blocks of memory that were asked for and are not there.
ghost use Rattle.std.specs.Prelude.{◌≡◌, ◌<◌, ◌≤◌, ◌^◌};
ghost use Rattle.std.specs.Bool.{OnTrue};
ghost use Rattle.std.specs.BTreeSet.{BTreeSet, btree_set_len, IsEmpty};
ghost use Rattle.missed_reads.specs.Refused.{Refused, Has, HasBlocks, AddsOne, AddsThese, Adds};

use std::alloc::Global;
use std::collections::BTreeSet;
use std::marker::Model;

/// How many bytes a block has. Block number n starts at the address n times this.
pub const BLOCK: u64 = 0x1_0000;

/// How many blocks are kept at most.
pub const LIMIT: usize = 4096;

/// The blocks that some ranges lie in, by their numbers, at most 4,096 of them; and how many ranges there were
/// besides that don't lie in these, since there was no room for another block, or no memory.
#[derive(Drop)]
pub struct Misses {
    blocks: BTreeSet<u64>,
    above: u64,
}

impl Model for Misses {
    ghost Value = { Refused };

    ghost view = { λ m. record { blocks = m.blocks; above = m.above } };

    ghost invariant = { λ m. btree_set_len m.blocks ≤ 4096 };
}

impl Misses {
    /// No ranges so far. It takes no memory.
    pub fn new(alloc: Global) -> Misses
        ensures none { IsEmpty result.blocks }
        ensures above { result.above ≡ 0 }
    {
        Misses {
            blocks: BTreeSet::new(alloc),
            above: 0,
        }
    }

    /// One range more, of `len` bytes from `addr` on. Where there is no room for a block of it, or no memory, it
    /// is counted.
    pub fn add(&mut self, addr: u64, len: u64)
        ensures { Adds self.old self.new addr len }
    {
        if len == 0 {
            return;
        }
        let last = addr.saturating_add(len - 1);
        if !add_blocks(&mut self.blocks, addr / BLOCK, last / BLOCK) {
            self.above = self.above.saturating_add(1);
        }
    }

    /// The numbers of the blocks, ascending.
    pub fn blocks(&self) -> &BTreeSet<u64>
        ensures blocks { result.now ≡ self.now.blocks }
        ensures few { btree_set_len result.now ≤ 4096 }
    {
        &self.blocks
    }

    /// How many ranges don't lie in the blocks.
    pub fn above(&self) -> u64
        ensures { result ≡ self.now.above }
    {
        self.above
    }
}

/// Keeps one block, if there is room and memory for it. Whether it is kept.
fn add_block(blocks: &mut BTreeSet<u64>, number: u64) -> bool
    ensures adds { AddsOne blocks.old blocks.new number }
    ensures kept { OnTrue result (Has blocks.new number) }
    ensures few { btree_set_len blocks.old ≤ 4096 → btree_set_len blocks.new ≤ 4096 }
{
    if blocks.len() < LIMIT {
        blocks.insert(number).is_ok()
    } else {
        blocks.contains(&number)
    }
}

/// Keeps the blocks from `first` to `last`, in order, as long as there is room. Whether all of them are kept.
fn add_blocks(blocks: &mut BTreeSet<u64>, first: u64, last: u64) -> bool
    requires { last < 2 ^ 48 }
    ensures adds { AddsThese blocks.old blocks.new first last }
    ensures kept { OnTrue result (HasBlocks blocks.new first last) }
    ensures few { btree_set_len blocks.old ≤ 4096 → btree_set_len blocks.new ≤ 4096 }
{
    for number in first..last + 1 {
        if !add_block(blocks, number) {
            return false;
        }
    }
    true
}
