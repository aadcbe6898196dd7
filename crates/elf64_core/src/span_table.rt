//! Tables of ranges of addresses, which ascend and don't meet.
ghost use Rattle.std.specs.Prelude.{◌≡◌, ◌+◌, ◌<◌, List, length, slice_get, Some};
ghost use Rattle.elf64_core.specs.SpanTables.{AreSpans};
ghost use Rattle.elf64_core.specs.declared.span_table.TableEntry.{TableEntry as Entry};

use crate::Steps;
use std::alloc::Global;
use std::marker::Model;
use std::sync::ledger::Ledger;

/// A range of addresses, and where what stands there is found.
#[derive(Debug, Clone, Copy, PartialEq, Eq)]
pub struct TableEntry {
    /// The address at which it starts.
    pub start: u64,
    /// How many addresses it has.
    pub len: u64,
    /// Where what stands at its start is found, as in a file; what stands at an address further on is found
    /// so much further on there.
    pub offset: u64,
}

/// Ranges of addresses in ascending order, none empty, of which no two meet. Each ends at 2^64 - 1 at most,
/// and there are fewer than 2^32.
///
/// Contracts see it as the list of its entries. `probe` hands an entry out, and counts a step on the counter that
/// it is given; no clause says that nothing else looks at the entries, as printing by `Debug` does.
#[derive(Debug, Drop)]
pub struct SpanTable {
    entries: Vec<TableEntry>,
}

impl Model for SpanTable {
    ghost Value = { List Entry };

    ghost view = { λ t. t.entries.items };

    ghost invariant = { λ t. AreSpans t.entries.items };
}

impl SpanTable {
    /// The table of these entries. It takes no memory.
    pub fn of(_alloc: Global, entries: Vec<TableEntry>) -> SpanTable
        requires { AreSpans entries.items }
        ensures { result ≡ entries.items }
    {
        SpanTable { entries }
    }

    /// How many entries there are.
    pub fn len(&self) -> u32
        ensures count { result ≡ length self.now }
        ensures spans { AreSpans self.now }
    {
        self.entries.len() as u32
    }

    /// The entry of a number, from 0 on. It adds one step to the counter that is handed in, and takes no memory.
    pub fn probe<L: Ledger>(&self, index: u32, steps: &mut Steps<L>) -> TableEntry
        requires { index < length self.now }
        ensures entry { slice_get self.now index ≡ Some result }
        ensures step { steps.new ≡ steps.old + 1 }
    {
        steps.tick();
        self.entries[index as usize]
    }
}
