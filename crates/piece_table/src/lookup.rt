//! Looking an address up in a table.
ghost use Rattle.std.specs.Prelude.{◌≡◌, ◌<◌, false, IfSome, None, length};
ghost use Rattle.std.specs.List.{list_any};
ghost use Rattle.piece_table.specs.Lookups.{HalvesIn, IsHit};
ghost use Rattle.piece_table.specs.Overlays.{spans};

use elf64_core::{SpanTable, Steps, TableEntry};
use std::sync::ledger::Ledger;

/// The entry of a table that holds an address.
#[derive(Clone, Copy)]
pub(crate) struct Hit {
    /// Its number in the table.
    pub(crate) number: u32,
    pub(crate) entry: TableEntry,
}

/// The entry that holds an address; none exactly where no entry does. It adds as many steps to the counter that is
/// handed in as it takes to halve the table; that it looks at no entry beside these no clause says.
pub(crate) fn lookup<L: Ledger>(table: &SpanTable, addr: u64, steps: &mut Steps<L>) -> Option<Hit>
    ensures hit { IfSome result (λ hit. IsHit table.now addr hit.number hit.entry) }
    ensures none { result ≡ None → list_any (spans addr) table.now ≡ false }
    ensures steps { HalvesIn (length table.now) steps.old steps.new }
{
    let mut low = 0;
    let mut high = table.len();
    'halves: while low < high {
        let number = low + (high - low) / 2;
        let entry = table.probe(number, steps);
        if addr < entry.start {
            high = number;
        } else if addr - entry.start < entry.len {
            return Some(Hit { number, entry });
        } else {
            low = number + 1;
        }
    }
    None
}
