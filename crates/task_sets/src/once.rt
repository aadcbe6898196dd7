//! Each of some addresses once.
ghost use Rattle.std.specs.Prelude.{◌≡◌, IfOk, []};
ghost use Rattle.task_sets.specs.Once.{firsts};

use std::alloc::{AllocError, Global};
use std::collections::BTreeSet;

/// Each of some addresses once, in the order of its first place.
pub(crate) fn once(alloc: Global, addresses: &[u64]) -> Result<Vec<u64>, AllocError>
    ensures { IfOk result (λ list. list.items ≡ firsts [] addresses.now) }
{
    let mut list = Vec::new(alloc);
    let mut met = BTreeSet::new(alloc);
    for address in addresses {
        if !met.contains(address) {
            list.push(*address)?;
            met.insert(*address)?;
        }
    }
    Ok(list)
}
