//! The outputs of addresses.
ghost use Rattle.std.specs.Prelude.{◌≡◌, ◌⊎◌, true, false, map, MatchResult, SomeIff};
ghost use Rattle.std.specs.List.{list_any};
ghost use Rattle.normalize_core.specs.Met.{output_by};
ghost use Rattle.normalize_core.specs.Order.{in_order};
ghost use Rattle.normalize_core.specs.Targets.{overflows};
ghost use Rattle.normalize_core.specs.declared.error.NormalizeError.{NormalizeError};

use crate::NormalizeError;
use crate::metas::Metas;
use crate::query::{Query, covering, target, value};
use std::alloc::Global;

/// The output of an address; none where its place in its file passes 2^64 - 1.
fn output(query: &Query<'_>, metas: &Metas<'_>, addr: u64) -> Option<(u64, usize)>
    requires { in_order query.now.entries ≡ true }
    ensures { SomeIff result (overflows query.now.entries addr ≡ false) (output_by query.now metas.now addr) }
{
    let entry = covering(query.entries, addr);
    let value = value(entry, addr)?;
    let number = metas.number(target(entry, query.map_files));
    Some((value, number))
}

/// The outputs of addresses, in their order.
pub(crate) fn outputs(
    alloc: Global,
    query: &Query<'_>,
    metas: &Metas<'_>,
    addrs: &[u64],
) -> Result<Vec<(u64, usize)>, NormalizeError>
    requires { in_order query.now.entries ≡ true }
    ensures { MatchResult result
        (λ outputs. (list_any (overflows query.now.entries) addrs.now ≡ false)
        × (outputs.items ≡ map (output_by query.now metas.now) addrs.now))
        (λ error. (error ≡ NormalizeError.OutOfMemory)
        ⊎ ((error ≡ NormalizeError.OffsetOverflow) × (list_any (overflows query.now.entries) addrs.now ≡ true))) }
{
    let mut outputs = Vec::with_capacity(alloc, addrs.len())?;
    for addr in addrs {
        let Some(output) = output(query, metas, *addr) else {
            return Err(NormalizeError::OffsetOverflow);
        };
        outputs.push(output)?;
    }
    Ok(outputs)
}
