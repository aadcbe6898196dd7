//! Keys that are equal, in groups.
ghost use Rattle.std.specs.Prelude.{◌≡◌, ◌<◌, ◌^◌, ◌↔◌, true, IfOk, length, map};
ghost use Rattle.core_triage.specs.Groups.{IsGrouping, groups_of};
ghost use Rattle.core_triage.specs.Keys.{compared_in, same_key};
ghost use Rattle.core_triage.specs.declared.key.StackKey.{StackKey as Key};

use crate::key::StackKey;
use std::alloc::{AllocError, Global};
use std::collections::BTreeMap;

/// The keys in groups of those that are equal: each group has the places of its keys, from 0 on and ascending, and
/// groups stand in the order of their first places. Each key's place stands in one group, and once; two places stand
/// in one group exactly where what is compared of the keys there is equal; and no group is empty.
///
/// It asks for fewer than 2^32 keys. The one error is out of memory. A map of the keys tells the group of each, so
/// that n keys take n log n comparisons.
pub fn group(alloc: Global, keys: &[StackKey]) -> Result<Vec<Vec<u32>>, AllocError>
    requires few { length keys.now < 2 ^ 32 }
    ensures right { IfOk result (λ groups. map (λ g. g.items) groups.items ≡ groups_of same_key keys.now) }
    ensures grouping { IfOk result (λ groups. IsGrouping (λ a b. a ≡ b) (map compared_in keys.now)
        (map (λ g. g.items) groups.items)) }
    ensures equal { (a b : Key) → (same_key a b ≡ true) ↔ (compared_in a ≡ compared_in b) }
{
    let mut groups: Vec<Vec<u32>> = Vec::new(alloc);
    let mut numbers: BTreeMap<&StackKey, usize> = BTreeMap::new(alloc);
    for (place, key) in keys.iter().enumerate() {
        match numbers.get(&key).copied() {
            Some(number) => groups[number].push(place as u32)?,
            None => {
                numbers.insert(key, groups.len())?;
                groups.push(vec![in alloc; place as u32]?)?;
            }
        }
    }
    Ok(groups)
}
