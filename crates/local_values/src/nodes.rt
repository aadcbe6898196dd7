//! How many values a value is.
ghost use Rattle.std.specs.Prelude.{◌≡◌, ◌-◌, map};
ghost use Rattle.local_values.specs.Nodes.{nodes_in, nodes_of};
ghost use Rattle.py_reprs.specs.Trees.{tree_of, trees_of};

use py_reprs::Repr;

/// How many nodes are left of so many behind a value, which takes one and one for each value within it; none where it
/// takes more.
#[cycle(nodes)]
pub(crate) fn left_after(left: u64, value: &Repr) -> u64
    ensures { result ≡ left - nodes_of (tree_of value.now) }
{
    let rest = left.saturating_sub(1);
    match value {
        Repr::Items { items, .. } => left_after_all(rest, items),
        Repr::Pairs { keys, values, .. } => {
            let behind = left_after_all(rest, keys);
            left_after_all(behind, values)
        }
        Repr::Instance { names, values, .. } => {
            let behind = left_after_all(rest, names);
            left_after_all(behind, values)
        }
        _ => rest,
    }
}

/// How many are left behind some values.
#[cycle(nodes)]
fn left_after_all(left: u64, values: &[Repr]) -> u64
    ensures { result ≡ left - nodes_in (trees_of (map tree_of values.now)) }
{
    let mut rest = left;
    for number in 0..values.len() {
        rest = left_after(rest, &values[number]);
    }
    rest
}
