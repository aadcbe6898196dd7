//! What completes what, by what is completed.
ghost use Rattle.std.specs.Prelude.{◌≡◌, ℕ, ◌++◌, IfOk, OnOk, option_to_list};
ghost use Rattle.std.specs.List.{Contains};
ghost use Rattle.std.specs.BTreeMap.{BTreeMap, get};
ghost use Rattle.std.specs.Ordering.{nat_cmp};
ghost use Rattle.task_edges.specs.Edges.{source_if, sources_in, sources_of};

use std::alloc::{AllocError, Global};
use std::collections::BTreeMap;

/// That the completion of a future or a task completes another one, or wakes it.
#[derive(Debug, Clone, Copy, Drop, PartialEq, Eq)]
pub struct Edge {
    /// The address of the one that is completed first.
    pub from: u64,
    /// The address of the one that this completes, or of the task that it wakes.
    pub to: u64,
}

/// The sources of an object, which are taken out.
fn take_sources(alloc: Global, index: &mut BTreeMap<u64, Vec<u64>>, to: u64) -> Vec<u64>
    ensures taken { result.items ≡ sources_in index.old to }
    ensures left { (q : ℕ) → (q ≡ to → ⊥) → sources_in index.new q ≡ sources_in index.old q }
{
    match index.remove(&to) {
        Some(sources) => sources,
        None => Vec::new(alloc),
    }
}

/// Adds an edge.
fn add_edge(
    alloc: Global,
    index: &mut BTreeMap<u64, Vec<u64>>,
    edge: Edge,
) -> Result<(), AllocError>
    ensures { OnOk result ((q : ℕ) → sources_in index.new q
        ≡ sources_in index.old q ++ option_to_list (source_if q edge)) }
{
    let mut sources = take_sources(alloc, index, edge.to);
    sources.push(edge.from)?;
    index.insert(edge.to, sources)?;
    Ok(())
}

/// The edges, by what they complete.
pub(crate) fn index_of(alloc: Global, edges: &[Edge]) -> Result<BTreeMap<u64, Vec<u64>>, AllocError>
    ensures { IfOk result (λ index. (q : ℕ) → sources_in index q ≡ sources_of edges.now q) }
{
    let mut index = BTreeMap::new(alloc);
    for edge in edges {
        add_edge(alloc, &mut index, *edge)?;
    }
    Ok(index)
}
