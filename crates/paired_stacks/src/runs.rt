//! The runs of a thread, by their sizes and their borders.
ghost use Rattle.std.specs.Prelude.{◌≡◌, nat_eq, IfOk, map};
ghost use Rattle.std.specs.List.{sum};
ghost use Rattle.paired_stacks.specs.Laid.{border_of, size_of};

use py_runs::Run;
use std::alloc::{AllocError, Global};

/// How many Python frames each run has.
pub(crate) fn sizes_of(alloc: Global, runs: &[Run]) -> Result<Vec<usize>, AllocError>
    ensures { IfOk result (λ sizes. sizes.items ≡ map size_of runs.now) }
{
    let mut sizes = Vec::new(alloc);
    for run in runs {
        sizes.push(run.frames)?;
    }
    Ok(sizes)
}

/// The border of each run, if it has one.
pub(crate) fn borders_of(alloc: Global, runs: &[Run]) -> Result<Vec<Option<u64>>, AllocError>
    ensures { IfOk result (λ borders. borders.items ≡ map border_of runs.now) }
{
    let mut borders = Vec::new(alloc);
    for run in runs {
        borders.push(run.border)?;
    }
    Ok(borders)
}

/// Whether so many frames are there in all.
pub(crate) fn are_all(sizes: &[usize], total: u128) -> bool
    ensures { result ≡ nat_eq (sum sizes.now) total }
{
    let mut left = total;
    for size in sizes {
        let size = *size as u128;
        if size > left {
            return false;
        }
        left -= size;
    }
    left == 0
}
