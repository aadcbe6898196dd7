//! Pairs by order.
ghost use Rattle.std.specs.Prelude.{◌≡◌, ◌≤◌, IfOk, IfSome, option_map, count_by};
ghost use Rattle.native_pairs.specs.Order.{ordered};

use crate::first_turn::{calls_in, without_first};
use std::alloc::{AllocError, Global};

/// Which native frames have a run, where each run is of one call of the interpreter's loop: of the native frames of a
/// thread, from the newest on, whether each is such a call, and of how many runs there are. The k-th call has the k-th
/// run. Where there is one call more the newest has none. Else there is no answer.
///
/// The one error is out of memory.
pub fn pair_by_order(
    alloc: Global,
    evals: &[bool],
    runs: usize,
) -> Result<Option<Vec<bool>>, AllocError>
    ensures pairs { IfOk result (λ takes. option_map (λ ts. ts.items) takes ≡ ordered evals.now runs) }
    // each run is had, and once
    ensures once { IfOk result (λ takes. IfSome takes (λ ts. count_by (λ t. t) ts.items ≡ runs)) }
{
    let calls = calls_in(evals);
    if calls == runs {
        let all = Vec::from_slice(alloc, evals)?;
        return Ok(Some(all));
    }
    if runs < calls && calls - runs == 1 {
        let all = without_first(alloc, evals)?;
        return Ok(Some(all));
    }
    Ok(None)
}
