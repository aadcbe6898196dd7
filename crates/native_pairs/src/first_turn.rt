//! Flags without the first that is set.
ghost use Rattle.std.specs.Prelude.{◌≡◌, ◌&&◌, not, IfOk};
ghost use Rattle.native_pairs.specs.Order.{calls_in, without_first};

use std::alloc::{AllocError, Global};

/// How many are set.
pub(crate) fn calls_in(evals: &[bool]) -> usize
    ensures { result ≡ calls_in evals.now }
{
    let mut count = 0;
    for is_eval in evals {
        if *is_eval {
            count += 1;
        }
    }
    count
}

/// Whether a flag is set that is not the first.
fn is_turn(is_eval: bool, is_first: bool) -> bool
    ensures { result ≡ (is_eval && not is_first) }
{
    is_eval && !is_first
}

/// Whether the next one that is set is the first.
fn stays_first(is_first: bool, is_eval: bool) -> bool
    ensures { result ≡ (is_first && not is_eval) }
{
    is_first && !is_eval
}

/// All of them, but without the first that is set.
pub(crate) fn without_first(alloc: Global, evals: &[bool]) -> Result<Vec<bool>, AllocError>
    ensures { IfOk result (λ others. others.items ≡ without_first evals.now) }
{
    let mut others = Vec::new(alloc);
    let mut is_first = true;
    for is_eval in evals {
        others.push(is_turn(*is_eval, is_first))?;
        is_first = stays_first(is_first, *is_eval);
    }
    Ok(others)
}
