//! How many frames are shown.
ghost use Rattle.std.specs.Prelude.{◌≡◌, ◌≤◌, IfSome, option_map};
ghost use Rattle.salvage_words.specs.Salvage.{limit_in, limit_of};

use core_words::digits_in;

/// How many first frames, and how many last ones, are shown unless it is said.
const DEFAULT_LIMIT: usize = 100;

/// A number of frames, of 1 to 4 decimal digits, from 1 to 4096.
fn limit_in(word: &str) -> Option<usize>
    ensures is { result ≡ limit_in word.now }
    ensures few { IfSome result (λ limit. limit ≤ 4096) }
{
    let Some(limit) = digits_in(10, 4, word) else {
        return None;
    };
    if limit == 0 || limit > 4096 {
        return None;
    }
    Some(limit as usize)
}

/// The same, where it is said, and else 100.
pub(crate) fn limit_of(word: Option<&str>) -> Option<usize>
    ensures is { result ≡ limit_of (option_map (λ word. word.now) word.entry) }
    ensures few { IfSome result (λ limit. limit ≤ 4096) }
{
    match word {
        Some(word) => limit_in(word),
        None => Some(DEFAULT_LIMIT),
    }
}
