//! A stack of words.
ghost use Rattle.std.specs.Prelude.{◌≤◌};

/// The stack of an expression: the first so many of some words, the last of which is on top.
#[derive(Clone, Copy)]
pub(crate) struct Words {
    pub(crate) words: [u64; 64],
    pub(crate) depth: usize,
    ghost within: { depth ≤ 64 },
}
