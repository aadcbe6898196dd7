//! Tests of native stacks, over a file and memories that are written out by hand.
#![tactic(auto)]

#[cfg(test)]
mod mark_tests;
#[cfg(test)]
mod stack_tests;
