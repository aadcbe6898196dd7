//! Tests of native stacks that are merged, of names of functions and of paths of sources.
#![tactic(auto)]

#[cfg(test)]
mod merge_tests;
#[cfg(test)]
mod source_tests;
