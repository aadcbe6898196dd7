//! Tests of what stands on the heap, over memories that are written out by hand.
#![tactic(auto)]

#[cfg(test)]
mod list_tests;
