//! Tests of which tasks wait for which, over edges that are written out by hand.
#![tactic(auto)]

#[cfg(test)]
mod wait_tests;
