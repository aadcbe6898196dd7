//! Tests of what is counted of objects, over memories that are written out by hand.
#![tactic(auto)]

#[cfg(test)]
mod count_tests;
