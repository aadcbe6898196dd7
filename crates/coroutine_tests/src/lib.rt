//! Tests of what coroutines await, over memories that are written out by hand.
#![tactic(auto)]

#[cfg(test)]
mod apart_tests;
#[cfg(test)]
mod chains;
#[cfg(test)]
mod inside_tests;
#[cfg(test)]
mod made;
