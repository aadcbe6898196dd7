//! Tests of what threads raise and handle, over memories that are written out by hand.
#![tactic(auto)]

#[cfg(test)]
mod made;
#[cfg(test)]
mod thread_tests;
