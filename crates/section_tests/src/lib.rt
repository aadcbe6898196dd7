//! Tests of what the notes of a core tell of its signal and of its threads.
#![tactic(auto)]

#[cfg(test)]
mod signal_tests;
#[cfg(test)]
mod thread_tests;
