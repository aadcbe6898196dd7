//! Tests of runs over files and streams that fail, and over files that are cut.
#![tactic(auto)]

#[cfg(test)]
mod made;
#[cfg(test)]
mod run_tests;
