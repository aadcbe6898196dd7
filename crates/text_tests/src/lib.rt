//! Tests of texts and lines, of the system's files and streams, and of what the public types of all
//! crates can do beside their calls.
#![tactic(auto)]

#[cfg(test)]
mod derive_tests;
#[cfg(test)]
mod line_tests;
#[cfg(test)]
mod system_tests;
#[cfg(test)]
mod trace_tests;
