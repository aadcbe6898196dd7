//! Tests of programs, of their cores and images, and of what is read of these.
#![tactic(auto)]

#[cfg(test)]
mod core_tests;
#[cfg(test)]
mod image_tests;
#[cfg(test)]
mod program_tests;
#[cfg(test)]
mod report_tests;
