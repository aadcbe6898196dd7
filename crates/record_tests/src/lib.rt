//! Tests of records: a short file, its tables, and the records of versions.
#![tactic(auto)]

#[cfg(test)]
mod record_tests;
