//! Tests of what values are written as, beside what Python's `repr` writes.
#![tactic(auto)]

#[cfg(test)]
mod float_tests;
#[cfg(test)]
mod integer_tests;
#[cfg(test)]
mod quote_tests;
#[cfg(test)]
mod value_tests;
