//! Tests of rows of call frame information, of expressions, and of the tables of files, written down by hand from the
//! standards.
#![tactic(auto)]

#[cfg(test)]
mod expression_tests;
#[cfg(test)]
mod row_tests;
#[cfg(test)]
mod table_tests;
