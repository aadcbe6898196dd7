//! Expressions of call frame information: lists of operations on a stack of words.
//!
//! An expression says where something is, or what it is, in the terms of registers and memory. It has operations that
//! have an end alone, no jump, so that each is done once. The rules are those of DWARF 5, section 2.5.1. The crate
//! reads operations, and says what those on two words come to; it knows no registers and no memory.
#![tactic(auto)]

mod operation;

pub use operation::{Combination, Operation, Read, operation_in};
