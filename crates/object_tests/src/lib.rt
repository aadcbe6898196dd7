//! Tests of Python objects, names, stacks and interpreters over memories that are written out by hand.
#![tactic(auto)]

#[cfg(test)]
mod dict_tests;
#[cfg(test)]
mod interpreter_tests;
#[cfg(test)]
mod made;
#[cfg(test)]
mod name_tests;
#[cfg(test)]
mod stack_tests;
