//! Tests of where types stand and of what instances have, over memories that are written out by hand.
#![tactic(auto)]

#[cfg(test)]
mod attribute_tests;
#[cfg(test)]
mod layout_tests;
#[cfg(test)]
mod made;
#[cfg(test)]
mod place_tests;
