//! Tests of what is read in files or words: versions, layouts, tables of lines, maps, symbols, words of commands.
#![tactic(auto)]

#[cfg(test)]
mod bpf_tests;
#[cfg(test)]
mod encode_tests;
#[cfg(test)]
mod layout_tests;
#[cfg(test)]
mod line_tests;
#[cfg(test)]
mod maps_tests;
#[cfg(test)]
mod normalize_tests;
#[cfg(test)]
mod symbol_tests;
#[cfg(test)]
mod version_tests;
#[cfg(test)]
mod word_tests;
