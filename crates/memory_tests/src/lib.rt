//! Tests of ELF files, records, tables of pieces, and the memory of a core.
#![tactic(auto)]

#[cfg(test)]
mod backed_tests;
#[cfg(test)]
mod core_tests;
#[cfg(test)]
mod elf_tests;
#[cfg(test)]
mod image_tests;
#[cfg(test)]
mod made;
#[cfg(test)]
mod piece_table_tests;
#[cfg(test)]
mod piece_tests;
#[cfg(test)]
mod record_tests;
