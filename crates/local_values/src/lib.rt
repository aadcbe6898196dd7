//! The values of the locals of the frames that are shown of a broken process, by their addresses.
//!
//! Of each local a frame keeps the address of its value. Each such address is read once in each round, however many
//! locals have it, in the order in which the frames are shown. No value is begun once those before it have so many
//! nodes together; what is left out is counted. The name of its type is read at each address.
#![tactic(auto)]

mod addresses;
mod nodes;
mod types;
mod values;

pub use addresses::shown_addresses;
pub use values::{LocalValues, read_local_values};

#[cfg(test)]
mod tests;
