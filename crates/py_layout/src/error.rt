//! Why layouts are refused.
use elf64_core::Text;
use thiserror::Error;

/// Why layouts are refused, in the order in which the causes are looked for.
///
/// Tables are counted from 0, in the order of the file or list.
#[derive(Debug, Drop, Error, PartialEq, Eq)]
pub enum LayoutError {
    /// The file is not TOML.
    #[error("not TOML")]
    NotToml,
    /// A key is missing, has the wrong kind, or is unknown.
    #[error("table {table}: the key {}", .key.as_str())]
    Shape { table: u64, key: Text },
    /// The layout of this table is not sound.
    #[error("table {table} is unsound")]
    Unsound { table: u64 },
    /// The layouts of these two tables cover one version.
    #[error("tables {first} and {second} clash")]
    Clash { first: u64, second: u64 },
    /// There was no memory left.
    #[error("out of memory")]
    OutOfMemory,
}
