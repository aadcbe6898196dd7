//! Why records are refused.
use elf64_core::Text;
use thiserror::Error;

/// Why records are refused, in the order in which the causes are looked for.
///
/// Tables are counted from 0, in the order of the file or list.
#[derive(Debug, Drop, Error, PartialEq, Eq)]
pub enum RecordsError {
    /// The file is not TOML.
    #[error("not TOML")]
    NotToml,
    /// A key is missing, has the wrong kind, or is unknown.
    #[error("table {table}: the key {}", .key.as_str())]
    Shape { table: u64, key: Text },
    /// The records of this table are not sound.
    #[error("table {table} is unsound")]
    Unsound { table: u64 },
    /// These two tables have the same group for one version.
    #[error("tables {first} and {second} have the same group for one version")]
    Clash { first: u64, second: u64 },
    /// There was no memory left.
    #[error("out of memory")]
    OutOfMemory,
}
