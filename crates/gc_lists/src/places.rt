//! Where the collector's lists stand.

/// The record that has the lists.
#[derive(Debug, Clone, Copy, PartialEq, Eq)]
pub enum Home {
    /// The runtime's (`_PyRuntime`): all interpreters of a process have the lists in common.
    Runtime,
    /// Each interpreter's own.
    Interpreter,
}

/// Where the lists stand in a record, in bytes from its start on, and how a link is read.
#[derive(Debug, Clone, Copy, PartialEq, Eq)]
pub struct ListPlaces {
    /// The record that has them.
    pub home: Home,
    /// The head of generation 0.
    pub generations: u64,
    /// How far the head of the next generation stands behind that of one.
    pub generation_size: u64,
    /// The head of the permanent generation.
    pub permanent: u64,
    /// The 4 bytes that say whether a collection runs.
    pub collecting: u64,
    /// An object stands so far behind its head.
    pub head_size: u64,
    /// The bits of a link that make the address.
    pub mask: u64,
    /// Whether heads are believed only where their own links are right.
    pub heads_are_checked: bool,
}
