//! What is asked for, and what is answered.
use crate::UserMeta;

/// What is asked of one call. The default is neither.
#[derive(Clone, Debug, Default, Drop)]
pub struct NormalizeOpts {
    /// The addresses are said to be sorted: none is below the one before it. It is looked at.
    pub sorted_addrs: bool,
    /// A file is reported by the process and the range that it was mapped to, `/proc/PID/map_files/START-END`,
    /// and not by the path that it had.
    pub map_files: bool,
}

/// What addresses are reported as.
#[derive(Debug, Drop)]
pub struct Output<M> {
    /// For each address, in the order of the addresses, its offset in its file, in bytes, or the address itself
    /// where it lies in no file; and the number in `meta` of what it belongs to.
    pub outputs: Vec<(u64, usize)>,
    /// What addresses belong to, in the order in which the ascending addresses first meet it.
    pub meta: Vec<M>,
}

/// What addresses of a process are reported as.
pub type UserOutput = Output<UserMeta>;
