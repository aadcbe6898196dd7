//! What is found of a Python process.
use py_layout::{Layout, Version};
use py_process::BinaryInfo;
use py_stacks::Addresses;

/// What is found of a process: its version, the layout that covers it, and where its interpreter and the lock are.
#[derive(Drop)]
pub(crate) struct Found {
    pub(crate) version: Version,
    pub(crate) layout: Layout,
    pub(crate) addresses: Addresses,
}

/// What the images of a process's program and of Python's library say, each where it is handed in and says something.
#[derive(Debug, Drop)]
pub struct PythonBinaries {
    pub program: Option<BinaryInfo>,
    pub library: Option<BinaryInfo>,
}
