//! Where an interpreter of a version has what, in bytes from `_PyRuntime` on.
ghost use Rattle.std.specs.Prelude.{◌≡◌};
ghost use Rattle.py_fields.specs.Offsets.{current_of_3, interp_head_offset, is_cinder, tstate_current_offset};

use crate::Version;
use elf64_core::{Machine, Text};

/// Where the address of the newest interpreter lies in `_PyRuntime`: at 32 bytes for 3.8 to 3.10, at 40 for
/// 3.11 and 3.12, and at 24 for every other version.
///
/// The numbers are this project's own; that a real CPython has them is trusted.
#[tactic(auto, unfolding(crate::specs::Offsets::interp_head_offset))]
pub fn get_interp_head_offset(version: &Version) -> u64
    ensures { result ≡ interp_head_offset version.now }
{
    match (version.major, version.minor) {
        (3, 8..=10) => 32,
        (3, 11..=12) => 40,
        _ => 24,
    }
}

/// Whether the metadata is that of Cinder, whose records are larger.
fn is_cinder(metadata: &Option<Text>) -> bool
    ensures { result ≡ is_cinder metadata.now }
{
    match metadata {
        Some(metadata) => metadata.as_str() == "cinder",
        None => false,
    }
}

/// The offset of the current thread in `_PyRuntime` for a version of major 3.
fn current_of_3(machine: Machine, version: &Version) -> Option<u64>
    ensures { result ≡ current_of_3 machine version.now }
{
    match (machine, version.minor) {
        (Machine::X86_64, 7) => Some(if version.patch <= 3 { 1392 } else { 1480 }),
        (Machine::X86_64, 8) => Some(if is_cinder(&version.build_metadata) {
            1384
        } else {
            1368
        }),
        (Machine::X86_64, 9..=10) => Some(568),
        (Machine::X86_64, 11) => Some(576),
        (Machine::Aarch64, 7) => Some(if version.patch <= 3 { 1408 } else { 1496 }),
        (Machine::Aarch64, 8) => Some(1384),
        (Machine::Aarch64, 9..=10) => Some(584),
        (Machine::Aarch64, 11) => Some(592),
        _ => None,
    }
}

/// Where the address of the thread that holds the interpreter lock lies in `_PyRuntime`, in bytes:
///
/// | machine | 3.7.0 to 3.7.3 | later 3.7 | 3.8 | 3.9, 3.10 | 3.11 |
/// |---|---|---|---|---|---|
/// | x86-64 | 1392 | 1480 | 1368, or 1384 with metadata `cinder` | 568 | 576 |
/// | aarch64 | 1408 | 1496 | 1384 | 584 | 592 |
///
/// `None` for every other version and machine. The numbers are this project's own; that a real CPython has
/// them is trusted.
#[tactic(auto, unfolding(crate::specs::Offsets::tstate_current_offset))]
pub fn get_tstate_current_offset(machine: Machine, version: &Version) -> Option<u64>
    ensures { result ≡ tstate_current_offset machine version.now }
{
    if version.major == 3 {
        current_of_3(machine, version)
    } else {
        None
    }
}
