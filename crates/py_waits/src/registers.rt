//! The word at which a thread stands in the system.
ghost use Rattle.std.specs.Prelude.{◌≡◌, length};
ghost use Rattle.py_waits.specs.Registers.{aarch64_futex, futex_of, x86_64_futex};

use elf64_core::{Machine, u64_in};

/// How many bytes a status record has at least, of each machine.
const X86_64_SIZE: usize = 336;

const AARCH64_SIZE: usize = 392;

/// The word of a thread of x86-64: the number of its call stands in `orig_rax`, and the first argument in `rdi`. A call
/// that is begun again after a stop (`restart_syscall`) keeps its arguments.
#[tactic(auto, unfolding(crate::specs::Registers::x86_64_futex))]
fn x86_64_futex(status: &[u8]) -> Option<u64>
    ensures { result ≡ x86_64_futex status.now }
{
    if status.len() < X86_64_SIZE {
        return None;
    }
    let call = u64_in(status, 232);
    if call == 202 || call == 219 {
        return Some(u64_in(status, 224));
    }
    None
}

/// The same of aarch64: `x8` and `x0`.
#[tactic(auto, unfolding(crate::specs::Registers::aarch64_futex))]
fn aarch64_futex(status: &[u8]) -> Option<u64>
    ensures { result ≡ aarch64_futex status.now }
{
    if status.len() < AARCH64_SIZE {
        return None;
    }
    let call = u64_in(status, 176);
    if call == 98 || call == 128 {
        return Some(u64_in(status, 112));
    }
    None
}

/// The address of the word at which a thread stands in the system call `futex`, by its status record (note type 1, of
/// 336 bytes at least on x86-64, and of 392 on aarch64); none where it stands elsewhere, and on other machines. A
/// thread that runs has another number where that of its call stands.
pub fn futex_of(machine: Machine, status: &[u8]) -> Option<u64>
    ensures { result ≡ futex_of machine status.now }
{
    match machine {
        Machine::X86_64 => x86_64_futex(status),
        Machine::Aarch64 => aarch64_futex(status),
        Machine::Other => None,
    }
}
