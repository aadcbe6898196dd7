//! The registers of a status record.
ghost use Rattle.std.specs.Prelude.{◌≡◌, ◌≤◌, ◌+◌, ◌*◌, IfOk, length, map};
ghost use Rattle.thread_registers.specs.Names.{aarch64_names, name_of, x86_64_names};
ghost use Rattle.thread_registers.specs.Threads.{named_from, named_of, registers_from, registers_in, registers_shown};

use crate::names::{aarch64_names, x86_64_names};
use crate::threads::Register;
use elf64_core::{Machine, u64_in};
use std::alloc::{AllocError, Global};

/// Where the registers begin in a status record, and how many bytes one has of x86-64 and of aarch64.
const REGISTERS: usize = 112;

const X86_64_SIZE: usize = 336;

const AARCH64_SIZE: usize = 392;

/// Registers of these names, which follow one another.
fn named_from(
    alloc: Global,
    names: &'static [&'static str],
    status: &[u8],
) -> Result<Vec<Register>, AllocError>
    requires { 112 + 8 * length names.now ≤ length status.now }
    ensures { IfOk result (λ registers. map named_of registers.items
        ≡ named_from (map name_of names.now) status.now 112) }
{
    let mut registers = Vec::new(alloc);
    let mut at = REGISTERS;
    for name in names {
        let value = u64_in(status, at);
        registers.push(Register { name, value })?;
        at += 8;
    }
    Ok(registers)
}

/// The registers of a record of so many bytes at least; none where it has fewer.
fn registers_from(
    alloc: Global,
    size: usize,
    names: &'static [&'static str],
    status: &[u8],
) -> Result<Option<Vec<Register>>, AllocError>
    requires { 112 + 8 * length names.now ≤ size }
    ensures { IfOk result (λ registers. registers_shown registers
        ≡ registers_from size (map name_of names.now) status.now) }
{
    if status.len() < size {
        return Ok(None);
    }
    let registers = named_from(alloc, names, status)?;
    Ok(Some(registers))
}

/// The registers of x86-64.
fn x86_64_registers(alloc: Global, status: &[u8]) -> Result<Option<Vec<Register>>, AllocError>
    ensures { IfOk result (λ registers. registers_shown registers ≡ registers_from 336 x86_64_names status.now) }
{
    registers_from(alloc, X86_64_SIZE, x86_64_names(), status)
}

/// The registers of aarch64.
fn aarch64_registers(alloc: Global, status: &[u8]) -> Result<Option<Vec<Register>>, AllocError>
    ensures { IfOk result (λ registers. registers_shown registers ≡ registers_from 392 aarch64_names status.now) }
{
    registers_from(alloc, AARCH64_SIZE, aarch64_names(), status)
}

/// The registers of a status record, by its machine.
pub(crate) fn registers_in(
    alloc: Global,
    machine: Machine,
    status: &[u8],
) -> Result<Option<Vec<Register>>, AllocError>
    ensures { IfOk result (λ registers. registers_shown registers ≡ registers_in machine status.now) }
{
    match machine {
        Machine::X86_64 => x86_64_registers(alloc, status),
        Machine::Aarch64 => aarch64_registers(alloc, status),
        Machine::Other => Ok(None),
    }
}
