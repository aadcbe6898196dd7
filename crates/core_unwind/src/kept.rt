//! Registers that a call leaves as they are.
ghost use Rattle.std.specs.Prelude.{◌≡◌};
ghost use Rattle.core_unwind.specs.Registers.{is_kept, kept, register_in, stack_pointer};

use frame_rows::Machine;

/// The value of a register, if it is known.
pub(crate) fn register_in(registers: &[Option<u64>; 32], register: u64) -> Option<u64>
    ensures { result ≡ register_in registers.now register }
{
    if register < 32 {
        registers[register as usize]
    } else {
        None
    }
}

/// The number of the stack pointer.
pub(crate) fn stack_pointer(machine: Machine) -> u64
    ensures { result ≡ stack_pointer machine }
{
    match machine {
        Machine::X86_64 => 7,
        Machine::Aarch64 => 31,
    }
}

/// Whether a function gives a register back as it was: on x86-64 rbx, rbp and r12 to r15, on aarch64 x19 to x29; and
/// x30, in which the return address stands until it is saved.
fn is_kept(machine: Machine, register: u64) -> bool
    ensures { result ≡ is_kept machine register }
{
    match machine {
        Machine::X86_64 => register == 3 || register == 6 || register >= 12 && register < 16,
        Machine::Aarch64 => register >= 19 && register < 31,
    }
}

/// What the caller had in a register of which no rule speaks.
pub(crate) fn kept(
    machine: Machine,
    registers: &[Option<u64>; 32],
    cfa: u64,
    register: u64,
) -> Option<u64>
    ensures { result ≡ kept machine registers.now cfa register }
{
    if register == stack_pointer(machine) {
        return Some(cfa);
    }
    if is_kept(machine, register) {
        return register_in(registers, register);
    }
    None
}
