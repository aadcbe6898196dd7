//! The lines of threads.
ghost use Rattle.std.specs.Prelude.{◌≡◌, ◌<◌, ◌^◌, ◌-◌, ◌++◌, [], false, OnOk, map, string_bytes};
ghost use Rattle.std.specs.Fmt.{digits, format_spec, padded_integral};
ghost use Rattle.thread_registers.specs.Text.{cell_text, cells_text, lead_text, name_cell, next_column};
ghost use Rattle.thread_registers.specs.Text.{registers_text, thread_text, threads_text, whose_text};
ghost use Rattle.thread_registers.specs.Threads.{named_of, registers_shown, thread_shown};
ghost use Rattle.py_objects.specs.ShownTexts.{hex_of};

use crate::threads::{Register, ThreadRegisters, Whose};
use std::alloc::AllocError;

/// Whose thread it is.
fn push_whose(text: &mut String, whose: Whose) -> Result<(), AllocError>
    ensures { OnOk result (string_bytes text.new ≡ string_bytes text.old ++ whose_text whose) }
{
    match whose {
        Whose::Python(found) => {
            let id = found.thread_id;
            write!(text, " (Python's 0x{id:X})")
        }
        Whose::Other => text.push_str(" (none of Python's)"),
        Whose::Untold => text.push_str(" (whose is not told)"),
    }
}

/// A name, with spaces before it.
fn push_name(text: &mut String, name: &str) -> Result<(), AllocError>
    ensures { OnOk result (string_bytes text.new ≡ string_bytes text.old ++ name_cell name.now) }
{
    write!(text, "{name:>8}")
}

fn push_padded(text: &mut String, value: u64) -> Result<(), AllocError>
    ensures { OnOk result (string_bytes text.new ≡ string_bytes text.old
        ++ padded_integral (format_spec 32 0 4 16 (2 ^ 64 - 1)) false [] (digits 16 false value)) }
{
    write!(text, "{value:016x}")
}

/// A value in 16 hexadecimal digits.
fn push_value(text: &mut String, value: u64) -> Result<(), AllocError>
    ensures { OnOk result (string_bytes text.new ≡ string_bytes text.old ++ hex_of 16 value) }
{
    push_padded(text, value)
}

/// A register.
fn push_cell(text: &mut String, register: &Register) -> Result<(), AllocError>
    ensures { OnOk result (string_bytes text.new ≡ string_bytes text.old ++ cell_text (named_of register.now)) }
{
    text.push_str(" ")?;
    push_name(text, register.name)?;
    text.push_str(" ")?;
    push_value(text, register.value)
}

/// What begins a line of registers.
fn push_lead(text: &mut String, column: u32) -> Result<(), AllocError>
    ensures { OnOk result (string_bytes text.new ≡ string_bytes text.old ++ lead_text column) }
{
    if column == 0 {
        return text.push_str("\n   ");
    }
    Ok(())
}

/// The column after one.
fn next_column(column: u32) -> u32
    requires { column < 4 }
    ensures is { result ≡ next_column column }
    ensures below { result < 4 }
{
    if column == 3 { 0 } else { column + 1 }
}

/// Registers, four a line.
fn push_cells(text: &mut String, registers: &[Register]) -> Result<(), AllocError>
    ensures { OnOk result (string_bytes text.new
        ≡ string_bytes text.old ++ cells_text 0 (map named_of registers.now)) }
{
    let mut column = 0;
    for register in registers {
        push_lead(text, column)?;
        push_cell(text, register)?;
        column = next_column(column);
    }
    text.push_str("\n")
}

fn push_registers(text: &mut String, registers: &Option<Vec<Register>>) -> Result<(), AllocError>
    ensures { OnOk result (string_bytes text.new
        ≡ string_bytes text.old ++ registers_text (registers_shown registers.now)) }
{
    match registers {
        Some(registers) => push_cells(text, registers),
        None => text.push_str(": no registers\n"),
    }
}

/// The lines of a thread.
fn push_thread(text: &mut String, thread: &ThreadRegisters) -> Result<(), AllocError>
    ensures { OnOk result (string_bytes text.new ≡ string_bytes text.old ++ thread_text (thread_shown thread.now)) }
{
    let id = thread.system_id;
    write!(text, "Thread {id}")?;
    push_whose(text, thread.whose)?;
    push_registers(text, &thread.registers)
}

/// Appends the lines of threads, in order: of each `Thread` with the id that the system gave it, in decimal, and whose
/// it is: `(Python's 0x7F..)` with the id that the interpreter gave, `(none of Python's)` or `(whose is not told)`; and
/// below, four a line, its registers by name, each with 16 hexadecimal digits, or in the same line `: no registers`.
/// The one error is out of memory.
pub fn push_threads(text: &mut String, threads: &[ThreadRegisters]) -> Result<(), AllocError>
    ensures { OnOk result (string_bytes text.new
        ≡ string_bytes text.old ++ threads_text (map thread_shown threads.now)) }
{
    for thread in threads {
        push_thread(text, thread)?;
    }
    Ok(())
}
