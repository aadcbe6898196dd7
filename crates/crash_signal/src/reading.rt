//! A signal's record among the notes of a core.
ghost use Rattle.std.specs.Prelude.{◌≡◌, ◌≤◌, length, map};
ghost use Rattle.elf64_core.specs.Notes.{noted};
ghost use Rattle.crash_signal.specs.Signals.{call_in, cause_in, ended_by, fault_in, has_address, info_told};
ghost use Rattle.crash_signal.specs.Signals.{is_access, is_call, is_fault, is_own, is_sent, is_system, sender_in};
ghost use Rattle.crash_signal.specs.Signals.{sender_of, signal_of_status, signal_or_none, signal_told, system_cause};
ghost use Rattle.crash_signal.specs.Signals.{told_in};

use crate::told::{Cause, CrashSignal, Untold};
use elf64_core::{Note, u16_in, u32_in, u64_in};
use image_memory::{NT_PRSTATUS, NT_SIGINFO, first_desc};

/// Where the signal stands in a status record (`pr_cursig` of Linux' `elf_prstatus`), of 2 bytes; and where it ends.
const PR_CURSIG: usize = 12;

const CURSIG_END: usize = 14;

/// Where the signal and the code stand in a signal's record, of 4 bytes each; and where they end.
const SI_SIGNO: usize = 0;

const SI_CODE: usize = 8;

const CODE_END: usize = 12;

/// Where the sender stands: its process's id and its user's, of 4 bytes each; and where they end.
const SI_PID: usize = 16;

const SI_UID: usize = 20;

const SENDER_END: usize = 24;

/// Where an address stands, of 8 bytes, be it a fault's or a call's; and where it ends.
const SI_ADDR: usize = 16;

const ADDRESS_END: usize = 24;

/// Where the number of a call stands, of 4 bytes; and where it ends.
const SI_SYSCALL: usize = 24;

const CALL_END: usize = 28;

/// Whether a process sent it: by `kill`, by `sigqueue` or by `tkill`.
#[tactic(auto, unfolding(crate::specs::Signals::is_sent))]
fn is_sent(code: i32) -> bool
    ensures { result ≡ is_sent code }
{
    code == 0 || code == -1 || code == -6
}

/// Whether the system did, and filled in nothing.
#[tactic(auto, unfolding(crate::specs::Signals::is_system))]
fn is_system(code: i32) -> bool
    ensures { result ≡ is_system code }
{
    code == 128
}

/// Whether a signal is one of those of an access: SIGBUS or SIGSEGV.
fn is_access(signal: i32) -> bool
    ensures { result ≡ is_access signal }
{
    signal == 7 || signal == 11
}

/// Whether a signal is one of those that stand with an address: these, and SIGILL, SIGTRAP and SIGFPE.
#[tactic(auto, unfolding(crate::specs::Signals::is_fault))]
fn is_fault(signal: i32) -> bool
    ensures { result ≡ is_fault signal }
{
    is_access(signal) || signal == 4 || signal == 5 || signal == 8
}

/// Whether an address stands with it.
#[tactic(auto, unfolding(crate::specs::Signals::has_address))]
fn has_address(signal: i32, code: i32) -> bool
    ensures { result ≡ has_address signal code }
{
    is_fault(signal) && 0 < code && code < 128
}

/// Whether a filter of calls refused one.
#[tactic(auto, unfolding(crate::specs::Signals::is_call))]
fn is_call(signal: i32, code: i32) -> bool
    ensures { result ≡ is_call signal code }
{
    signal == 31 && code == 1
}

/// Whether the process's own id is told, and is this one.
fn is_own(own: Option<i32>, pid: i32) -> bool
    ensures { result ≡ is_own own pid }
{
    match own {
        Some(own) => own == pid,
        None => false,
    }
}

/// A sender.
fn sender_of(is_own: bool, pid: i32, uid: u32) -> Cause
    ensures { result ≡ sender_of is_own pid uid }
{
    if is_own {
        Cause::Itself { pid, uid }
    } else {
        Cause::Process { pid, uid }
    }
}

/// Who sent it; none where the record is short.
#[tactic(auto, unfolding(crate::specs::Signals::sender_in))]
fn sender_in(own: Option<i32>, info: &[u8]) -> Option<Cause>
    ensures { result ≡ sender_in own info.now }
{
    if info.len() < SENDER_END {
        return None;
    }
    let pid = u32_in(info, SI_PID).cast_signed();
    let uid = u32_in(info, SI_UID);
    Some(sender_of(is_own(own, pid), pid, uid))
}

/// The address that was wrong; none where the record is short.
#[tactic(auto, unfolding(crate::specs::Signals::fault_in))]
fn fault_in(info: &[u8]) -> Option<Cause>
    ensures { result ≡ fault_in info.now }
{
    if info.len() < ADDRESS_END {
        return None;
    }
    Some(Cause::Fault {
        address: u64_in(info, SI_ADDR),
    })
}

/// The call that was refused; none where the record is short.
#[tactic(auto, unfolding(crate::specs::Signals::call_in))]
fn call_in(info: &[u8]) -> Option<Cause>
    ensures { result ≡ call_in info.now }
{
    if info.len() < CALL_END {
        return None;
    }
    Some(Cause::Call {
        address: u64_in(info, SI_ADDR),
        number: u32_in(info, SI_SYSCALL).cast_signed(),
    })
}

/// Why the system sent it.
fn system_cause(signal: i32) -> Cause
    ensures { result ≡ system_cause signal }
{
    if is_access(signal) {
        Cause::NoAddress
    } else {
        Cause::System
    }
}

/// What a record says, by its code first; none where it is short.
#[tactic(auto, unfolding(crate::specs::Signals::cause_in))]
fn cause_in(own: Option<i32>, signal: i32, code: i32, info: &[u8]) -> Option<Cause>
    ensures { result ≡ cause_in own signal code info.now }
{
    if is_sent(code) {
        return sender_in(own, info);
    }
    if is_system(code) {
        return Some(system_cause(signal));
    }
    if has_address(signal, code) {
        return fault_in(info);
    }
    if is_call(signal, code) {
        return call_in(info);
    }
    Some(Cause::Code)
}

/// What a record says of a signal, which has to be its own.
#[tactic(auto, unfolding(crate::specs::Signals::told_in))]
fn told_in(own: Option<i32>, signal: i32, info: &[u8]) -> Result<CrashSignal, Untold>
    requires { 12 ≤ length info.now }
    ensures { result ≡ told_in own signal info.now }
{
    let found = u32_in(info, SI_SIGNO).cast_signed();
    if found != signal {
        return Err(Untold::Other { signal: found });
    }
    let code = u32_in(info, SI_CODE).cast_signed();
    match cause_in(own, signal, code, info) {
        Some(cause) => Ok(CrashSignal {
            signal,
            code,
            cause,
        }),
        None => Err(Untold::Short),
    }
}

/// What a record says of a signal.
fn info_told(own: Option<i32>, signal: i32, info: &[u8]) -> Result<CrashSignal, Untold>
    ensures { result ≡ info_told own signal info.now }
{
    if info.len() < CODE_END {
        return Err(Untold::Short);
    }
    told_in(own, signal, info)
}

/// A signal; none is 0.
fn signal_or_none(signal: i32) -> Option<i32>
    ensures { result ≡ signal_or_none signal }
{
    if signal == 0 {
        return None;
    }
    Some(signal)
}

/// The signal of a status record, where it has one.
fn signal_of_status(status: &[u8]) -> Option<i32>
    ensures { result ≡ signal_of_status status.now }
{
    if status.len() < CURSIG_END {
        return None;
    }
    signal_or_none(i32::from(u16_in(status, PR_CURSIG).cast_signed()))
}

/// The signal of the first status record, where it has one.
fn ended_by(notes: &[Note<'_>]) -> Option<i32>
    ensures { result ≡ ended_by (map noted notes.now) }
{
    match first_desc(notes, NT_PRSTATUS) {
        Some(status) => signal_of_status(status),
        None => None,
    }
}

/// How the signal came about that ended a process, by the notes of its core in table order; or why that is not told.
///
/// `own` is the process's id: that of the core's last process record, as `core_stacks::Notes` has it. The signal is
/// that of the first status record (note type 1, `pr_cursig`), and the record the first note of type `NT_SIGINFO`
/// (0x53494749), which has to be of this signal: gcore writes one with code 128 beside a record's 0. Of it are read, by
/// its code: 0, -1 and -6: the sender, of 24 bytes; 128: nothing but signal and code, of 12 bytes; 1 to 127 of SIGILL,
/// SIGTRAP, SIGBUS, SIGFPE and SIGSEGV: the address, of 24 bytes; 1 of SIGSYS: the call, of 28 bytes; of each other one
/// the code alone, of 12 bytes. A record that has fewer is short.
///
/// It takes no memory.
pub fn read_signal(own: Option<i32>, notes: &[Note<'_>]) -> Result<CrashSignal, Untold>
    ensures { result ≡ signal_told own (map noted notes.now) }
{
    let Some(signal) = ended_by(notes) else {
        return Err(Untold::NoSignal);
    };
    match first_desc(notes, NT_SIGINFO) {
        Some(info) => info_told(own, signal, info),
        None => Err(Untold::NoNote),
    }
}
