//! What a core's notes say of the process and its threads.
ghost use Rattle.std.specs.Prelude.{◌≡◌, ◌≤◌, length};
ghost use Rattle.elf64_core.specs.Notes.{noted};
ghost use Rattle.image_memory.specs.Notes.{status_in, process_in, status_noted, process_of};

use elf64_core::{Note, u16_in, u32_in};

/// The type of a status record: of a thread, with its registers (Linux's `elf.h`, as those below).
pub const NT_PRSTATUS: u32 = 1;

/// The type of a process record.
pub const NT_PRPSINFO: u32 = 3;

/// The type of the auxiliary vector.
pub const NT_AUXV: u32 = 6;

/// The type of a file table.
pub const NT_FILE: u32 = 0x46494c45;

/// The type of the record of the signal that the process got (`siginfo_t`).
pub const NT_SIGINFO: u32 = 0x53494749;

/// How many bytes a status record has at least.
pub(crate) const STATUS_SIZE: usize = 112;

/// How many bytes a process record has at least.
pub(crate) const PROCESS_SIZE: usize = 136;

/// Where `pr_cursig` and `pr_pid` stand in a status record of a 64-bit process, in bytes.
const PR_CURSIG: usize = 12;

const STATUS_PR_PID: usize = 32;

/// Where `pr_pid`, `pr_fname` and `pr_psargs` stand in a process record, which the last of them ends.
const PROCESS_PR_PID: usize = 24;

const PR_FNAME: usize = 40;

const PR_PSARGS: usize = 56;

/// A status record, of a thread (Linux's `elf_prstatus`): the fields that are read.
#[derive(Clone, Copy, Debug)]
pub struct elf_prstatus {
    /// The signal that the thread got.
    pub pr_cursig: i16,
    /// The thread's id.
    pub pr_pid: i32,
}

/// A process record (Linux's `elf_prpsinfo`): the fields that are read.
#[derive(Clone, Copy, Debug)]
pub struct elf_prpsinfo {
    /// The process's id.
    pub pr_pid: i32,
    /// The name of its program, cut to 16 bytes.
    pub pr_fname: [u8; 16],
    /// Its arguments, cut to 80 bytes.
    pub pr_psargs: [u8; 80],
}

/// What the bytes of a status record say.
#[tactic(auto, unfolding(crate::specs::Notes::status_in))]
fn status_in(desc: &[u8]) -> elf_prstatus
    requires { 112 ≤ length desc.now }
    ensures { result ≡ status_in desc.now }
{
    elf_prstatus {
        pr_cursig: u16_in(desc, PR_CURSIG).cast_signed(),
        pr_pid: u32_in(desc, STATUS_PR_PID).cast_signed(),
    }
}

/// What the bytes of a process record say.
#[tactic(auto, unfolding(crate::specs::Notes::process_in))]
fn process_in(desc: &[u8]) -> elf_prpsinfo
    requires { 136 ≤ length desc.now }
    ensures { result ≡ process_in desc.now }
{
    let mut pr_fname = [0; 16];
    pr_fname.copy_from_slice(&desc[PR_FNAME..PR_PSARGS]);
    let mut pr_psargs = [0; 80];
    pr_psargs.copy_from_slice(&desc[PR_PSARGS..PROCESS_SIZE]);
    elf_prpsinfo {
        pr_pid: u32_in(desc, PROCESS_PR_PID).cast_signed(),
        pr_fname,
        pr_psargs,
    }
}

/// What a note says, if it is a status record that is long enough.
pub(crate) fn status_noted(note: &Note) -> Option<elf_prstatus>
    ensures { result ≡ status_noted (noted note.now) }
{
    if note.kind == NT_PRSTATUS && note.desc.len() >= STATUS_SIZE {
        Some(status_in(note.desc))
    } else {
        None
    }
}

/// What a note says, if it is a process record that is long enough.
pub(crate) fn process_of(note: &Note) -> Option<elf_prpsinfo>
    ensures { result ≡ process_of (noted note.now) }
{
    if note.kind == NT_PRPSINFO && note.desc.len() >= PROCESS_SIZE {
        Some(process_in(note.desc))
    } else {
        None
    }
}
