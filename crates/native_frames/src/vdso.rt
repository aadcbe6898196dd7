//! The vdso, the code that the system maps into each process: its bytes are the core's own.
ghost use Rattle.std.specs.Prelude.{◌≡◌, map, option_copied};
ghost use Rattle.elf64_core.specs.Notes.{noted};
ghost use Rattle.native_frames.specs.Vdsos.{IsVdsoIn, IsVdsoOf, base_of, vdso_base, vdso_shown};

use elf64_core::{Note, u64_in};
use image_memory::{CoreDump, NT_AUXV, first_desc};

/// The key of its address in the auxiliary vector (AT_SYSINFO_EHDR of `elf.h`).
const BASE: u64 = 33;

/// How many of its bytes are looked at: it has two to four pages.
const MOST_BYTES: u64 = 65536;

/// The vdso: where it is mapped, and its bytes.
#[derive(Clone, Copy)]
pub(crate) struct Vdso<'a> {
    pub(crate) base: u64,
    pub(crate) bytes: &'a [u8],
}

/// The value of the first entry of an auxiliary vector that has the key.
fn base_in(vector: &[u8]) -> Option<u64>
    ensures { result ≡ base_of vector.now }
{
    for number in 0..vector.len() / 16 {
        if u64_in(vector, 16 * number) == BASE {
            return Some(u64_in(vector, 16 * number + 8));
        }
    }
    None
}

/// Where the vdso is mapped.
fn vdso_base(notes: &[Note<'_>]) -> Option<u64>
    ensures { result ≡ vdso_base (map noted notes.now) }
{
    let vector = first_desc(notes, NT_AUXV)?;
    base_in(vector)
}

/// The vdso of an address.
fn vdso_at(core: &CoreDump, base: u64) -> Option<Vdso<'_>>
    ensures { IsVdsoOf core.now base (vdso_shown result) }
{
    match core.piece(base, MOST_BYTES) {
        Some(bytes) => Some(Vdso { base, bytes }),
        None => None,
    }
}

/// The vdso of a core, where its notes say that there is one, and the core has its bytes: at most 65536 of them.
pub(crate) fn vdso_in<'a>(core: &'a CoreDump, notes: &[Note<'_>]) -> Option<Vdso<'a>>
    ensures { IsVdsoIn core.now (map noted notes.now) (vdso_shown result) }
{
    match vdso_base(notes) {
        Some(base) => vdso_at(core, base),
        None => None,
    }
}
