//! The links of the members of a list.
ghost use Rattle.std.specs.Prelude.{◌≡◌, IfOk, length};
ghost use Rattle.process_memory.specs.Seen.{Reading};
ghost use Rattle.gc_lists.specs.Links.{links_at, links_in};

use elf64_core::u64_in;
use process_memory::{ProcessMemory, ReadFault, record_in};
use std::alloc::AllocError;

/// The links of a member, or of the head of a list: `PyGC_Head` of Include/objimpl.h.
#[derive(Clone, Copy)]
pub(crate) struct Links {
    /// Where it leads to.
    pub next: u64,
    /// What it says leads to it.
    pub back: u64,
}

/// The links in a record of 16 bytes, without their marks.
fn links_in(mask: u64, bytes: &[u8]) -> Links
    requires { length bytes.now ≡ 16 }
    ensures { result ≡ links_in mask bytes.now }
{
    Links {
        next: u64_in(bytes, 0) & mask,
        back: u64_in(bytes, 8) & mask,
    }
}

/// The links at an address, if they are in memory. One read.
pub(crate) fn read_links<P: ProcessMemory>(
    process: &mut P,
    mask: u64,
    at: u64,
) -> Result<Option<Links>, AllocError>
    ensures { Reading 1 (P.seen process.old) (P.seen process.new)
        (λ m. IfOk result (λ links. links ≡ links_at mask m at)) }
{
    let mut bytes = [0; 16];
    match record_in(process, at, &mut bytes) {
        Ok(()) => Ok(Some(links_in(mask, &bytes))),
        Err(ReadFault::Unreadable { .. }) => Ok(None),
        Err(ReadFault::OutOfMemory) => Err(AllocError),
    }
}
