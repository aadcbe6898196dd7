//! Readers of one record or one word.
ghost use Rattle.std.specs.Prelude.{◌≡◌, ◌+◌, ◌<◌, ◌^◌, length, OnErr, IfOk, IsErrOf, IsTrue, vec_len};
ghost use Rattle.process_memory.specs.Memory.{record_at, word_at};
ghost use Rattle.process_memory.specs.Seen.{with_bytes, items_of, HoldsRange, ReadsRange, read_fault};

use crate::{ProcessMemory, ReadFault};
use std::alloc::Global;

/// How many addresses there are.
const ADDRESSES: u128 = 0x1_0000_0000_0000_0000;

/// Reads the record at an address into a buffer of its length, fewer than 65536 bytes. One read.
pub fn record_in<P: ProcessMemory>(
    process: &mut P,
    addr: u64,
    buf: &mut [u8],
) -> Result<(), ReadFault>
    requires { length buf.old < 2 ^ 16 }
    ensures answer { ReadsRange read_fault addr (length buf.old) (P.seen process.old) (P.seen process.new)
        (λ m. record_at m addr (length buf.old)) (with_bytes buf.new result) }
    ensures left { OnErr result (buf.new ≡ buf.old) }
    ensures memory { IsErrOf result ReadFault.OutOfMemory → IsTrue (P.seen process.old).may_want_memory }
{
    process.read(addr, buf)
}

/// A copy of the `len` bytes at an address, fewer than 65536. One read. Memory is wanted only where they are
/// in memory.
pub fn record<P: ProcessMemory>(
    alloc: Global,
    process: &mut P,
    addr: u64,
    len: u64,
) -> Result<Vec<u8>, ReadFault>
    requires { len < 2 ^ 16 }
    ensures answer { ReadsRange read_fault addr len (P.seen process.old) (P.seen process.new)
        (λ m. record_at m addr len) (items_of result) }
    ensures whole { IfOk result (λ v. vec_len v ≡ len) }
    ensures held { IsErrOf result ReadFault.OutOfMemory → HoldsRange (P.seen process.old) addr len }
{
    process.copy(alloc, addr, len)
}

/// A copy of the `len` bytes, fewer than 65536, at an address that may be past the last one. At most one
/// read. Memory is wanted only where they are in memory.
pub fn record_wide<P: ProcessMemory>(
    alloc: Global,
    process: &mut P,
    addr: u128,
    len: u64,
) -> Result<Vec<u8>, ReadFault>
    requires { len < 2 ^ 16 }
    ensures answer { ReadsRange read_fault addr len (P.seen process.old) (P.seen process.new)
        (λ m. record_at m addr len) (items_of result) }
    ensures whole { IfOk result (λ v. vec_len v ≡ len) }
    ensures held { IsErrOf result ReadFault.OutOfMemory → HoldsRange (P.seen process.old) addr len }
{
    if addr < ADDRESSES {
        return record(alloc, process, addr as u64, len);
    }
    if len == 0 {
        return Ok(Vec::new(alloc));
    }
    Err(ReadFault::Unreadable {
        addr: u64::MAX,
        len,
    })
}

/// The number of the 8 bytes at an address, the lowest byte first. One read.
pub fn word<P: ProcessMemory>(process: &mut P, addr: u64) -> Result<u64, ReadFault>
    ensures answer { ReadsRange read_fault addr 8 (P.seen process.old) (P.seen process.new)
        (λ m. word_at m addr) result }
    ensures memory { IsErrOf result ReadFault.OutOfMemory → IsTrue (P.seen process.old).may_want_memory }
{
    let mut buf = [0; 8];
    process.read(addr, &mut buf)?;
    Ok(u64::from_le_bytes(buf))
}

/// The number of the 8 bytes at an address plus an offset in bytes. A sum past the last address is in no
/// memory. At most one read.
pub fn word_past<P: ProcessMemory>(
    process: &mut P,
    base: u64,
    offset: u64,
) -> Result<u64, ReadFault>
    ensures answer { ReadsRange read_fault (base + offset) 8 (P.seen process.old) (P.seen process.new)
        (λ m. word_at m (base + offset)) result }
    ensures memory { IsErrOf result ReadFault.OutOfMemory → IsTrue (P.seen process.old).may_want_memory }
{
    match base.checked_add(offset) {
        Some(addr) => word(process, addr),
        None => Err(ReadFault::Unreadable {
            addr: u64::MAX,
            len: 8,
        }),
    }
}

/// The number of the 8 bytes at an address that may be past the last one. At most one read.
pub fn word_wide<P: ProcessMemory>(process: &mut P, addr: u128) -> Result<u64, ReadFault>
    ensures answer { ReadsRange read_fault addr 8 (P.seen process.old) (P.seen process.new)
        (λ m. word_at m addr) result }
    ensures memory { IsErrOf result ReadFault.OutOfMemory → IsTrue (P.seen process.old).may_want_memory }
{
    if addr < ADDRESSES {
        return word(process, addr as u64);
    }
    Err(ReadFault::Unreadable {
        addr: u64::MAX,
        len: 8,
    })
}
