//! Reads over pieces of memory whose bytes are had in runs.
ghost use Rattle.std.specs.Prelude.{◌≡◌, ℕ, ◌+◌, ◌<◌, List, length, slice_index, EachIndex, IsSome, IfSome, Some, None};
ghost use Rattle.std.specs.Prelude.{OnErr, IsErrOf};
ghost use Rattle.std.specs.Bool.{OnTrue, OnFalse};
ghost use Rattle.process_memory.specs.Memory.{Region, byte_at, record_at};
ghost use Rattle.process_memory.specs.Seen.{Answers, read_fault, items_of, with_bytes};

use crate::ReadFault;
use std::alloc::Global;

/// Pieces of memory, whose bytes are had in runs.
///
/// An object means a list of pieces, each with its start and its bytes; the byte at an address is that of
/// the first piece that holds it.
pub trait Pieces {
    /// The pieces, in order.
    ghost regions: { Self → List Region };

    /// Bytes from an address on, one or more; none exactly where the address has no byte.
    fn run(&self, addr: u64) -> Option<&[u8]>
        ensures some { IfSome result (λ run. 0 < length run.now) }
        ensures bytes { IfSome result (λ run. (k : ℕ) → k < length run.now
            → byte_at (regions self.now) (addr + k) ≡ Some (slice_index run.now k)) }
        ensures none { result ≡ None → byte_at (regions self.now) addr ≡ None };
}

/// Whether all bytes of a range are there.
fn holds<P: Pieces>(pieces: &P, addr: u64, len: usize) -> bool
    ensures yes { OnTrue result ((k : ℕ) → k < len → IsSome (byte_at (P.regions pieces.now) (addr + k))) }
    ensures no { OnFalse result ((k : ℕ) × (k < len) × (byte_at (P.regions pieces.now) (addr + k) ≡ None)) }
{
    let mut done = 0;
    while done < len {
        match pieces.run(addr + done as u64) {
            Some(run) => done += run.len().min(len - done),
            None => return false,
        }
    }
    true
}

/// Copies a range that is there.
fn fill<P: Pieces>(pieces: &P, addr: u64, buf: &mut [u8])
    requires { (k : ℕ) → k < length buf.old → IsSome (byte_at (P.regions pieces.now) (addr + k)) }
    ensures { EachIndex buf.new (λ k. byte_at (P.regions pieces.now) (addr + k) ≡ Some (slice_index buf.new k)) }
{
    let mut done = 0;
    while done < buf.len() {
        match pieces.run(addr + done as u64) {
            Some(run) => {
                let size = run.len().min(buf.len() - done);
                buf[done..done + size].copy_from_slice(&run[..size]);
                done += size;
            }
            None => unreachable!(),
        }
    }
}

/// Copies a range, if it lies in one run; else nothing is copied.
fn read_whole<P: Pieces>(pieces: &P, addr: u64, buf: &mut [u8]) -> bool
    ensures whole { OnTrue result
        (EachIndex buf.new (λ k. byte_at (P.regions pieces.now) (addr + k) ≡ Some (slice_index buf.new k))) }
    ensures left { OnFalse result (buf.new ≡ buf.old) }
{
    match pieces.run(addr) {
        Some(run) if buf.len() <= run.len() => {
            buf.copy_from_slice(&run[..buf.len()]);
            true
        }
        _ => false,
    }
}

/// Fills the buffer with the bytes from `addr` on, each that of the first piece that holds its address.
///
/// Ok exactly where every byte of the range is there; else `Unreadable` names the range, and the buffer is
/// as it was. Out of memory never comes.
pub fn read_pieces<P: Pieces>(pieces: &P, addr: u64, buf: &mut [u8]) -> Result<(), ReadFault>
    ensures gives { Answers read_fault
        (record_at (byte_at (P.regions pieces.now)) addr (length buf.old))
        (with_bytes buf.new result) }
    ensures left { OnErr result (buf.new ≡ buf.old) }
    ensures memory { IsErrOf result ReadFault.OutOfMemory → ⊥ }
{
    if read_whole(pieces, addr, buf) {
        return Ok(());
    }
    if !holds(pieces, addr, buf.len()) {
        return Err(ReadFault::Unreadable {
            addr,
            len: buf.len() as u64,
        });
    }
    fill(pieces, addr, buf);
    Ok(())
}

/// A copy of the `len` bytes from `addr` on, each that of the first piece that holds its address.
///
/// `Unreadable` names the range, and comes only where a byte of it isn't there. Else the one error is want of
/// memory, which comes only where the whole range is there.
pub fn copy_pieces<P: Pieces>(
    alloc: Global,
    pieces: &P,
    addr: u64,
    len: u64,
) -> Result<Vec<u8>, ReadFault>
    ensures gives { Answers read_fault (record_at (byte_at (P.regions pieces.now)) addr len) (items_of result) }
    ensures held { IsErrOf result ReadFault.OutOfMemory
        → (k : ℕ) → k < len → IsSome (byte_at (P.regions pieces.now) (addr + k)) }
{
    if !holds(pieces, addr, len as usize) {
        return Err(ReadFault::Unreadable { addr, len });
    }
    let mut bytes = match vec![in alloc; 0u8; len as usize] {
        Ok(bytes) => bytes,
        Err(_) => return Err(ReadFault::OutOfMemory),
    };
    fill(pieces, addr, &mut bytes);
    Ok(bytes)
}
