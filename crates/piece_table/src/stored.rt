//! Memory whose bytes stand in files, by a table.
ghost use Rattle.std.specs.Prelude.{◌≡◌, ◌⊎◌, ◌↔◌, ◌+◌, ◌<◌, ◌≤◌, ℕ, All, IfSome, List, None, Some, length};
ghost use Rattle.std.specs.Prelude.{slice_index, slice_range};
ghost use Rattle.elf64_core.specs.declared.span_table.TableEntry.{TableEntry as Entry};
ghost use Rattle.piece_table.specs.Lookups.{HalvesIn};
ghost use Rattle.piece_table.specs.Overlays.{ArePieces};
ghost use Rattle.piece_table.specs.Places.{IsRest, IsRun, addresses_of};
ghost use Rattle.piece_table.specs.Files.{IsInFile, file_bytes, regions_in};
ghost use Rattle.piece_table.specs.declared.table.FileRange.{FileRange as Range};
ghost use Rattle.process_memory.specs.Memory.{byte_at};

use crate::{FileRun, PieceTable};
use elf64_core::Steps;
use std::sync::ledger::Ledger;

/// Memory whose bytes stand in files: a table says in which one, and where there.
///
/// The pieces of memory are the ranges of the table in order, each with its bytes; the byte at an address is
/// that of the first piece that holds it.
pub trait Stored {
    /// The ranges of the table, in order.
    ghost ranges: { Self → List Range };

    /// The bytes of each file, by its number from 0 on.
    ghost files: { Self → List (List ℕ) };

    /// The table. Its ranges lie in the files.
    fn table(&self) -> &PieceTable
        ensures same { result.now ≡ ranges self.now }
        ensures held { All (IsInFile (files self.now)) (ranges self.now) };

    /// The bytes of the file of a number.
    fn file(&self, file: usize) -> &[u8]
        requires { file < length (files self.now) }
        ensures { result.now ≡ file_bytes (files self.now) file };
}

/// The bytes of a run.
fn bytes_of<S: Stored>(stored: &S, run: FileRun) -> &[u8]
    requires known { run.file < length (S.files stored.now) }
    requires inside { run.start + run.size ≤ length (file_bytes (S.files stored.now) run.file) }
    ensures { result.now ≡ slice_range (file_bytes (S.files stored.now) run.file) run.start (run.start + run.size) }
{
    let bytes = stored.file(run.file);
    let end = run.start + run.size;
    &bytes[run.start as usize..end as usize]
}

/// The bytes of the longest run of at most `len` addresses from `addr` on that are in memory and whose bytes
/// follow each other in one file; none exactly where `len` is 0 or the byte at `addr` is not in memory. It takes
/// no memory.
pub fn piece_of<S: Stored>(stored: &S, addr: u64, len: u64) -> Option<&[u8]>
    ensures none { result ≡ None
        ↔ (len ≡ 0) ⊎ (byte_at (regions_in (S.files stored.now) (S.ranges stored.now)) addr ≡ None) }
    ensures run { IfSome result (λ piece. (file start : ℕ)
        × IsRun (S.ranges stored.now) addr len file start (length piece.now)
        × (piece.now ≡ slice_range (file_bytes (S.files stored.now) file) start (start + length piece.now))) }
    ensures bytes { IfSome result (λ piece. (k : ℕ) → k < length piece.now
        → byte_at (regions_in (S.files stored.now) (S.ranges stored.now)) (addr + k) ≡ Some (slice_index piece.now k)) }
{
    let run = stored.table().run(addr, len)?;
    Some(bytes_of(stored, run))
}

/// Bytes from an address on, one or more, of one piece; none exactly where the address has no byte.
pub fn run_of<S: Stored>(stored: &S, addr: u64) -> Option<&[u8]>
    ensures some { IfSome result (λ run. 0 < length run.now) }
    ensures bytes { IfSome result (λ run. (k : ℕ) → k < length run.now
        → byte_at (regions_in (S.files stored.now) (S.ranges stored.now)) (addr + k) ≡ Some (slice_index run.now k)) }
    ensures none { result ≡ None → byte_at (regions_in (S.files stored.now) (S.ranges stored.now)) addr ≡ None }
{
    let run = stored.table().stretch(addr, u64::MAX)?;
    Some(bytes_of(stored, run))
}

/// The bytes from `addr` up to the end of the piece that holds it; none exactly where the address has no byte.
/// It adds k steps to the counter that is handed in, where 2^k is at most twice the number of pieces and one. It
/// takes no memory.
pub fn rest_of<'a, S: Stored, L: Ledger>(
    stored: &'a S,
    addr: u64,
    steps: &mut Steps<L>,
) -> Option<&'a [u8]>
    ensures none { result ≡ None ↔ byte_at (regions_in (S.files stored.now) (S.ranges stored.now)) addr ≡ None }
    ensures rest { IfSome result (λ rest. IsRest (addresses_of (S.ranges stored.now)) addr (length rest.now)) }
    ensures bytes { IfSome result (λ rest. (k : ℕ) → k < length rest.now
        → byte_at (regions_in (S.files stored.now) (S.ranges stored.now)) (addr + k) ≡ Some (slice_index rest.now k)) }
    ensures steps { (pieces : List Entry) × ArePieces (addresses_of (S.ranges stored.now)) pieces
        × HalvesIn (length pieces) steps.old steps.new }
{
    let piece = stored.table().find(addr, steps)?;
    let past = addr - piece.range.start;
    let run = FileRun {
        file: piece.file,
        start: piece.range.offset + past,
        size: piece.range.len - past,
    };
    Some(bytes_of(stored, run))
}
