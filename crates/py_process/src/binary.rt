//! What the image of a binary says of the process that mapped it.
ghost use Rattle.std.specs.Prelude.{◌≡◌, ◌≢◌, ◌+◌, ◌<◌, ◌≤◌, ◌↔◌, ◌⊎◌, IsTrue, Err, IfErr, IsErrOf, MatchResult};
ghost use Rattle.py_process.specs.Binary.{HasInfo, IsInfo, SaySame};
ghost use Rattle.py_process.specs.Refusals.{RefusesImage};
ghost use Rattle.py_process.specs.declared.binary.BinaryInfo.{BinaryInfo as Info};
ghost use Rattle.py_process.specs.declared.binary_error.BinaryError.{BinaryError as Refusal};

use crate::BinaryError;
use crate::named_image::NamedImage;
use crate::ranges::section_ranges;
use crate::symbols::{Place, kept_symbols};
use elf64_core::Elf64;
use std::alloc::Global;
use std::collections::BTreeMap;

/// What the image of a binary says of the process that mapped it. Addresses are those of the process.
#[derive(Debug, Drop)]
pub struct BinaryInfo {
    /// The addresses of its symbols, by their names.
    pub symbols: BTreeMap<Vec<u8>, u64>,
    pub bss_addr: u64,
    pub bss_size: u64,
    /// The section `.PyRuntime`, or 0.
    pub pyruntime_addr: u64,
    pub pyruntime_size: u64,
    /// Where it is mapped.
    pub addr: u64,
    pub size: u64,
}

impl BinaryInfo {
    /// Whether an address lies where the binary is mapped; the end of that is not cut off at 2^64 - 1.
    pub fn contains(&self, addr: u64) -> bool
        ensures { IsTrue result ↔ ((self.now.addr ≤ addr) × (addr < self.now.addr + self.now.size)) }
    {
        self.addr <= addr && addr - self.addr < self.size
    }
}

/// See `parse_binary`.
fn read_binary(alloc: Global, bytes: &[u8], addr: u64, size: u64) -> Result<BinaryInfo, BinaryError>
    ensures { MatchResult result (IsInfo bytes.now addr size) (RefusesImage bytes.now addr) }
{
    let image = NamedImage::of(alloc, Elf64::parse(bytes)?)?;
    let ranges = section_ranges(alloc, &image, addr)?;
    let place = Place {
        addr,
        size,
        offset: ranges.offset,
        bss_end: ranges.bss.end,
    };
    let symbols = kept_symbols(alloc, image.elf(), &place, bytes.len())?;
    Ok(BinaryInfo {
        symbols,
        bss_addr: ranges.bss.addr,
        bss_size: ranges.bss.size,
        pyruntime_addr: ranges.runtime_addr,
        pyruntime_size: ranges.runtime_size,
        addr,
        size,
    })
}

/// What the image of a binary says that is mapped at an address with a size in bytes.
///
/// - The bss is the section of no bits that is named `.bss` or has no readable name, of greatest size, the
///   last on a tie.
/// - The image was moved by the address less that of the first executable load segment, rounded down to a
///   page of 4096 bytes; it was not moved down.
/// - The bss and the first section named `.PyRuntime` are moved so. One whose address then passes 2^64 - 1,
///   or that is not there, is 0 with size 0.
/// - A name has the address of its last symbol that is kept, the dynamic ones after the plain ones: the
///   symbol's value, moved. Not kept is one that has no name or whose section is 0; that is global or weak
///   and has the value 0; that has a size and does not lie below the end of the bss, where that is not 0;
///   whose address passes 2^64 - 1; or that is a function and does not lie where the image is mapped.
///
/// `NotElf64` and `BadHeader` come as from `Elf64::parse` and `Elf64::sections`; `NoBss` where no section
/// may be the bss; `NoExecutable` where no load segment is executable; `BadBss` where the bss, moved, ends
/// past 2^64 - 1; and then `BadHeader` where a list of symbols does not lie in the file. The first that holds
/// comes. Else the one error is out of memory, as which names count that together have more bytes than the image:
/// only names that share their bytes have. The map's names are copies.
pub fn parse_binary(
    alloc: Global,
    bytes: &[u8],
    addr: u64,
    size: u64,
) -> Result<BinaryInfo, BinaryError>
    ensures right { MatchResult result (IsInfo bytes.now addr size) (RefusesImage bytes.now addr) }
    ensures only { (error : Refusal) → error ≢ BinaryError.OutOfMemory → RefusesImage bytes.now addr error
        → IsErrOf result BinaryError.OutOfMemory ⊎ (result ≡ Err error) }
    ensures complete { HasInfo bytes.now addr → IfErr result (λ error. error ≡ BinaryError.OutOfMemory) }
    ensures once { (one other : Info) → IsInfo bytes.now addr size one → IsInfo bytes.now addr size other
        → SaySame one other }
{
    read_binary(alloc, bytes, addr, size)
}
