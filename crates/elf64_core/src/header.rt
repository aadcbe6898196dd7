//! The header of an ELF64 file.
ghost use Rattle.std.specs.Prelude.{◌≡◌, ◌↔◌, ◌⊎◌, ◌+◌, ◌*◌, ◌≤◌, List, ℕ, IsTrue, IfOk, IfErr, IsErrOf, All, length};
ghost use Rattle.elf64_core.specs.Header.{IsElf64, HasProgramTable, HasSegments, IsAccepted, FitsFile, machine_of};
ghost use Rattle.elf64_core.specs.Header.{segments_of, segments_from, program_table, segment_count};
ghost use Rattle.elf64_core.specs.Rest.{segments_left};

use crate::ElfError;
use crate::fields::{u16_in, u64_in};
use crate::offsets::{E_MACHINE, E_PHENTSIZE, E_PHNUM, E_PHOFF};
use crate::segment::{ENTRY_SIZE, Segments, fits_file, is_inside};
use std::marker::Model;

/// The machine that a file is for.
#[derive(Clone, Copy, Debug, PartialEq, Eq)]
pub enum Machine {
    X86_64,
    Aarch64,
    Other,
}

/// The bytes of a file that is read as ELF64.
///
/// Contracts see it as the list of its bytes. Its header and program headers are accepted, and the file
/// bytes of its load and note segments lie in it.
#[derive(Drop)]
pub struct Elf64<'a> {
    bytes: &'a [u8],
}

impl<'a> Model for Elf64<'a> {
    ghost Value = { List ℕ };

    ghost view = { λ e. e.bytes.now };

    ghost invariant = { λ e. IsAccepted e.bytes.now };
}

/// Whether the file begins with a header of a 64-bit little-endian file.
fn is_elf64(bytes: &[u8]) -> bool
    ensures { IsTrue result ↔ IsElf64 bytes.now }
{
    bytes.len() >= 64 && bytes.starts_with(b"\x7fELF\x02\x01")
}

/// Whether the program headers are counted by the header and lie in the file.
fn has_program_table(bytes: &[u8]) -> bool
    requires { 64 ≤ length bytes.now }
    ensures { IsTrue result ↔ HasProgramTable bytes.now }
{
    let count = u16_in(bytes, E_PHNUM);
    count != 0xffff
        && (count == 0 || u16_in(bytes, E_PHENTSIZE) == 56)
        && is_inside(bytes, u64_in(bytes, E_PHOFF), 56 * count as u64)
}

/// The segments of a file whose program headers lie in it.
#[tactic(auto, unfolding(crate::specs::Header::segments_from))]
fn table(bytes: &[u8]) -> Segments<'_>
    requires whole { 64 ≤ length bytes.now }
    requires held { HasProgramTable bytes.now }
    ensures { segments_left result ≡ segments_of bytes.now }
{
    let count = u16_in(bytes, E_PHNUM) as usize;
    if count == 0 {
        return Segments::new(bytes, 0, 0);
    }
    Segments::new(bytes, u64_in(bytes, E_PHOFF) as usize, count)
}

/// Whether all segments fit the file.
fn all_fit(bytes: &[u8], segments: Segments<'_>) -> bool
    ensures { IsTrue result ↔ All (FitsFile bytes.now) (segments_left segments.entry) }
{
    let mut segments = segments;
    segments.all(|segment| fits_file(bytes, &segment))
}

impl<'a> Elf64<'a> {
    /// The file, if its header and program headers are accepted.
    ///
    /// `NotElf64` comes exactly where there are no 64 bytes, or the first six are not 7f 45 4c 46 02 01.
    /// `BadHeader` comes exactly where the number of program headers is 0xffff; or it is not 0 and their
    /// stated size is not 56 bytes; or their table, or the file bytes of a load or note segment, do not
    /// lie in the file; or a load segment's memory passes 2^64 - 1. Nothing else comes.
    pub fn parse(bytes: &'a [u8]) -> Result<Elf64<'a>, ElfError>
        ensures not_elf { IsErrOf result ElfError.NotElf64 ↔ (¬ IsElf64 bytes.now) }
        ensures bad { IsErrOf result ElfError.BadHeader ↔ (IsElf64 bytes.now × ¬ HasSegments bytes.now) }
        ensures only { IfErr result (λ error. (error ≡ ElfError.NotElf64) ⊎ (error ≡ ElfError.BadHeader)) }
        ensures same { IfOk result (λ elf. elf ≡ bytes.now) }
        ensures accepted { IfOk result (λ elf. IsAccepted bytes.now) }
    {
        if !is_elf64(bytes) {
            return Err(ElfError::NotElf64);
        }
        if !has_program_table(bytes) || !all_fit(bytes, table(bytes)) {
            return Err(ElfError::BadHeader);
        }
        Ok(Elf64 { bytes })
    }

    /// The file's bytes.
    pub(crate) fn bytes(&self) -> &'a [u8]
        ensures same { result.now ≡ self.now }
        ensures whole { 64 ≤ length result.now }
    {
        self.bytes
    }

    /// The machine that the header names.
    pub fn machine(&self) -> Machine
        ensures { result ≡ machine_of self.now }
    {
        match u16_in(self.bytes, E_MACHINE) {
            62 => Machine::X86_64,
            183 => Machine::Aarch64,
            _ => Machine::Other,
        }
    }

    /// The segments, in table order.
    pub fn segments(&self) -> Segments<'a>
        ensures { segments_left result ≡ segments_of self.now }
    {
        table(self.bytes)
    }
}
