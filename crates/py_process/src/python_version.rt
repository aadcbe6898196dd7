//! Which version of Python runs in a process.
ghost use Rattle.std.specs.Prelude.{◌<◌, ◌^◌, ◌≡◌, Option, Ok, IfOk, option_map};
ghost use Rattle.process_memory.specs.Memory.{Found};
ghost use Rattle.process_memory.specs.Seen.{IsRange, Reading, ReadingOf};
ghost use Rattle.py_fields.specs.declared.version.Version.{Version as Told};
ghost use Rattle.py_process.specs.Facts.{facts_of, known_of};
ghost use Rattle.py_process.specs.Sections.{IsSearched, IsSection, IsSectionIn};
ghost use Rattle.py_process.specs.Sources.{FirstTells, IsVersionTold, SectionTells, TellsVersion, ToldBy, VersionIs};
ghost use Rattle.py_process.specs.Sources.{bss_of, flags_of, library_sources, other_sources, section_sources};
ghost use Rattle.py_process.specs.Sources.{sources_of, text_source_at, text_symbol, version_of_number};
ghost use Rattle.py_process.specs.Sources.VersionSource.{Number, Section, Text as TextSource};

use crate::file_version::file_version;
use crate::{BinaryInfo, PythonProcessInfo, VersionError};
use elf64_core::Text;
use image_memory::ContainsAddr;
use process_memory::{ProcessMemory, ReadFault, record_in};
use py_fields::{ScanError, Version};
use std::alloc::{AllocError, Global};

/// The letters of a release that is not final, with its serial number; nothing for a final one.
fn flags_of(alloc: Global, level: u32, serial: u32) -> Result<Text, AllocError>
    requires { serial < 16 }
    ensures { IfOk result (λ flags. flags ≡ flags_of level serial) }
{
    let text = match level {
        10 => format!(in alloc; "a{serial}")?,
        11 => format!(in alloc; "b{serial}")?,
        12 => format!(in alloc; "rc{serial}")?,
        _ => String::new(alloc),
    };
    let shared = Text::from_string(text)?;
    Ok(shared)
}

/// The version of a number.
#[tactic(auto, unfolding(crate::specs::Sources::version_of_number))]
fn version_of(alloc: Global, number: u32) -> Result<Version, AllocError>
    ensures { IfOk result (λ version. version ≡ version_of_number number) }
{
    let release_flags = flags_of(alloc, number / 16 % 16, number % 16)?;
    Ok(Version {
        major: u64::from(number / 0x100_0000 % 256),
        minor: u64::from(number / 0x1_0000 % 256),
        patch: u64::from(number / 0x100 % 256),
        release_flags,
        build_metadata: None,
    })
}

/// The version of the number at an address. One read.
fn read_number<P: ProcessMemory>(
    alloc: Global,
    process: &mut P,
    addr: u64,
) -> Result<Option<Version>, VersionError>
    ensures { Reading 1 (P.seen process.old) (P.seen process.new)
        (λ m. ToldBy (TellsVersion m (Number addr)) result) }
{
    let mut number = [0; 4];
    record_in(process, addr, &mut number)?;
    let version = version_of(alloc, u32::from_le_bytes(number))?;
    Ok(Some(version))
}

/// The version that some bytes spell; none where they spell none.
fn scan(alloc: Global, bytes: &[u8]) -> Result<Option<Version>, VersionError>
    ensures { ToldBy (SectionTells (Ok bytes.now)) result }
{
    match Version::scan_bytes(alloc, bytes) {
        Ok(version) => Ok(Some(version)),
        Err(ScanError::NotFound) => Ok(None),
        Err(ScanError::OutOfMemory) => Err(VersionError::OutOfMemory),
    }
}

/// The version that the text at an address tells; none where its bytes are not in memory. One read.
fn read_version_text<P: ProcessMemory>(
    alloc: Global,
    process: &mut P,
    addr: u64,
) -> Result<Option<Version>, VersionError>
    ensures { Reading 1 (P.seen process.old) (P.seen process.new)
        (λ m. ToldBy (TellsVersion m (TextSource addr)) result) }
{
    let mut text = [0; 128];
    match record_in(process, addr, &mut text) {
        Ok(()) => scan(alloc, &text),
        Err(ReadFault::Unreadable { .. }) => Ok(None),
        Err(ReadFault::OutOfMemory) => Err(VersionError::OutOfMemory),
    }
}

/// The version that a section tells. One read.
fn read_section<P: ProcessMemory>(
    alloc: Global,
    process: &mut P,
    addr: u64,
    size: u64,
) -> Result<Option<Version>, VersionError>
    ensures { ReadingOf (IsRange addr size) 1 (P.seen process.old) (P.seen process.new)
        (λ m. ToldBy (TellsVersion m (Section addr size)) result) }
{
    let bytes = process.copy(alloc, addr, size)?;
    scan(alloc, &bytes)
}

/// The version that the text at a symbol tells, where there is one. At most one read.
fn read_symbol<P: ProcessMemory>(
    alloc: Global,
    process: &mut P,
    addr: Option<u64>,
) -> Result<Option<Version>, VersionError>
    ensures { Reading 1 (P.seen process.old) (P.seen process.new)
        (λ m. ToldBy (FirstTells m (text_source_at addr)) result) }
{
    match addr {
        Some(addr) => read_version_text(alloc, process, addr),
        None => Ok(None),
    }
}

/// The version that the bss of an image tells, where there is one. At most one read.
fn read_bss<P: ProcessMemory>(
    alloc: Global,
    process: &mut P,
    binary: &Option<BinaryInfo>,
) -> Result<Option<Version>, VersionError>
    ensures { ReadingOf (IsSectionIn (option_map facts_of binary.now)) 1 (P.seen process.old) (P.seen process.new)
        (λ m. ToldBy (FirstTells m (bss_of (option_map facts_of binary.now))) result) }
{
    match binary {
        Some(binary) => read_section(alloc, process, binary.bss_addr, binary.bss_size),
        None => Ok(None),
    }
}

/// The version that the library's bss tells, else the program's path. At most one read.
fn read_library<M: ContainsAddr, P: ProcessMemory>(
    alloc: Global,
    info: &PythonProcessInfo<M>,
    process: &mut P,
) -> Result<Option<Version>, VersionError>
    ensures { ReadingOf (IsSection (known_of info.now)) 1 (P.seen process.old) (P.seen process.new)
        (λ m. ToldBy (FirstTells m (library_sources (known_of info.now))) result) }
{
    if let Some(version) = read_bss(alloc, process, &info.libpython_binary)? {
        return Ok(Some(version));
    }
    let version = file_version(alloc, info.python_filename.as_bytes())?;
    Ok(version)
}

/// The version that the program's bss tells, else what is behind it. At most 2 reads.
fn read_sections<M: ContainsAddr, P: ProcessMemory>(
    alloc: Global,
    info: &PythonProcessInfo<M>,
    process: &mut P,
) -> Result<Option<Version>, VersionError>
    ensures { ReadingOf (IsSection (known_of info.now)) 2 (P.seen process.old) (P.seen process.new)
        (λ m. ToldBy (FirstTells m (section_sources (known_of info.now))) result) }
{
    if let Some(version) = read_bss(alloc, process, &info.python_binary)? {
        return Ok(Some(version));
    }
    read_library(alloc, info, process)
}

/// The address of the text of `Py_GetVersion`, where a symbol names it.
fn text_symbol<M: ContainsAddr>(info: &PythonProcessInfo<M>) -> Option<u64>
    ensures { result ≡ text_symbol (known_of info.now) }
{
    match info.symbol(b"Py_GetVersion.version") {
        Some(addr) => Some(addr),
        None => info.symbol(b"version"),
    }
}

/// The version that the text of `Py_GetVersion` tells, else what is behind it. At most 3 reads.
fn read_others<M: ContainsAddr, P: ProcessMemory>(
    alloc: Global,
    info: &PythonProcessInfo<M>,
    process: &mut P,
) -> Result<Option<Version>, VersionError>
    ensures { ReadingOf (IsSearched (known_of info.now)) 3 (P.seen process.old) (P.seen process.new)
        (λ m. ToldBy (FirstTells m (other_sources (known_of info.now))) result) }
{
    if let Some(version) = read_symbol(alloc, process, text_symbol(info))? {
        return Ok(Some(version));
    }
    read_sections(alloc, info, process)
}

/// The version that the first source tells that tells one. At most 3 reads.
fn read_sources<M: ContainsAddr, P: ProcessMemory>(
    alloc: Global,
    info: &PythonProcessInfo<M>,
    process: &mut P,
) -> Result<Option<Version>, VersionError>
    ensures { ReadingOf (IsSearched (known_of info.now)) 3 (P.seen process.old) (P.seen process.new)
        (λ m. ToldBy (FirstTells m (sources_of (known_of info.now))) result) }
{
    match info.symbol(b"Py_Version") {
        Some(addr) => read_number(alloc, process, addr),
        None => read_others(alloc, info, process),
    }
}

/// Which version of Python runs in a process.
///
/// Where `Py_Version` is a symbol, its 4 bytes are the answer: major, minor and patch in bits 24, 16 and 8,
/// the level in bits 4 to 7 (10 is `a`, 11 `b`, 12 `rc`, with the serial number of bits 0 to 3 behind it; else
/// there are no flags). Else the first of these that tells a version:
///
/// 1. the text among the 128 bytes at `Py_GetVersion.version`, or at `version` where that one is no symbol, if
///    they are in memory;
/// 2. the text in the program's bss, then in the library's;
/// 3. the last part of the program's path: `python` and then parts between dots, of which the first two are
///    decimal numbers below 2^64; the patch is 0.
///
/// How a version is spelled in a text, and which one counts, `Version::scan_bytes` says. `Unreadable` comes
/// where the number isn't in memory, or a bss that is reached isn't wholly in memory; `NotFound` where nothing
/// tells a version. Else the one error is out of memory. At most 3 reads; a section is read by one.
pub fn get_python_version<M: ContainsAddr, P: ProcessMemory>(
    alloc: Global,
    info: &PythonProcessInfo<M>,
    process: &mut P,
) -> Result<Version, VersionError>
    ensures right { ReadingOf (IsSearched (known_of info.now)) 3 (P.seen process.old) (P.seen process.new)
        (λ m. VersionIs m (sources_of (known_of info.now)) result) }
    ensures only { ReadingOf (IsSearched (known_of info.now)) 3 (P.seen process.old) (P.seen process.new) (λ m.
        (told : Found (Option Told)) → FirstTells m (sources_of (known_of info.now)) told → IsVersionTold told result) }
{
    match read_sources(alloc, info, process) {
        Ok(Some(version)) => Ok(version),
        Ok(None) => Err(VersionError::NotFound),
        Err(error) => Err(error),
    }
}
