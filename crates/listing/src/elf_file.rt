//! The lines of an ELF file.
use elf64_core::{Elf64, Machine, SymbolKind, read_build_id};
use py_process::parse_binary;
use std::alloc::Global;
use std::io::{self, Write};

/// A name as it is printed.
fn shown<'a>(name: Option<&'a [u8]>) -> &'a str {
    match name {
        None => "-",
        Some(bytes) => str::from_utf8(bytes).unwrap_or("?"),
    }
}

/// `machine` and the machine that the header names.
fn list_machine<W: Write>(out: &mut W, elf: &Elf64<'_>) -> io::Result<()> {
    let machine = match elf.machine() {
        Machine::X86_64 => "x86-64",
        Machine::Aarch64 => "aarch64",
        Machine::Other => "other",
    };
    writeln!(out, "machine {machine}")
}

/// `segment KIND FLAGS OFFSET ADDR FILE_SIZE MEMORY_SIZE` for each segment, in table order.
fn list_segments<W: Write>(out: &mut W, elf: &Elf64<'_>) -> io::Result<()> {
    for segment in elf.segments() {
        let (kind, flags) = (segment.kind, segment.flags);
        let (offset, addr) = (segment.offset, segment.addr);
        let (in_file, in_memory) = (segment.file_size, segment.mem_size);
        writeln!(
            out,
            "segment {kind} {flags} {offset} {addr} {in_file} {in_memory}"
        )?;
    }
    Ok(())
}

/// `section KIND ADDR OFFSET SIZE LINK NAME` for each section, in table order.
fn list_sections<W: Write>(out: &mut W, elf: &Elf64<'_>) -> io::Result<()> {
    let Ok(sections) = elf.sections() else {
        return writeln!(out, "sections refused");
    };
    for section in sections {
        let name = shown(elf.section_name(&section));
        let (kind, addr, offset) = (section.kind, section.addr, section.offset);
        let (size, link) = (section.size, section.link);
        writeln!(out, "section {kind} {addr} {offset} {size} {link} {name}")?;
    }
    Ok(())
}

/// The word for a kind of symbols.
fn word_of(kind: SymbolKind) -> &'static str {
    match kind {
        SymbolKind::Plain => "plain",
        SymbolKind::Dynamic => "dynamic",
    }
}

/// `plain INFO SECTION VALUE SIZE NAME` for each symbol, in table order; `dynamic ..` likewise.
fn list_symbols<W: Write>(
    out: &mut W,
    alloc: Global,
    elf: &Elf64<'_>,
    kind: SymbolKind,
) -> io::Result<()> {
    let word = word_of(kind);
    let Ok(symbols) = elf.symbols(alloc, kind) else {
        return writeln!(out, "{word} refused");
    };
    for symbol in &symbols {
        let name = shown(symbol.name);
        let (info, section) = (symbol.info, symbol.section);
        let (value, size) = (symbol.value, symbol.size);
        writeln!(out, "{word} {info} {section} {value} {size} {name}")?;
    }
    Ok(())
}

/// `build` and the bytes of the build id, in hexadecimal digits.
fn list_build_id<W: Write>(out: &mut W, elf: &Elf64<'_>) -> io::Result<()> {
    match read_build_id(elf) {
        Err(_) => writeln!(out, "build refused"),
        Ok(None) => writeln!(out, "build -"),
        Ok(Some(id)) => {
            write!(out, "build ")?;
            for byte in id {
                write!(out, "{byte:02x}")?;
            }
            writeln!(out)
        }
    }
}

/// `binary BSS_ADDR BSS_SIZE RUNTIME_ADDR RUNTIME_SIZE COUNT`, and `symbol NAME ADDR` for two symbols of
/// CPython, where they are there.
fn list_binary<W: Write>(
    out: &mut W,
    alloc: Global,
    bytes: &[u8],
    addr: u64,
    size: u64,
) -> io::Result<()> {
    let Ok(binary) = parse_binary(alloc, bytes, addr, size) else {
        return writeln!(out, "binary refused");
    };
    let (bss_addr, bss_size) = (binary.bss_addr, binary.bss_size);
    let (runtime_addr, runtime_size) = (binary.pyruntime_addr, binary.pyruntime_size);
    let count = binary.symbols.len();
    writeln!(
        out,
        "binary {bss_addr} {bss_size} {runtime_addr} {runtime_size} {count}"
    )?;
    for name in ["_PyRuntime", "Py_Version"] {
        if let Some(addr) = binary.symbols.get(name.as_bytes()) {
            writeln!(out, "symbol {name} {addr}")?;
        }
    }
    Ok(())
}

/// The lines of a file's bytes, with those of an image that is mapped at an address, with a size.
pub(crate) fn list_elf<W: Write>(
    out: &mut W,
    alloc: Global,
    bytes: &[u8],
    map: Option<(u64, u64)>,
) -> io::Result<()> {
    let Ok(elf) = Elf64::parse(bytes) else {
        return writeln!(out, "refused");
    };
    list_machine(out, &elf)?;
    list_segments(out, &elf)?;
    list_sections(out, &elf)?;
    list_symbols(out, alloc, &elf, SymbolKind::Plain)?;
    list_symbols(out, alloc, &elf, SymbolKind::Dynamic)?;
    list_build_id(out, &elf)?;
    match map {
        Some((addr, size)) => list_binary(out, alloc, bytes, addr, size),
        None => Ok(()),
    }
}
