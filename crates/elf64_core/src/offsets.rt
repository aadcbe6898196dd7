//! Where the fields stand in the records of an ELF64 file, in bytes from a record's start, and how long the records
//! are: names and numbers are those of the System V gABI. A record's first field stands at its start.

/// The file's header, `Elf64_Ehdr`.
pub(crate) const E_MACHINE: usize = 18;

pub(crate) const E_PHOFF: usize = 32;

pub(crate) const E_SHOFF: usize = 40;

pub(crate) const E_PHENTSIZE: usize = 54;

pub(crate) const E_PHNUM: usize = 56;

pub(crate) const E_SHENTSIZE: usize = 58;

pub(crate) const E_SHNUM: usize = 60;

pub(crate) const E_SHSTRNDX: usize = 62;

/// A program header, `Elf64_Phdr`, which begins with `p_type`.
pub(crate) const P_FLAGS: usize = 4;

pub(crate) const P_OFFSET: usize = 8;

pub(crate) const P_VADDR: usize = 16;

pub(crate) const P_FILESZ: usize = 32;

pub(crate) const P_MEMSZ: usize = 40;

/// A section header, `Elf64_Shdr`, which begins with `sh_name`.
pub(crate) const SH_TYPE: usize = 4;

pub(crate) const SH_ADDR: usize = 16;

pub(crate) const SH_OFFSET: usize = 24;

pub(crate) const SH_SIZE: usize = 32;

pub(crate) const SH_LINK: usize = 40;

/// An entry of a symbol table, `Elf64_Sym`, which begins with `st_name`.
pub(crate) const ST_INFO: usize = 4;

pub(crate) const ST_SHNDX: usize = 6;

pub(crate) const ST_VALUE: usize = 8;

pub(crate) const ST_SIZE: usize = 16;

/// A note's header, `Elf64_Nhdr`, which begins with `n_namesz`.
pub(crate) const N_DESCSZ: usize = 4;

pub(crate) const N_TYPE: usize = 8;
