//! What is read of BPF's type information.
ghost use Rattle.std.specs.Prelude.{◌≡◌, ◌/◌, ◌%◌, ◌^◌, option_copied};
ghost use Rattle.normalize_core.specs.Btfs.{btf_name_in};

use elf64_core::string_at;

/// The header of type information (`include/uapi/linux/btf.h`).
#[derive(Clone, Copy, Debug)]
pub struct btf_header {
    /// 0xeb9f.
    pub magic: u16,
    /// The version of the format.
    pub version: u8,
    /// Flags.
    pub flags: u8,
    /// How long the header is, in bytes.
    pub hdr_len: u32,
    /// Where the types begin behind the header, in bytes.
    pub type_off: u32,
    /// How long the types are, in bytes.
    pub type_len: u32,
    /// Where the strings begin behind the header, in bytes.
    pub str_off: u32,
    /// How long the strings are, in bytes.
    pub str_len: u32,
}

/// BPF's type information: its bytes, of which the header is the first part, and what the header says.
#[derive(Debug, Drop)]
pub struct Btf<'a> {
    bytes: &'a [u8],
    header: btf_header,
}

impl<'a> Btf<'a> {
    /// The type information of these bytes. Neither the magic number nor the version is looked at.
    pub fn of(bytes: &'a [u8], header: btf_header) -> Btf<'a>
        ensures bytes { result.bytes ≡ bytes.entry }
        ensures header { result.header ≡ header }
    {
        Btf { bytes, header }
    }

    /// The name that begins at an offset of the strings, without its nul. None exactly where the strings don't
    /// lie in the bytes, or no nul stands in them from the offset on.
    pub fn name(&self, offset: u32) -> Option<&'a [u8]>
        ensures { option_copied result ≡ btf_name_in self.now.header self.now.bytes.now offset }
    {
        let start = self.header.hdr_len as usize + self.header.str_off as usize;
        let end = start + self.header.str_len as usize;
        if self.bytes.len() < end {
            return None;
        }
        string_at(&self.bytes[start..end], offset as usize)
    }
}

/// Where an instruction of a BPF program comes from (`include/uapi/linux/bpf.h`).
#[derive(Clone, Copy, Debug, Default)]
pub struct bpf_line_info {
    /// The number of the instruction.
    pub insn_off: u32,
    /// The offset of the file's name in the strings.
    pub file_name_off: u32,
    /// The offset of the line's text in the strings.
    pub line_off: u32,
    /// The line's number, above ten bits of the column's.
    pub line_col: u32,
}

impl bpf_line_info {
    /// The number of the line.
    pub fn line(&self) -> u32
        ensures { result ≡ self.now.line_col / 2 ^ 10 }
    {
        self.line_col >> 10
    }

    /// The number of the column.
    pub fn column(&self) -> u16
        ensures { result ≡ self.now.line_col % 2 ^ 10 }
    {
        (self.line_col & 0x3ff) as u16
    }
}
