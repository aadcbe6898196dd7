//! Why a file has no table, and why a record is not read.

/// Why a file has no table that is read here.
#[derive(Clone, Copy, Debug, PartialEq, Eq)]
pub enum TableError {
    /// It is no 64-bit little-endian ELF file.
    NotElf,
    /// Its program headers, or what they name, do not lie in it.
    BadHeaders,
    /// It is for another machine than x86-64 and aarch64.
    OtherMachine,
    /// It has no program header PT_GNU_EH_FRAME.
    NoHeader,
    /// No segment has the bytes of the address that it names.
    NotInFile,
    /// They end before the table does.
    Cut,
    /// The table's version is not 1.
    Version(u8),
    /// The encoding of the pointer to `.eh_frame` is not 0x1b.
    FrameEncoding(u8),
    /// The encoding of the count is not 0x03.
    CountEncoding(u8),
    /// The encoding of the pairs is not 0x3b.
    PairEncoding(u8),
}

/// What is wrong with a record.
#[derive(Clone, Copy, Debug, PartialEq, Eq)]
pub enum RecordFlaw {
    /// No segment has the bytes of its address.
    NotInFile,
    /// The bytes end before the record does, or the record before one of its fields.
    Cut,
    /// It is the terminator, a record of no bytes.
    Terminator,
    /// Its length has 64 bits.
    Wide,
    /// It has more than 2^20 bytes.
    Long,
    /// It is a common information entry, where an entry of a function has to be.
    NoEntry,
    /// It is an entry of a function, where a common information entry has to be.
    NotCommon,
    /// The version of a common information entry is none of 1, 3 and 4.
    Version(u8),
    /// An augmentation that does not begin with `z`, or has another letter than R, P, L, S and B behind it: this one.
    Augmentation(u8),
    /// The encoding of the addresses of entries is neither 0x1b nor 0x03, or that of a handler is not known.
    Encoding(u8),
    /// Addresses have another size than 8.
    AddressSize(u8),
    /// Segments have another size than 0.
    SegmentSize(u8),
    /// A number has more than nine bytes.
    LongNumber,
}

/// Why a record is not read.
#[derive(Clone, Copy, Debug, PartialEq, Eq)]
pub struct RecordError {
    /// The address of the record.
    pub at: u64,
    /// What is wrong with it.
    pub flaw: RecordFlaw,
}
