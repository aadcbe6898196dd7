//! Numbers at offsets of a record, the lowest byte first.
ghost use Rattle.std.specs.Prelude.{◌≡◌, ◌+◌, ◌≤◌, length};
ghost use Rattle.elf64_core.specs.Fields.{u64_in, u32_in, u16_in};

/// The number of the 8 bytes at an offset of a record.
#[tactic(auto, unfolding(crate::specs::Fields::u64_in))]
pub fn u64_in(bytes: &[u8], at: usize) -> u64
    requires { at + 8 ≤ length bytes.now }
    ensures { result ≡ u64_in bytes.now at }
{
    let mut word = [0; 8];
    word.copy_from_slice(&bytes[at..at + 8]);
    u64::from_le_bytes(word)
}

/// The number of the 4 bytes at an offset of a record.
#[tactic(auto, unfolding(crate::specs::Fields::u32_in))]
pub fn u32_in(bytes: &[u8], at: usize) -> u32
    requires { at + 4 ≤ length bytes.now }
    ensures { result ≡ u32_in bytes.now at }
{
    let mut half = [0; 4];
    half.copy_from_slice(&bytes[at..at + 4]);
    u32::from_le_bytes(half)
}

/// The number of the 2 bytes at an offset of a record.
#[tactic(auto, unfolding(crate::specs::Fields::u16_in))]
pub fn u16_in(bytes: &[u8], at: usize) -> u16
    requires { at + 2 ≤ length bytes.now }
    ensures { result ≡ u16_in bytes.now at }
{
    let mut quarter = [0; 2];
    quarter.copy_from_slice(&bytes[at..at + 2]);
    u16::from_le_bytes(quarter)
}
