//! Texts that a nul ends, as C and the tables of strings of ELF files have them.
ghost use Rattle.std.specs.Prelude.{◌≡◌, ◌<◌, IfSome, length, option_copied};
ghost use Rattle.std.specs.List.{position};
ghost use Rattle.elf64_core.specs.Nul.{is_nul, string_at, until_nul};

/// Where the first nul stands in some bytes, from 0 on; None exactly where there is none.
pub fn first_nul(bytes: &[u8]) -> Option<usize>
    ensures value { result ≡ position is_nul bytes.now }
    ensures bound { IfSome result (λ size. size < length bytes.now) }
{
    bytes.iter().position(|byte| *byte == 0)
}

/// The bytes before the first nul; None exactly where there is none.
#[tactic(auto, unfolding(crate::specs::Nul::until_nul))]
pub fn until_nul(bytes: &[u8]) -> Option<&[u8]>
    ensures { option_copied result ≡ until_nul bytes.now }
{
    match first_nul(bytes) {
        Some(end) => Some(&bytes[..end]),
        None => None,
    }
}

/// The string that begins at an offset of a table of strings: the bytes from there to the first nul, without it.
/// None exactly where the offset is past the table's end, or no nul stands from there on.
#[tactic(auto, unfolding(crate::specs::Nul::string_at))]
pub fn string_at(strings: &[u8], at: usize) -> Option<&[u8]>
    ensures { option_copied result ≡ string_at strings.now at }
{
    if strings.len() < at {
        return None;
    }
    until_nul(&strings[at..])
}
