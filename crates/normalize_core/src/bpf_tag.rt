//! The tag of a BPF program.
ghost use Rattle.std.specs.Prelude.{◌≡◌, ◌∷◌, [], Some};
ghost use Rattle.std.specs.Fmt.{WritesOnOk};
ghost use Rattle.std.specs.Result.{result_ok};
ghost use Rattle.normalize_core.specs.Tags.{PrintedReadsBack, hex_value, pair_value, tag_text};
ghost use Rattle.normalize_core.specs.ReadTags.{ReadsTag};

use std::fmt;
use std::str::FromStr;

/// The tag of a BPF program: the first eight bytes of a hash of its instructions, or any eight.
///
/// It is printed as 16 hexadecimal digits in lower case. It is read from 16 ASCII bytes, each two of which are
/// two hexadecimal digits of either case, or `+` and one; the one error is that a text has another form.
#[derive(Clone, Copy, Debug, PartialEq, Eq, Hash)]
pub struct BpfTag(pub [u8; 8]);

/// The tag of these bytes.
impl From<[u8; 8]> for BpfTag {
    ghost from_gives = { λ bytes tag. tag.0 ≡ bytes };

    fn from(bytes: [u8; 8]) -> Self {
        BpfTag(bytes)
    }
}

impl fmt::Display for BpfTag {
    ghost output = { λ tag. Some (tag_text tag.0) };

    fn fmt<W: fmt::Write>(&self, f: &mut fmt::Formatter<W>) -> fmt::Result {
        for byte in &self.0 {
            write_byte(f, *byte)?;
        }
        Ok(())
    }
}

/// Writes the two digits of a byte.
fn write_byte<W: fmt::Write>(f: &mut fmt::Formatter<W>, byte: u8) -> fmt::Result
    ensures { WritesOnOk W.write_str_gives f.old result (tag_text (byte ∷ [])) f.new }
{
    write!(f, "{byte:02x}")
}

/// A tag that is printed reads back as itself.
impl FromStr for BpfTag {
    type Err = ();

    ghost from_str_gives = { λ text result. ReadsTag text (result_ok result) × PrintedReadsBack };

    fn from_str(text: &str) -> Result<Self, ()> {
        tag_in(text.as_bytes()).ok_or(())
    }
}

/// The value of a hexadecimal digit of either case.
fn digit_in(byte: u8) -> Option<u8>
    ensures { result ≡ hex_value byte }
{
    match byte {
        b'0'..=b'9' => Some(byte - b'0'),
        b'a'..=b'f' => Some(byte - b'a' + 10),
        b'A'..=b'F' => Some(byte - b'A' + 10),
        _ => None,
    }
}

/// The byte that two hexadecimal digits write, or `+` and one.
fn byte_in(first: u8, second: u8) -> Option<u8>
    ensures { result ≡ pair_value first second }
{
    let low = digit_in(second)?;
    if first == b'+' {
        return Some(low);
    }
    let high = digit_in(first)?;
    Some(16 * high + low)
}

/// The tag that some bytes write.
pub(crate) fn tag_in(text: &[u8]) -> Option<BpfTag>
    ensures reads { ReadsTag text.now result }
    ensures back { PrintedReadsBack }
{
    if text.len() != 16 {
        return None;
    }
    let mut tag = [0; 8];
    for i in 0..8 {
        tag[i] = byte_in(text[2 * i], text[2 * i + 1])?;
    }
    Some(BpfTag(tag))
}
