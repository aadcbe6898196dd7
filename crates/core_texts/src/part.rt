//! Parts of a line.
ghost use Rattle.std.specs.Prelude.{◌≡◌, ◌≤◌, length};
ghost use Rattle.core_texts.specs.Parts.{said};

/// A part of a line.
#[derive(Debug, Clone, Copy)]
pub enum Part<'a> {
    Text(&'a str),
    /// Bytes that need not be text, such as a file's name, as they are.
    Bytes(&'a [u8]),
    /// `0x` and lower-case hexadecimal digits, none leading.
    Address(u64),
    Decimal(u64),
    Signed(i32),
}

/// Nine parts, the last of which may be empty texts.
pub type Parts<'a> = [Part<'a>; 9];

/// At most nine parts, with empty texts after them.
pub fn parts<'a>(list: &[Part<'a>]) -> Parts<'a>
    requires few { length list.now ≤ 9 }
    ensures { said result ≡ said list.now }
{
    let mut all = [Part::Text(""); 9];
    all[..list.len()].copy_from_slice(list);
    all
}
