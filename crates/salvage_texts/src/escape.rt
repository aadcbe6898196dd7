//! Names and values within a line.
ghost use Rattle.std.specs.Prelude.{◌≡◌, ◌≢◌, ◌≤◌, ◌++◌, true, All, IfOk, OnOk, encode_utf8_all, string_bytes};
ghost use Rattle.salvage_texts.specs.Escape.{escaped, escaped_character, is_control, stands_plain};

use elf64_core::Text;
use std::alloc::{AllocError, Global};

/// Whether a character is a control character (Unicode's category Cc), or separates lines or paragraphs.
fn is_control(c: char) -> bool
    ensures { result ≡ is_control c }
{
    let code = u32::from(c);
    code < 32 || (127 <= code && code < 160) || code == 0x2028 || code == 0x2029
}

/// Whether a character stands for itself: in a name neither a quote nor a backslash does.
fn stands_plain(is_name: bool, c: char) -> bool
    ensures { result ≡ stands_plain is_name c }
{
    if is_control(c) {
        return false;
    }
    !(is_name && (c == '"' || c == '\\'))
}

/// Appends a character, or `\u{..}` with its code.
fn push_character(text: &mut String, is_name: bool, c: char) -> Result<(), AllocError>
    ensures { OnOk result (string_bytes text.new ≡ string_bytes text.old ++ escaped_character is_name c) }
{
    if stands_plain(is_name, c) {
        return text.push(c);
    }
    let code = u32::from(c);
    write!(text, "\\u{{{code:x}}}")
}

/// The characters of a text.
fn characters(alloc: Global, text: &Text) -> Result<Vec<char>, AllocError>
    ensures { IfOk result (λ found. found.items ≡ text.now) }
{
    text.as_str().chars().collect(alloc)
}

/// Appends a name or a value, in which each control character stands as `\u{..}` with its code; and in a name each
/// quote and backslash too. The one error is out of memory.
#[tactic(auto, unfolding(crate::specs::Escape::escaped))]
pub fn push_escaped(
    alloc: Global,
    text: &mut String,
    is_name: bool,
    shown: &Text,
) -> Result<(), AllocError>
    ensures adds { OnOk result (string_bytes text.new ≡ string_bytes text.old ++ escaped is_name shown.now) }
    // it ends no line, nor is it taken for more than one
    ensures one_line { All (λ byte. 32 ≤ byte) (escaped is_name shown.now) }
    ensures no_quote { is_name ≡ true → All (λ byte. byte ≢ 34) (escaped is_name shown.now) }
{
    let chars = characters(alloc, shown)?;
    for c in &chars {
        push_character(text, is_name, *c)?;
    }
    Ok(())
}
