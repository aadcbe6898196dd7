//! Texts and bytes in quotes.
ghost use Rattle.std.specs.Prelude.{◌≡◌, ◌++◌, ◌∷◌, ◌^◌, ◌-◌, List, ℕ, OnOk, codes, false, [], string_bytes};
ghost use Rattle.std.specs.Fmt.{digits, format_spec, padded_integral};
ghost use Rattle.python_literals.specs.Literals.{Literal};
ghost use Rattle.python_literals.specs.Quotes.{escapes_apostrophe, has, hex_text, is_printable, long_text, point_text};
ghost use Rattle.python_literals.specs.Quotes.{points_text, quote_of, quoted, short_of, stands_plain};

use std::alloc::AllocError;
use ucd_category::{GeneralCategory, GeneralCategoryGroup};

/// Which code points stand for themselves.
#[derive(Debug, Clone, Copy, Drop, PartialEq, Eq)]
pub enum Style {
    /// Those that can be printed, as in Python 3's `str`.
    Printable,
    /// Those of ASCII from the blank to the tilde, as in `bytes`, and in Python 2's `str` and `unicode`.
    Ascii,
    /// The same, but for the apostrophe, also within double quotes, as in `bytearray`.
    ByteArray,
}

/// Whether a character can be printed, as `str.isprintable` says: it is none of Unicode's groups Other and Separator,
/// or it is the blank.
pub fn is_printable(c: char) -> bool
    ensures { result ≡ is_printable c }
{
    let category = GeneralCategory::for_char(c);
    c == ' '
        || !(GeneralCategoryGroup::Other.contains(category)
            || GeneralCategoryGroup::Separator.contains(category))
}

/// Whether a character stands for itself.
fn stands_plain(style: Style, c: char) -> bool
    ensures { result ≡ stands_plain style c }
{
    match style {
        Style::Printable => is_printable(c),
        Style::Ascii => ' ' <= c && c <= '~',
        Style::ByteArray => ' ' <= c && c <= '~',
    }
}

/// Whether an apostrophe is escaped within double quotes too.
fn escapes_apostrophe(style: Style) -> bool
    ensures { result ≡ escapes_apostrophe style }
{
    match style {
        Style::Printable => false,
        Style::Ascii => false,
        Style::ByteArray => true,
    }
}

/// What stands behind a backslash for a code point that has a short form.
fn short_of(style: Style, quote: char, point: u32) -> Option<char>
    ensures { result ≡ short_of style quote point }
{
    if point == u32::from(quote) {
        return Some(quote);
    }
    if escapes_apostrophe(style) && point == 39 {
        return Some('\'');
    }
    match point {
        92 => Some('\\'),
        9 => Some('t'),
        10 => Some('n'),
        13 => Some('r'),
        _ => None,
    }
}

/// Appends the number of a code point below 256.
fn push_two(text: &mut String, point: u32) -> Result<(), AllocError>
    ensures { OnOk result (string_bytes text.new ≡ string_bytes text.old ++ (codes "\\x"
        ++ padded_integral (format_spec 32 0 4 2 (2 ^ 64 - 1)) false [] (digits 16 false point))) }
{
    write!(text, "\\x{point:02x}")
}

/// Appends the number of one below 65536.
fn push_four(text: &mut String, point: u32) -> Result<(), AllocError>
    ensures { OnOk result (string_bytes text.new ≡ string_bytes text.old ++ (codes "\\u"
        ++ padded_integral (format_spec 32 0 4 4 (2 ^ 64 - 1)) false [] (digits 16 false point))) }
{
    write!(text, "\\u{point:04x}")
}

/// Appends any number.
fn push_eight(text: &mut String, point: u32) -> Result<(), AllocError>
    ensures { OnOk result (string_bytes text.new ≡ string_bytes text.old ++ (codes "\\U"
        ++ padded_integral (format_spec 32 0 4 8 (2 ^ 64 - 1)) false [] (digits 16 false point))) }
{
    write!(text, "\\U{point:08x}")
}

/// Appends a code point by its number.
fn push_hex(text: &mut String, point: u32) -> Result<(), AllocError>
    ensures { OnOk result (string_bytes text.new ≡ string_bytes text.old ++ hex_text point) }
{
    if point < 0x100 {
        return push_two(text, point);
    }
    if point < 0x1_0000 {
        return push_four(text, point);
    }
    push_eight(text, point)
}

/// Appends a code point that has no short form.
fn push_long(text: &mut String, style: Style, point: u32) -> Result<(), AllocError>
    ensures { OnOk result (string_bytes text.new ≡ string_bytes text.old ++ long_text style point) }
{
    match char::from_u32(point) {
        Some(c) if stands_plain(style, c) => text.push(c),
        _ => push_hex(text, point),
    }
}

/// Appends a code point.
#[tactic(auto, unfolding(crate::specs::Quotes::point_text))]
fn push_point(text: &mut String, style: Style, quote: char, point: u32) -> Result<(), AllocError>
    ensures { OnOk result (string_bytes text.new ≡ string_bytes text.old ++ point_text style quote point) }
{
    match short_of(style, quote, point) {
        Some(short) => {
            text.push('\\')?;
            text.push(short)
        }
        None => push_long(text, style, point),
    }
}

/// Whether a code point is among some.
fn has(point: u32, points: &[u32]) -> bool
    ensures { result ≡ has point points.now }
{
    points.iter().any(|one| *one == point)
}

/// The quote in which some code points stand.
fn quote_of(points: &[u32]) -> char
    ensures { result ≡ quote_of points.now }
{
    if has(39, points) && !has(34, points) {
        '"'
    } else {
        '\''
    }
}

/// Appends code points within quotes.
#[tactic(auto, unfolding(crate::specs::Quotes::points_text))]
fn push_points(
    text: &mut String,
    style: Style,
    quote: char,
    points: &[u32],
) -> Result<(), AllocError>
    ensures { OnOk result (string_bytes text.new ≡ string_bytes text.old ++ points_text style quote points.now) }
{
    for point in points {
        push_point(text, style, quote, *point)?;
    }
    Ok(())
}

/// Appends code points in quotes, as Python's `repr` writes them: in apostrophes, unless there is an apostrophe among
/// them and no double quote. What does not stand for itself is escaped. A surrogate may be among them. The one error is
/// out of memory.
#[tactic(auto, unfolding(crate::specs::Quotes::quoted))]
pub fn push_quoted(text: &mut String, style: Style, points: &[u32]) -> Result<(), AllocError>
    ensures adds { OnOk result (string_bytes text.new ≡ string_bytes text.old ++ quoted style points.now) }
    // it is read as these points
    ensures reads { (rest : List ℕ) → Literal (quoted style points.now ++ rest) points.now rest }
    // and as no others
    ensures only { (rest others behind : List ℕ)
        → Literal (quoted style points.now ++ rest) others behind → (others ≡ points.now) × (behind ≡ rest) }
{
    let quote = quote_of(points);
    text.push(quote)?;
    push_points(text, style, quote, points)?;
    text.push(quote)
}
