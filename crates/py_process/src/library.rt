//! Which files are Python's shared library.
ghost use Rattle.std.specs.Prelude.{◌≡◌, ◌↔◌, ℕ, true, IsTrue, drop, option_copied};
ghost use Rattle.py_process.specs.Library.{IsLibrary};
ghost use Rattle.py_process.specs.LibraryFronts.{past_mark, begins_so, has_version_end, has_flag_end, has_minor_end};
ghost use Rattle.py_process.specs.LibraryFronts.{has_minor, has_version, begins_library};

use bstr::decode_utf8;

/// What is behind a character that does not end the line, where one stands here.
fn past_mark(bytes: &[u8]) -> Option<&[u8]>
    ensures { option_copied result ≡ past_mark bytes.now }
{
    match decode_utf8(bytes) {
        (Some(character), size) if character != '\n' => Some(bytes.split_at(size).1),
        _ => None,
    }
}

/// Whether `so` stands here.
fn begins_so(bytes: &[u8]) -> bool
    ensures { result ≡ begins_so bytes.now }
{
    matches!(bytes, [b's', b'o', ..])
}

/// Whether such a character stands here, and `so` behind it.
fn has_version_end(bytes: &[u8]) -> bool
    ensures { result ≡ has_version_end bytes.now }
{
    match past_mark(bytes) {
        Some(rest) => begins_so(rest),
        None => false,
    }
}

/// The same, maybe behind one of the flags of a build.
fn has_flag_end(bytes: &[u8]) -> bool
    ensures { result ≡ has_flag_end bytes.now }
{
    if has_version_end(bytes) {
        return true;
    }
    match bytes {
        [b'm' | b'd' | b'u', rest @ ..] => has_version_end(rest),
        _ => false,
    }
}

/// The same, maybe behind the second digit of a number.
fn has_minor_end(bytes: &[u8]) -> bool
    ensures { result ≡ has_minor_end bytes.now }
{
    if has_flag_end(bytes) {
        return true;
    }
    match bytes {
        [b'0'..=b'9', rest @ ..] => has_flag_end(rest),
        _ => false,
    }
}

/// Whether a digit stands here, and that end behind it.
fn has_minor(bytes: &[u8]) -> bool
    ensures { result ≡ has_minor bytes.now }
{
    match bytes {
        [b'0'..=b'9', rest @ ..] => has_minor_end(rest),
        _ => false,
    }
}

/// The same behind a digit and a character that does not end the line.
fn has_version(bytes: &[u8]) -> bool
    ensures { result ≡ has_version bytes.now }
{
    let [b'0'..=b'9', rest @ ..] = bytes else {
        return false;
    };
    match past_mark(rest) {
        Some(rest) => has_minor(rest),
        None => false,
    }
}

/// Whether a library's name stands here.
fn begins_library(bytes: &[u8]) -> bool
    ensures { result ≡ begins_library bytes.now }
{
    let [b'/', ..] = bytes else {
        return false;
    };
    match bytes.strip_prefix(b"/libpython") {
        Some(rest) => has_version(rest),
        None => false,
    }
}

/// Whether a library's name stands anywhere.
fn has_library(bytes: &[u8]) -> bool
    ensures { IsTrue result ↔ ((place : ℕ) × (begins_library (drop place bytes.now) ≡ true)) }
{
    for place in 0..bytes.len() {
        if begins_library(&bytes[place..]) {
            return true;
        }
    }
    false
}

/// Whether a path is that of Python's shared library.
///
/// True exactly where it is UTF-8 and somewhere in it stand, in this order: `/libpython`; a digit; a
/// character other than a newline; a digit; where they are there, one digit more, and `m`, `d` or `u`; a
/// character other than a newline; `so`. Digits are ASCII. So a dot between the numbers, or before `so`, may
/// be another character: py-spy finds libraries by such a pattern.
pub fn is_python_lib(pathname: &[u8]) -> bool
    ensures { IsTrue result ↔ IsLibrary pathname.now }
{
    has_library(pathname) && str::from_utf8(pathname).is_ok()
}
