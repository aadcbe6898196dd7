//! How many bytes a text's object takes.
ghost use Rattle.std.specs.Prelude.{◌≡◌, ◌+◌, ◌<◌, ◌≤◌, ◌^◌, length};
ghost use Rattle.std.specs.Str.{chars};
ghost use Rattle.py_fields.specs.Sound.{IsSound};
ghost use Rattle.object_builder.specs.Sizes.{rounded, all_under, is_short_headed, least_width, characters_start};
ghost use Rattle.object_builder.specs.Sizes.{characters_len, text_len};
ghost use Rattle.object_builder.specs.Texts.{IsBriefText};

use elf64_core::Text;
use py_fields::{Layout, Strings};

/// The next multiple of 16.
pub fn rounded(len: u64) -> u64
    requires { len < 2 ^ 60 }
    ensures value { result ≡ rounded len }
    ensures bound { result < len + 16 }
{
    (len + 15) / 16 * 16
}

/// Whether all characters are below one.
pub(crate) fn all_under(limit: u32, text: &str) -> bool
    ensures { result ≡ all_under limit (chars text.now) }
{
    text.chars().all(|c| u32::from(c) < limit)
}

/// Whether a text is written in UTF-8, behind the shorter head.
fn is_short_headed(strings: Strings, text: &Text) -> bool
    ensures { result ≡ is_short_headed strings text.now }
{
    match strings {
        Strings::State => all_under(0x80, text.as_str()),
        Strings::Bytes => true,
    }
}

/// How many bytes each character of a text takes that isn't written in UTF-8.
fn least_width(text: &Text) -> u64
    ensures value { result ≡ least_width text.now }
    ensures bound { result ≤ 4 }
{
    let text = text.as_str();
    if all_under(0x100, text) {
        1
    } else if all_under(0x1_0000, text) {
        2
    } else {
        4
    }
}

/// How many characters a text has.
pub(crate) fn count_of(text: &Text) -> u64
    ensures { result ≡ length text.now }
{
    text.as_str().chars().count() as u64
}

/// Where the characters of a text end in its object.
fn characters_end(layout: &Layout, text: &Text) -> u64
    requires sound { IsSound layout.now }
    requires brief { IsBriefText text.now }
    ensures value { result ≡ characters_start layout.now text.now + characters_len layout.now text.now }
    ensures bound { result < 2 ^ 30 }
{
    if is_short_headed(layout.strings, text) {
        u64::from(layout.string.short_at) + text.as_str().len() as u64
    } else {
        u64::from(layout.string.long_at.unwrap_or(0)) + least_width(text) * count_of(text)
    }
}

/// How long a text is.
pub fn text_len(layout: &Layout, text: &Text) -> u64
    requires sound { IsSound layout.now }
    requires brief { IsBriefText text.now }
    ensures value { result ≡ text_len layout.now text.now }
    ensures bound { result < 2 ^ 33 }
{
    let record = layout.string.size.max(layout.object.size);
    u64::from(record).max(characters_end(layout, text))
}
