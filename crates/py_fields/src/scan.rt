//! The scan for a version.
ghost use Rattle.std.specs.Prelude.{◌≡◌, ◌↔◌, ℕ, IfOk, IfSome, Err, None, MatchOption, IsAscii, drop};
ghost use Rattle.py_fields.specs.Spelling.{IsLeftmost, SpellsNone, SpellsOnce};
ghost use Rattle.py_fields.specs.Fronts.{IsFirstVersion, borrowed, spelled, version_of};

use crate::spelling::{Spelling, spelling_at};
use crate::{ScanError, Version};
use elf64_core::Text;
use std::alloc::{AllocError, Global};

/// The spelling that stands first.
fn first_spelling(bytes: &[u8]) -> Option<Spelling<'_>>
    ensures { MatchOption result ((place : ℕ) → spelled (drop place bytes.now) ≡ None)
        (λ s. IsFirstVersion bytes.now (version_of s)) }
{
    for place in 0..bytes.len() {
        if let Some(spelling) = spelling_at(&bytes[place..]) {
            return Some(spelling);
        }
    }
    None
}

/// The text of ASCII bytes.
fn ascii_text(alloc: Global, bytes: &[u8]) -> Result<Text, AllocError>
    requires { IsAscii bytes.now }
    ensures { IfOk result (λ text. text ≡ bytes.now) }
{
    match str::from_utf8(bytes) {
        Ok(text) => Text::of(alloc, text),
        Err(_) => unreachable!(),
    }
}

fn metadata_text(alloc: Global, metadata: Option<&[u8]>) -> Result<Option<Text>, AllocError>
    requires { IfSome metadata (λ bytes. IsAscii bytes.now) }
    ensures { IfOk result (λ text. text ≡ borrowed metadata.entry) }
{
    match metadata {
        Some(metadata) => Ok(Some(ascii_text(alloc, metadata)?)),
        None => Ok(None),
    }
}

/// A version of its own by the parts of its text.
fn version_by(alloc: Global, spelling: &Spelling<'_>) -> Result<Version, AllocError>
    requires flags { IsAscii spelling.now.flags.now }
    requires metadata { IfSome spelling.now.metadata (λ bytes. IsAscii bytes.now) }
    ensures { IfOk result (λ version. version ≡ version_of spelling.now) }
{
    let release_flags = ascii_text(alloc, spelling.flags)?;
    let build_metadata = metadata_text(alloc, spelling.metadata)?;
    Ok(Version {
        major: spelling.major,
        minor: spelling.minor,
        patch: spelling.patch,
        release_flags,
        build_metadata,
    })
}

impl Version {
    /// The version that is spelled leftmost in some bytes, as those of `Py_GetVersion`'s text are.
    ///
    /// A spelling is, in this order: `2` or `3`; a dot; 3 to 14, with no zero in front; a dot; one or two
    /// digits; where they are there, flags: `a`, `b`, `c` or `rc` and one or two digits; where it is there,
    /// `+` with its metadata: nothing, or runs of one or more of `0` to `9`, `a` to `z` and `-` joined by
    /// dots; a space; a character in UTF-8 other than a newline. Digits are ASCII. What stands before it
    /// does not matter: `13.7.1 x` spells 3.7.1. Where a place spells a version it spells one.
    ///
    /// `NotFound` comes exactly where no place spells one. Else the one error is out of memory.
    pub fn scan_bytes(alloc: Global, bytes: &[u8]) -> Result<Version, ScanError>
        ensures found { IfOk result (IsLeftmost bytes.now) }
        ensures not_found { (result ≡ Err ScanError.NotFound) ↔ SpellsNone bytes.now }
        ensures once { SpellsOnce bytes.now }
    {
        let Some(spelling) = first_spelling(bytes) else {
            return Err(ScanError::NotFound);
        };
        let version = version_by(alloc, &spelling)?;
        Ok(version)
    }
}
