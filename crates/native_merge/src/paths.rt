//! Where a source file is looked for.
ghost use Rattle.std.specs.Prelude.{◌≡◌, ◌≤◌, ◌<◌, ◌-◌, ◌++◌, ◌==◌, ℕ, true, false, length, slice_index, string_bytes};
ghost use Rattle.std.specs.Prelude.{IfOk, option_map};
ghost use Rattle.std.specs.List.{after_last};
ghost use Rattle.std.specs.Str.{chars};
ghost use Rattle.native_merge.specs.Paths.{beside, is_no_file, is_no_module, resolved, up_to_last};
ghost use Rattle.native_merge.specs.Sources.{Stay};

use crate::Sources;
use elf64_core::Text;
use std::alloc::{AllocError, Global};

/// Where what stands behind the last of these bytes begins.
fn last_start(text: &[u8], mark: u8) -> usize
    ensures within { result ≤ length text.now }
    ensures after { (k : ℕ) → result ≤ k → k < length text.now → (slice_index text.now k == mark) ≡ false }
    ensures found { 0 < result → (slice_index text.now (result - 1) == mark) ≡ true }
{
    match text.iter().rposition(|byte| *byte == mark) {
        Some(place) => place + 1,
        None => 0,
    }
}

/// A text up to and with the last of these ASCII characters, and what stands behind that, or all of it.
pub(crate) fn split_behind(text: &str, mark: u8) -> (&str, &str)
    requires { mark < 128 }
    ensures front { result.0.now ≡ up_to_last (λ c. c == mark) text.now }
    ensures rest { result.1.now ≡ after_last (λ c. c == mark) text.now }
{
    text.split_at(last_start(text.as_bytes(), mark))
}

fn is_no_file(part: &str) -> bool
    ensures { result ≡ is_no_file part.now }
{
    part == "" || part == "." || part == ".."
}

fn is_no_module(name: &str) -> bool
    ensures { result ≡ is_no_module name.now }
{
    name == "" || name == "/"
}

/// One text behind another.
fn join(alloc: Global, front: &str, rest: &str) -> Result<String, AllocError>
    ensures { IfOk result (λ text. string_bytes text ≡ front.now ++ rest.now) }
{
    let mut text = String::from_str(alloc, front)?;
    text.push_str(rest)?;
    Ok(text)
}

/// The file of this name's last part in a module's folder; none where one of the two names none.
fn beside(alloc: Global, filename: &str, modulename: &str) -> Result<Option<String>, AllocError>
    ensures { IfOk result (λ path. option_map (λ text. string_bytes text) path ≡ beside filename.now modulename.now) }
{
    let (_, part) = split_behind(filename, b'/');
    if is_no_file(part) || is_no_module(modulename) {
        return Ok(None);
    }
    let (folder, _) = split_behind(modulename, b'/');
    let path = join(alloc, folder, part)?;
    Ok(Some(path))
}

/// The path of a source file that is called `filename` in a module's debug information, where it is found.
///
/// It is the file name itself where that exists; else the part behind its last `/` in the folder of `modulename`,
/// which is all up to its last `/`, where that exists; else none. No file is called by nothing, `.` or `..`, and a
/// module of the name `` or `/` has no folder. The one error is out of memory. The search is py-spy's.
pub fn resolve_filename<F: Sources>(
    alloc: Global,
    sources: &mut F,
    filename: &str,
    modulename: &str,
) -> Result<Option<Text>, AllocError>
    ensures found { IfOk result (λ found.
        found ≡ option_map chars (resolved (F.seen sources.old).exists filename.now modulename.now)) }
    ensures stay { Stay (F.seen sources.old) (F.seen sources.new) }
{
    if sources.exists(filename.as_bytes()) {
        let found = Text::of(alloc, filename)?;
        return Ok(Some(found));
    }
    let Some(path) = beside(alloc, filename, modulename)? else {
        return Ok(None);
    };
    if sources.exists(path.as_bytes()) {
        let shared = Text::from_string(path)?;
        return Ok(Some(shared));
    }
    Ok(None)
}
