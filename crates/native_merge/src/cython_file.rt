//! Where Cython's source files are looked for.
ghost use Rattle.std.specs.Prelude.{◌≡◌, ◌++◌, string_bytes, IfOk, OnOk, option_map};
ghost use Rattle.std.specs.Str.{chars};
ghost use Rattle.native_merge.specs.Paths.{cython_file, extension_in, file_in_module, is_called, is_folder, renamed};
ghost use Rattle.native_merge.specs.Paths.{with_dot, with_extension};
ghost use Rattle.native_merge.specs.Sources.{Stay};

use crate::paths::split_behind;
use crate::{Sources, resolve_filename};
use elf64_core::Text;
use std::alloc::{AllocError, Global};

/// The extension of the last part of a path.
fn extension(part: &str) -> Option<&str>
    ensures { option_map (λ extension. extension.now) result ≡ extension_in part.now }
{
    let (_, extension) = split_behind(part, b'.');
    if extension.is_empty() || extension.len() + 1 >= part.len() {
        return None;
    }
    Some(extension)
}

/// Adds the last part of a path up to and with the dot of its extension, or with a dot behind it.
fn push_with_dot(text: &mut String, part: &str) -> Result<(), AllocError>
    ensures { OnOk result (string_bytes text.new ≡ string_bytes text.old ++ with_dot part.now) }
{
    if extension(part).is_some() {
        let (dotted, _) = split_behind(part, b'.');
        text.push_str(dotted)?;
        return Ok(());
    }
    text.push_str(part)?;
    text.push_str(".")?;
    Ok(())
}

/// A path with another extension.
fn with_extension(alloc: Global, path: &str, extension: &str) -> Result<String, AllocError>
    ensures { IfOk result (λ text. string_bytes text ≡ with_extension path.now extension.now) }
{
    let (folder, part) = split_behind(path, b'/');
    let mut text = String::from_str(alloc, folder)?;
    push_with_dot(&mut text, part)?;
    text.push_str(extension)?;
    Ok(text)
}

fn is_folder(front: &[u8]) -> bool
    ensures { result ≡ is_folder front.now }
{
    front.is_empty() || front[front.len() - 1] == b'/'
}

/// Whether a path is this name, or ends with a slash and this name.
fn is_called(path: &[u8], name: &[u8]) -> bool
    ensures { result ≡ is_called path.now name.now }
{
    if path.len() < name.len() {
        return false;
    }
    let (front, rest) = path.split_at(path.len() - name.len());
    rest == name && is_folder(front)
}

/// The C file's path with the extension of Cython's file, where it is called as that is.
fn renamed(alloc: Global, cpp_filename: &str, name: &str) -> Result<Option<String>, AllocError>
    ensures { IfOk result (λ path. option_map (λ text. string_bytes text) path ≡ renamed cpp_filename.now name.now) }
{
    let (_, part) = split_behind(name, b'/');
    let Some(extension) = extension(part) else {
        return Ok(None);
    };
    let path = with_extension(alloc, cpp_filename, extension)?;
    if is_called(path.as_bytes(), name.as_bytes()) {
        return Ok(Some(path));
    }
    Ok(None)
}

/// The file that is found with the module, else the name.
fn file_in_module<F: Sources>(
    alloc: Global,
    sources: &mut F,
    module: Option<&str>,
    name: &str,
) -> Result<Text, AllocError>
    ensures found { IfOk result (λ file. file
        ≡ chars (file_in_module (F.seen sources.old).exists (option_map (λ name. name.now) «module».entry) name.now)) }
    ensures stay { Stay (F.seen sources.old) (F.seen sources.new) }
{
    let Some(module) = module else {
        return Text::of(alloc, name);
    };
    match resolve_filename(alloc, sources, name, module)? {
        Some(file) => Ok(file),
        None => Text::of(alloc, name),
    }
}

/// The path of Cython's file of this name: beside its C file, else as its module tells, else its name.
pub(crate) fn cython_file<F: Sources>(
    alloc: Global,
    sources: &mut F,
    cpp_filename: &str,
    module: Option<&str>,
    name: &str,
) -> Result<Text, AllocError>
    ensures found { IfOk result (λ file. file ≡ chars (cython_file (F.seen sources.old).exists cpp_filename.now
        (option_map (λ name. name.now) «module».entry) name.now)) }
    ensures stay { Stay (F.seen sources.old) (F.seen sources.new) }
{
    let Some(path) = renamed(alloc, cpp_filename, name)? else {
        return file_in_module(alloc, sources, module, name);
    };
    if sources.exists(path.as_bytes()) {
        let shared = Text::from_string(path)?;
        return Ok(shared);
    }
    file_in_module(alloc, sources, module, name)
}
