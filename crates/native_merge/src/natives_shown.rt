//! How native frames are shown.
ghost use Rattle.std.specs.Prelude.{◌≡◌, IfOk};
ghost use Rattle.py_stacks.specs.Frames.{call_of};
ghost use Rattle.native_merge.specs.NativesShown.{ShowsNative, address_name, fault_call, holds_piece, is_dropped};
ghost use Rattle.native_merge.specs.NativesShown.{is_dropped_function, is_thread_start, line_shown, native_call};
ghost use Rattle.native_merge.specs.NativesShown.{source_shown};
ghost use Rattle.native_merge.specs.Sources.{Stay};

use crate::{NativeFrame, Sources, demangle, ignore_frame, resolve_filename};
use elf64_core::Text;
use py_stacks::Frame;
use std::alloc::{AllocError, Global};

/// Whether some bytes stand somewhere in a text.
fn holds_piece(text: &[u8], piece: &[u8]) -> bool
    ensures { result ≡ holds_piece piece.now text.now }
{
    let mut rest = text;
    while let [_, after @ ..] = rest {
        if rest.starts_with(piece) {
            return true;
        }
        rest = after;
    }
    rest.starts_with(piece)
}

/// Whether a process or a thread begins in this function of the C library's.
fn is_thread_start(function: &str, module: &str) -> bool
    ensures { result ≡ is_thread_start function.now «module».now }
{
    match function {
        "__libc_start_main" | "__clone" => holds_piece(module.as_bytes(), b"/libc"),
        "start_thread" => holds_piece(module.as_bytes(), b"/libpthread"),
        _ => false,
    }
}

fn is_dropped_function(function: &str, module: &str) -> bool
    ensures { result ≡ is_dropped_function function.now «module».now }
{
    ignore_frame(function) || is_thread_start(function, module)
}

/// Whether a native frame is shown nowhere.
pub(crate) fn is_dropped(native: &NativeFrame) -> bool
    ensures { result ≡ is_dropped native.now }
{
    match &native.function {
        Some(function) => is_dropped_function(function.as_str(), native.module.as_str()),
        None => false,
    }
}

fn line_shown(line: Option<u32>) -> i32
    ensures { result ≡ line_shown line }
{
    match line {
        Some(line) => { if line < 1 << 31 { line as i32 } else { 0 } }
        None => 0,
    }
}

/// A frame of native code, as it is shown.
fn native_frame(name: Text, filename: Text, module: Option<Text>, line: i32) -> Frame
    ensures { call_of result ≡ native_call name filename «module» line }
{
    Frame {
        name,
        filename,
        module,
        short_filename: None,
        line,
        locals: None,
        is_entry: true,
        is_shim_entry: true,
    }
}

fn address_name(alloc: Global, addr: u64) -> Result<Text, AllocError>
    ensures { IfOk result (λ text. text ≡ address_name addr) }
{
    let text = format!(in alloc; "0x{addr:x}")?;
    let shared = Text::from_string(text)?;
    Ok(shared)
}

/// The frame of an address that can't be looked up.
pub(crate) fn fault_frame(alloc: Global, addr: u64) -> Result<Frame, AllocError>
    ensures { IfOk result (λ frame. call_of frame ≡ fault_call addr) }
{
    let name = address_name(alloc, addr)?;
    let filename = Text::of(alloc, "?")?;
    Ok(native_frame(name, filename, None, 0))
}

/// The source file of a native frame, as it is found.
fn source_shown<F: Sources>(
    alloc: Global,
    sources: &mut F,
    module: &Text,
    filename: &Option<Text>,
) -> Result<Text, AllocError>
    ensures file { IfOk result (λ text. text ≡ source_shown (F.seen sources.old).exists «module».now filename.now) }
    ensures stay { Stay (F.seen sources.old) (F.seen sources.new) }
{
    let Some(filename) = filename else {
        return module.share();
    };
    let found = resolve_filename(alloc, sources, filename.as_str(), module.as_str())?;
    match found {
        Some(path) => Ok(path),
        None => filename.share(),
    }
}

/// A native frame that is not dropped, as it is shown.
pub(crate) fn shown_frame<F: Sources>(
    alloc: Global,
    sources: &mut F,
    native: &NativeFrame,
) -> Result<Frame, AllocError>
    ensures shows { IfOk result (λ frame. ShowsNative (F.seen sources.old).exists native.now (call_of frame)) }
    ensures stay { Stay (F.seen sources.old) (F.seen sources.new) }
{
    let module = native.module.share()?;
    let Some(function) = &native.function else {
        let name = address_name(alloc, native.addr)?;
        let filename = native.module.share()?;
        return Ok(native_frame(name, filename, Some(module), 0));
    };
    let name = Text::of(alloc, demangle(function.as_str()))?;
    let filename = source_shown(alloc, sources, &native.module, &native.filename)?;
    let line = line_shown(native.line);
    Ok(native_frame(name, filename, Some(module), line))
}
