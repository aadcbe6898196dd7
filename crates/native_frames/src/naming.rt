//! Frames with their functions.
ghost use Rattle.std.specs.Prelude.{◌≡◌, IfOk, IfSome, OnOk, option_copied, length, None};
ghost use Rattle.core_unwind.specs.Places.{IsOpened};
ghost use Rattle.native_frames.specs.Kept.{AreKept, IsMade};
ghost use Rattle.native_frames.specs.Naming.{AreNamed, IsFunctionAt, IsFunctionIn, IsKept, IsNamed, bytes_behind};
ghost use Rattle.native_frames.specs.Naming.{bytes_of};

use crate::stacks::{Function, NativeFrame};
use crate::symbols::FileSymbols;
use core_unwind::{CodeMap, Frame};
use elf64_core::{Elf64, ElfError};
use std::alloc::{AllocError, Global};
use std::collections::BTreeMap;

/// The symbols of files by their numbers: each file's are read once, when its first frame comes.
pub type Kept<'a> = BTreeMap<usize, FileSymbols<'a>>;

/// The file as ELF.
fn opened(file: &[u8]) -> Option<Elf64<'_>>
    ensures { IsOpened file.now result }
{
    match Elf64::parse(file) {
        Ok(elf) => Some(elf),
        Err(ElfError::NotElf64) => None,
        Err(ElfError::BadHeader) => None,
        Err(ElfError::BadNote) => None,
        Err(ElfError::OutOfMemory) => None,
    }
}

/// The bytes of the file of a number, if it is at hand.
fn bytes_of<'a>(mappings: &CodeMap<'a>, file: usize) -> Option<&'a [u8]>
    ensures { option_copied result ≡ bytes_of mappings.now file }
{
    let mapping = mappings.mapping(file)?;
    mapping.bytes
}

/// The symbols of the file of a number; none where it is not at hand, or no ELF file.
fn made<'a>(
    alloc: Global,
    mappings: &CodeMap<'a>,
    file: usize,
) -> Result<Option<FileSymbols<'a>>, AllocError>
    ensures { IfOk result (IsMade mappings.now file) }
{
    let Some(bytes) = bytes_of(mappings, file) else {
        return Ok(None);
    };
    let Some(elf) = opened(bytes) else {
        return Ok(None);
    };
    let symbols = FileSymbols::of(alloc, &elf)?;
    Ok(Some(symbols))
}

/// Keeps the symbols of the file of a number.
fn keep<'a>(
    mappings: &CodeMap<'a>,
    kept: &mut Kept<'a>,
    file: usize,
    symbols: FileSymbols<'a>,
) -> Result<(), AllocError>
    requires kept { AreKept mappings.now kept.old }
    requires own { IsKept mappings.now file symbols }
    ensures { AreKept mappings.now kept.new }
{
    kept.insert(file, symbols)?;
    Ok(())
}

/// The function at an address of the file of a number.
fn function_in<'a>(
    alloc: Global,
    mappings: &CodeMap<'a>,
    kept: &mut Kept<'a>,
    file: usize,
    address: u64,
    more: u64,
) -> Result<Option<Function>, AllocError>
    requires kept { AreKept mappings.now kept.old }
    ensures is { IfOk result (IsFunctionIn (bytes_of mappings.now file) address more) }
    ensures kept { AreKept mappings.now kept.new }
{
    if let Some(symbols) = kept.get(&file) {
        return symbols.function_at(alloc, address, more);
    }
    let Some(symbols) = made(alloc, mappings, file)? else {
        return Ok(None);
    };
    let function = symbols.function_at(alloc, address, more)?;
    keep(mappings, kept, file, symbols)?;
    Ok(function)
}

/// How many bytes a frame's address stands behind the place by which it is looked up.
fn bytes_behind(frame: &Frame) -> u64
    ensures { result ≡ bytes_behind frame.now }
{
    if frame.is_exact { 0 } else { 1 }
}

/// The function of a frame.
fn function_at<'a>(
    alloc: Global,
    mappings: &CodeMap<'a>,
    kept: &mut Kept<'a>,
    frame: &Frame,
) -> Result<Option<Function>, AllocError>
    requires kept { AreKept mappings.now kept.old }
    ensures is { IfOk result (IsFunctionAt mappings.now frame.now frame.now.place) }
    ensures kept { AreKept mappings.now kept.new }
{
    match frame.place {
        Some(place) => {
            let more = bytes_behind(frame);
            function_in(alloc, mappings, kept, place.file, place.address, more)
        }
        None => Ok(None),
    }
}

/// A frame with its function.
fn named_frame<'a>(
    alloc: Global,
    mappings: &CodeMap<'a>,
    kept: &mut Kept<'a>,
    frame: &Frame,
) -> Result<NativeFrame, AllocError>
    requires kept { AreKept mappings.now kept.old }
    ensures is { IfOk result (IsNamed mappings.now frame.now) }
    ensures kept { AreKept mappings.now kept.new }
{
    let function = function_at(alloc, mappings, kept, frame)?;
    Ok(NativeFrame {
        frame: *frame,
        function,
    })
}

/// Frames with their functions. The one error is out of memory.
pub(crate) fn named_frames<'a>(
    alloc: Global,
    mappings: &CodeMap<'a>,
    kept: &mut Kept<'a>,
    frames: &[Frame],
) -> Result<Vec<NativeFrame>, AllocError>
    requires kept { AreKept mappings.now kept.old }
    ensures is { IfOk result (λ named. AreNamed mappings.now frames.now named.items) }
    ensures kept { AreKept mappings.now kept.new }
{
    let mut named = Vec::new(alloc);
    for frame in frames {
        let one = named_frame(alloc, mappings, kept, frame)?;
        named.push(one)?;
    }
    Ok(named)
}
