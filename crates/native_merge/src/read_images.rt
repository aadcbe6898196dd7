//! The images of a process's files, read once.
ghost use Rattle.std.specs.Prelude.{◌≡◌, [], ◌∷◌, ℕ, All, IfOk, IfSome, List, MatchOption, Option, map, option_copied};
ghost use Rattle.std.specs.Prelude.{Some, option_map};
ghost use Rattle.bstr.specs.Utf8.{lossy_chars};
ghost use Rattle.std.specs.List.{find};
ghost use Rattle.elf64_core.specs.Header.{IsAccepted};
ghost use Rattle.elf64_core.specs.Symbols.{SymbolEntry, symbol_entry_of};
ghost use Rattle.image_memory.specs.Images.{first_under};
ghost use Rattle.image_memory.specs.Mmap.{Mapped, shown_bytes};
ghost use Rattle.normalize_core.specs.FileOffsets.{file_offset_shown};
ghost use Rattle.normalize_core.specs.Order.{in_order};
ghost use Rattle.covering_symbols.specs.Covering.{Covering, symbol_name_at};
ghost use Rattle.covering_symbols.specs.FunctionTables.{IsTableOf};
ghost use Rattle.native_merge.specs.ImageSymbols.{IsNameOfPlace, image_frame, normal_place};
ghost use Rattle.native_merge.specs.ReadImages.{IsFileOf, IsLookedUp, IsLookedUpUnder, IsReadOf, IsReadOfBytes};
ghost use Rattle.native_merge.specs.ReadImages.{IsReadUnder, is_read_under};

use crate::NativeFrame;
use covering_symbols::{FunctionTable, SegmentTable, image_symbols};
use elf64_core::{Elf64, Name, Symbol, Text};
use image_memory::Images;
use maps_text::MapsEntry;
use normalize_core::{FileOffset, file_offset};
use std::alloc::{AllocError, Global};

/// What is read of an ELF file that is accepted: its segments, its symbols and its functions.
#[derive(Drop)]
pub(crate) struct ReadFile<'a> {
    pub(crate) segments: SegmentTable,
    pub(crate) symbols: Vec<Symbol<'a>>,
    pub(crate) functions: FunctionTable,
}

/// An image that was read, where it is an ELF file that is accepted.
#[derive(Drop)]
pub(crate) struct ReadImage<'a> {
    pub(crate) path: &'a [u8],
    pub(crate) file: Option<ReadFile<'a>>,
}

/// What covers a place in a file that is accepted: the name of a function, where it has one.
#[derive(Clone, Copy)]
pub(crate) struct Covered<'a> {
    pub(crate) name: Option<&'a [u8]>,
}

/// The file and the place there that an address is normalized to.
pub(crate) fn normal_place(
    entries: &[MapsEntry],
    are_in_order: bool,
    addr: u64,
) -> Option<FileOffset<'_>>
    requires { are_in_order ≡ in_order entries.now }
    ensures { file_offset_shown result ≡ normal_place entries.now addr }
{
    if !are_in_order {
        return None;
    }
    file_offset(entries, addr)
}

/// What is read of an ELF file.
fn read_file<'a>(alloc: Global, elf: &Elf64<'a>) -> Result<ReadFile<'a>, AllocError>
    ensures { IfOk result (IsFileOf elf.now) }
{
    let segments = SegmentTable::of(alloc, elf)?;
    let symbols = image_symbols(alloc, elf)?;
    let functions = FunctionTable::of(alloc, &symbols)?;
    Ok(ReadFile {
        segments,
        symbols,
        functions,
    })
}

/// The same of bytes that need be no ELF file.
fn read_bytes<'a>(alloc: Global, bytes: &'a [u8]) -> Result<Option<ReadFile<'a>>, AllocError>
    ensures { IfOk result (IsReadOfBytes bytes.now) }
{
    match Elf64::parse(bytes) {
        Ok(elf) => Ok(Some(read_file(alloc, &elf)?)),
        Err(_) => Ok(None),
    }
}

/// The image under a path, where there is one.
fn read_under<'a>(
    alloc: Global,
    images: &'a Images,
    path: &'a [u8],
) -> Result<Option<ReadImage<'a>>, AllocError>
    ensures { IfOk result (IsReadUnder images.now path.now) }
{
    match images.get(path) {
        Some(image) => {
            let file = read_bytes(alloc, image.as_slice())?;
            Ok(Some(ReadImage { path, file }))
        }
        None => Ok(None),
    }
}

/// The name of the function that covers an address.
fn name_in<'a>(file: &ReadFile<'a>, addr: u128) -> Option<&'a [u8]>
    ensures { (symbols : List SymbolEntry) → symbols ≡ map symbol_entry_of file.now.symbols.items
        → IsTableOf symbols file.now.functions
        → (found : Option ℕ) × Covering symbols addr found × (option_copied result ≡ symbol_name_at symbols found) }
{
    let number = file.functions.covering(addr)?;
    let symbol = file.symbols.get(number)?;
    symbol.name
}

/// The name of the function that covers a place in a file, by what was read of the file.
fn name_at<'a>(file: &ReadFile<'a>, place: u64) -> Option<&'a [u8]>
    ensures { (bytes : List ℕ) → IsFileOf bytes file.now → IsNameOfPlace bytes place (option_copied result) }
{
    let addr = file.segments.address_of(place)?;
    name_in(file, addr)
}

/// What covers a place in a file, by what was read of the file.
fn covered_at<'a>(file: &Option<ReadFile<'a>>, place: u64) -> Option<Covered<'a>>
    ensures { (bytes : List ℕ) → IsReadOfBytes bytes file.now → IsLookedUp bytes place result }
{
    match file {
        Some(file) => Some(Covered {
            name: name_at(file, place),
        }),
        None => None,
    }
}

/// What was read of the image under a path.
fn find_read<'r, 'a>(read: &'r [ReadImage<'a>], path: &[u8]) -> Option<&'r ReadImage<'a>>
    ensures { option_copied result ≡ find (is_read_under path.now) read.now }
{
    read.iter().find(|image| image.path == path)
}

/// What covers a place in the file under a path; none exactly where no image stands under the path, or it is no ELF
/// file that is accepted. The file is read where it wasn't yet, and then kept. The one error is out of memory.
pub(crate) fn covered_under<'a>(
    alloc: Global,
    read: &mut Vec<ReadImage<'a>>,
    images: &'a Images,
    path: &'a [u8],
    place: u64,
) -> Result<Option<Covered<'a>>, AllocError>
    requires known { All (IsReadOf images.now) read.old.items }
    ensures known { All (IsReadOf images.now) read.new.items }
    ensures covered { IfOk result (IsLookedUpUnder images.now path.now place) }
{
    if let Some(image) = find_read(read.as_slice(), path) {
        return Ok(covered_at(&image.file, place));
    }
    let Some(image) = read_under(alloc, images, path)? else {
        return Ok(None);
    };
    let covered = covered_at(&image.file, place);
    read.push(image)?;
    Ok(covered)
}

/// A name as text.
fn lossy(alloc: Global, bytes: &[u8]) -> Result<Text, AllocError>
    ensures { IfOk result (λ text. text ≡ lossy_chars bytes.now) }
{
    Name::of(alloc, bytes)?.lossy(alloc)
}

/// The name of a function as text.
fn function_text(alloc: Global, name: Option<&[u8]>) -> Result<Option<Text>, AllocError>
    ensures { IfOk result (λ text. text ≡ option_map lossy_chars (option_copied name.entry)) }
{
    match name {
        Some(name) => Ok(Some(lossy(alloc, name)?)),
        None => Ok(None),
    }
}

/// The frame of an address in a file, as a list.
pub(crate) fn native_at(
    alloc: Global,
    addr: u64,
    path: &[u8],
    name: Option<&[u8]>,
) -> Result<Vec<NativeFrame>, AllocError>
    ensures { IfOk result (λ natives. natives.items ≡ image_frame addr path.now (option_copied name.entry) ∷ []) }
{
    let module = lossy(alloc, path)?;
    let function = function_text(alloc, name)?;
    let mut natives = Vec::new(alloc);
    natives.push(NativeFrame {
        addr,
        function,
        filename: None,
        module,
        line: None,
    })?;
    Ok(natives)
}
