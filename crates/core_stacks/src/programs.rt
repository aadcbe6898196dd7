//! The program of a process and Python's library, by the maps, and what their images say.
ghost use Rattle.std.specs.Prelude.{◌≡◌, ◌↔◌, ◌⊎◌, IsTrue, IfOk, IfSome, None, Some, option_copied, option_map};
ghost use Rattle.std.specs.Int.{IsBitSet};
ghost use Rattle.image_memory.specs.MapTables.{tests};
ghost use Rattle.image_memory.specs.Maps.{in_maps};
ghost use Rattle.py_process.specs.Facts.{facts_of};
ghost use Rattle.py_process.specs.Programs.{FactsAre, FactsOf, FirstMapIs, ImagesSay, IsLibraryMap, IsProgram, MapsSay};
ghost use Rattle.py_process.specs.Programs.{needed_map, path_of};
ghost use Rattle.core_stacks.specs.Seen.{HaveOneName, IsImageError, known_in, needed_by, programs_in, programs_now};

use elf64_core::Name;
use image_memory::{CoreMapRange, Images, MapTable};
use py_process::{
    BinaryError, BinaryInfo, CoreError, PythonProcessInfo, is_python_lib, parse_binary,
};
use std::alloc::{AllocError, Global};

/// Whether a map is executable and its file has a name.
fn is_program(map: &CoreMapRange) -> bool
    ensures { IsTrue result ↔ IsProgram map.now }
{
    map.is_exec() && map.filename().is_some()
}

/// Whether a map is executable and its file has the name of Python's library.
fn is_library(map: &CoreMapRange) -> bool
    ensures { IsTrue result ↔ IsLibraryMap map.now }
{
    match map.filename() {
        Some(name) => map.is_exec() && is_python_lib(name.as_bytes()),
        None => false,
    }
}

/// The same, where the maps that start at an address are known not to be the library's.
fn is_new_library(map: &CoreMapRange, refused: Option<u64>) -> bool
    requires { IfSome refused (λ start. map.now.segment.addr ≡ start → ¬ IsLibraryMap map.now) }
    ensures { IsTrue result ↔ IsLibraryMap map.now }
{
    match refused {
        Some(start) => map.start() != start && is_library(map),
        None => is_library(map),
    }
}

/// The start of maps that are not the library's, by a further map that isn't.
fn refused_after(map: &CoreMapRange, refused: Option<u64>) -> Option<u64>
    ensures { (result ≡ refused) ⊎ ((result ≡ Some map.now.segment.addr) × IsBitSet map.now.segment.flags 0) }
{
    if map.is_exec() {
        Some(map.start())
    } else {
        refused
    }
}

/// The first map that is executable and whose file has a name.
fn first_program(maps: &[CoreMapRange]) -> Option<&CoreMapRange>
    ensures { FirstMapIs IsProgram maps.now (option_copied result) }
{
    for map in maps {
        if is_program(map) {
            return Some(map);
        }
    }
    None
}

/// The first map that is executable and whose file has the name of Python's library. Those after each other that
/// start at one address have one name, which is tested once.
fn first_library(maps: &[CoreMapRange]) -> Option<&CoreMapRange>
    requires { HaveOneName maps.now }
    ensures { FirstMapIs IsLibraryMap maps.now (option_copied result) }
{
    let mut refused = None;
    for map in maps {
        if is_new_library(map, refused) {
            return Some(map);
        }
        refused = refused_after(map, refused);
    }
    None
}

/// The maps of the program and of Python's library, where one is mapped.
#[derive(Clone, Copy)]
pub(crate) struct Programs<'a> {
    pub(crate) program: &'a CoreMapRange,
    pub(crate) library: Option<&'a CoreMapRange>,
}

/// The maps of the program and of the library; `NoBinary` where no executable map's file has a name.
pub(crate) fn programs_of(maps: &[CoreMapRange]) -> Result<Programs<'_>, CoreError>
    requires { HaveOneName maps.now }
    ensures { MapsSay maps.now (programs_in result) }
{
    let Some(program) = first_program(maps) else {
        return Err(CoreError::NoBinary);
    };
    let library = first_library(maps);
    Ok(Programs { program, library })
}

/// The path of a map's file; empty where it has none.
fn path_of(map: &CoreMapRange) -> &[u8]
    ensures { result.now ≡ path_of map.now }
{
    match map.filename() {
        Some(name) => name.as_bytes(),
        None => &[],
    }
}

/// What the image of a map says; nothing where it is not handed in, or says nothing.
fn info_of(
    alloc: Global,
    images: &Images,
    map: &CoreMapRange,
) -> Result<Option<BinaryInfo>, AllocError>
    ensures { IfOk result (λ info. FactsAre images.now map.now (option_map facts_of info)) }
{
    let Some(image) = images.get(path_of(map)) else {
        return Ok(None);
    };
    match parse_binary(alloc, image.as_slice(), map.start(), map.size()) {
        Ok(info) => Ok(Some(info)),
        Err(BinaryError::OutOfMemory) => Err(AllocError),
        Err(_) => Ok(None),
    }
}

/// The same of a map that there may be.
fn library_info(
    alloc: Global,
    images: &Images,
    map: Option<&CoreMapRange>,
) -> Result<Option<BinaryInfo>, AllocError>
    ensures { IfOk result (λ info. FactsOf images.now (option_copied map.entry) (option_map facts_of info)) }
{
    match map {
        Some(map) => info_of(alloc, images, map),
        None => Ok(None),
    }
}

/// The map whose image is needed: the library's, where one is mapped.
fn needed_map<'a>(programs: &Programs<'a>) -> &'a CoreMapRange
    ensures { result.now ≡ needed_map (programs_now programs.now) }
{
    match programs.library {
        Some(library) => library,
        None => programs.program,
    }
}

/// What the needed image says, of what the two say.
fn needed_info<'a>(
    programs: &Programs<'_>,
    program: &'a Option<BinaryInfo>,
    library: &'a Option<BinaryInfo>,
) -> &'a Option<BinaryInfo>
    ensures { result.now ≡ needed_by (programs_now programs.now).library program.now library.now }
{
    match programs.library {
        Some(_) => library,
        None => program,
    }
}

/// What is wrong with the image of a map, which says nothing: it is not handed in, or it is bad.
fn image_error(alloc: Global, images: &Images, map: &CoreMapRange) -> CoreError
    requires { FactsAre images.now map.now None }
    ensures { IsImageError images.now map.now result }
{
    let path = match Name::of(alloc, path_of(map)) {
        Ok(path) => path,
        Err(_) => return CoreError::OutOfMemory,
    };
    match images.get(path_of(map)) {
        Some(_) => CoreError::BadImage { path },
        None => CoreError::NoImage { path },
    }
}

/// What is known of a process by its images, with a table of its maps' addresses.
///
/// `NoImage` where the needed image, the library's where one is mapped and else the program's, is not handed in;
/// `BadImage` where it says nothing. Else the one error is out of memory.
pub(crate) fn read_images(
    alloc: Global,
    images: &Images,
    maps: &[CoreMapRange],
    programs: &Programs<'_>,
) -> Result<PythonProcessInfo<MapTable>, CoreError>
    ensures known { ImagesSay images.now (programs_now programs.now) (known_in result) }
    ensures maps { IfOk result (λ info. tests info.maps ≡ in_maps maps.now) }
{
    let program = info_of(alloc, images, programs.program)?;
    let library = library_info(alloc, images, programs.library)?;
    if needed_info(programs, &program, &library).is_none() {
        return Err(image_error(alloc, images, needed_map(programs)));
    }
    let path = Name::of(alloc, path_of(programs.program))?;
    let table = MapTable::of(alloc, maps)?;
    Ok(PythonProcessInfo {
        python_binary: program,
        libpython_binary: library,
        maps: table,
        python_filename: path,
    })
}
