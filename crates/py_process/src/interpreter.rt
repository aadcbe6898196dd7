//! Where the interpreter of a process is.
ghost use Rattle.std.specs.Prelude.{◌+◌, ◌≤◌, IfOk};
ghost use Rattle.process_memory.specs.Memory.{byte_at};
ghost use Rattle.py_fields.specs.Sound.{IsSound};
ghost use Rattle.py_process.specs.Candidates.{FirstIs, IsFirstOf, IsNoneOf, NotFoundWhere, Searching, Seeking};
ghost use Rattle.py_process.specs.Candidates.{candidates_of, interpreter_of, search_most, words_of_images};
ghost use Rattle.py_process.specs.Facts.{known_of};
ghost use Rattle.py_process.specs.Sections.{IsSearched};

use crate::candidates::first_in_image;
use crate::head::first_of_head;
use crate::{PythonProcessInfo, SearchError};
use image_memory::ContainsAddr;
use process_memory::ProcessMemory;
use py_fields::{Layout, Version};
use std::alloc::Global;

/// The first word of the images' sections that is an interpreter. At most 4 reads beside those of the candidates.
fn first_in_images<M: ContainsAddr, P: ProcessMemory>(
    alloc: Global,
    info: &PythonProcessInfo<M>,
    process: &mut P,
    layout: &Layout,
) -> Result<Option<u64>, SearchError>
    requires sound { IsSound layout.now }
    ensures { Seeking (IsSearched (known_of info.now)) (M.contains info.now.maps) layout.now 4
        (λ m. words_of_images m (known_of info.now)) (P.seen process.old) (P.seen process.new) result }
{
    let maps = &info.maps;
    if let Some(found) = first_in_image(alloc, maps, process, layout, &info.python_binary)? {
        return Ok(Some(found));
    }
    first_in_image(alloc, maps, process, layout, &info.libpython_binary)
}

/// The first candidate that is an interpreter. At most 6 reads beside those of the candidates.
fn first_candidate<M: ContainsAddr, P: ProcessMemory>(
    alloc: Global,
    info: &PythonProcessInfo<M>,
    process: &mut P,
    version: &Version,
    layout: &Layout,
) -> Result<Option<u64>, SearchError>
    requires sound { IsSound layout.now }
    ensures { Seeking (IsSearched (known_of info.now)) (M.contains info.now.maps) layout.now 6
        (λ m. candidates_of (known_of info.now) version.now layout.now m)
        (P.seen process.old) (P.seen process.new) result }
{
    if let Some(found) = first_of_head(alloc, info, process, version, layout)? {
        return Ok(Some(found));
    }
    first_in_images(alloc, info, process, layout)
}

/// See `get_interpreter_address`.
fn find_interpreter<M: ContainsAddr, P: ProcessMemory>(
    alloc: Global,
    info: &PythonProcessInfo<M>,
    process: &mut P,
    version: &Version,
    layout: &Layout,
) -> Result<u64, SearchError>
    requires sound { IsSound layout.now }
    ensures { Searching (M.contains info.now.maps) (known_of info.now) version.now layout.now
        (P.seen process.old) (P.seen process.new)
        (λ m. FirstIs (interpreter_of (M.contains info.now.maps) (known_of info.now) version.now layout.now m) result) }
{
    match first_candidate(alloc, info, process, version, layout)? {
        Some(addr) => Ok(addr),
        None => Err(SearchError::NotFound),
    }
}

/// The address of the interpreter of a process: the first candidate that is one.
///
/// The candidates are, in order: the head that symbols give, by the layout's family: the word at `interp_head`;
/// or at `_PyRuntime` plus `get_interp_head_offset`; or at `_PyRuntime` plus the head that the record of offsets
/// there says. Then the words of 8 bytes of the program's runtime section, where its address is not 0, and of
/// its bss; then the library's. A range that is not wholly in memory gives none, and a tail of fewer than 8
/// bytes is dropped.
///
/// A candidate is an interpreter where a map holds it, a map holds the head of its threads, the thread there
/// names it, and its threads can be walked as `is_interpreter` walks them.
///
/// `NotFound` comes exactly where no candidate is one. Else the one error is out of memory, which is no failed
/// test. At most 6 reads, and for each candidate up to and with the first that is one: none where no map holds
/// it; one where its head is not in memory or in no map; else 3, 2 for each thread that its test meets, and 6
/// for each frame: for a cyclic chain as many as its limit lets be met. A section is read by one.
pub fn get_interpreter_address<M: ContainsAddr, P: ProcessMemory>(
    alloc: Global,
    info: &PythonProcessInfo<M>,
    process: &mut P,
    version: &Version,
    layout: &Layout,
) -> Result<u64, SearchError>
    requires sound { IsSound layout.now }
    ensures answer { Searching (M.contains info.now.maps) (known_of info.now) version.now layout.now
        (P.seen process.old) (P.seen process.new)
        (λ m. FirstIs (interpreter_of (M.contains info.now.maps) (known_of info.now) version.now layout.now m) result) }
    ensures first { Searching (M.contains info.now.maps) (known_of info.now) version.now layout.now
        (P.seen process.old) (P.seen process.new) (λ m. IfOk result (IsFirstOf (M.contains info.now.maps) layout.now m
        (candidates_of (known_of info.now) version.now layout.now m))) }
    ensures none { Searching (M.contains info.now.maps) (known_of info.now) version.now layout.now
        (P.seen process.old) (P.seen process.new) (λ m. NotFoundWhere (IsNoneOf (M.contains info.now.maps) layout.now m
        (candidates_of (known_of info.now) version.now layout.now m)) result) }
    // whatever the memory holds, as cyclic chains
    ensures most { (P.seen process.new).reads ≤ (P.seen process.old).reads
        + search_most (known_of info.now) version.now layout.now (byte_at (P.seen process.old).pieces) }
{
    find_interpreter(alloc, info, process, version, layout)
}
