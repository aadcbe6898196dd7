//! What is found of a Python process, by the memory, the maps and the images.
ghost use Rattle.std.specs.Prelude.{◌≡◌, ◌+◌, IfOk, option_map};
ghost use Rattle.image_memory.specs.Backed.{IsBackedMemory, regions_of};
ghost use Rattle.process_memory.specs.Memory.{byte_at};
ghost use Rattle.process_memory.specs.Seen.{Reading, ReadingOf};
ghost use Rattle.py_fields.specs.Sound.{IsSound};
ghost use Rattle.py_process.specs.Candidates.{search_bound};
ghost use Rattle.py_process.specs.Facts.{facts_of, known_of};
ghost use Rattle.py_process.specs.Findings.{AfterImages, FindsIn, LockSays, VersionThen};
ghost use Rattle.py_process.specs.Sections.{IsSearched};
ghost use Rattle.core_stacks.specs.Reached.{IsTrialBy, Trying};
ghost use Rattle.core_stacks.specs.Sole.{Settles};
ghost use Rattle.core_stacks.specs.Seen.{AreBinaries, FindsProcess, IsCovered, Knows, finding_first, finding_in};

use crate::found::{Found, PythonBinaries};
use crate::programs::{programs_of, read_images};
use elf64_core::Machine;
use image_memory::{BackedDump, ContainsAddr, CoreDump, Images, MapTable};
use process_memory::ProcessMemory;
use py_layout::{Layout, Layouts, Version};
use py_process::{
    CoreError, LockError, PythonProcessInfo, get_interpreter_address, get_python_version,
    get_threadstate_address,
};
use py_stacks::{Addresses, Config};
use std::alloc::Global;

/// The address of an interpreter's lock, by a layout. At most one read.
fn find_lock<M: ContainsAddr, P: ProcessMemory>(
    interpreter: u64,
    info: &PythonProcessInfo<M>,
    process: &mut P,
    machine: Machine,
    version: &Version,
    layout: &Layout,
) -> Result<u64, CoreError>
    requires { IsSound layout.now }
    ensures { Reading 1 (P.seen process.old) (P.seen process.new)
        (λ m. LockSays m machine (known_of info.now) version.now layout.now interpreter result) }
{
    let config = Config::default();
    match get_threadstate_address(
        interpreter,
        info,
        process,
        machine,
        version,
        layout,
        &config,
    ) {
        Ok(lock) => Ok(lock),
        Err(LockError::Unreadable { addr, len }) => Err(CoreError::Unreadable { addr, len }),
        Err(LockError::NoLock) => unreachable!(),
        Err(LockError::OutOfMemory) => Err(CoreError::OutOfMemory),
    }
}

/// The version of a process, over a memory of it, by what is known of it, and the layout that covers that.
///
/// The error is the first of these: `UnreadableVersion` and `NoVersion` (`py_process::get_python_version`);
/// `UnsupportedVersion` where no layout covers the version. Else it is out of memory. At most 3 reads.
pub(crate) fn read_version<M: ContainsAddr, P: ProcessMemory>(
    alloc: Global,
    info: &PythonProcessInfo<M>,
    process: &mut P,
    layouts: &Layouts,
) -> Result<(Version, Layout), CoreError>
    ensures settles { ReadingOf (IsSearched (known_of info.now)) 3 (P.seen process.old) (P.seen process.new)
        (λ m. Settles (VersionThen m layouts.now (known_of info.now) IsCovered) result) }
    ensures sound { IfOk result (λ covered. IsSound covered.1) }
{
    let version = get_python_version(alloc, info, process)?;
    match layouts.choose(&version) {
        Some(layout) => Ok((version, *layout)),
        None => Err(CoreError::UnsupportedVersion { version }),
    }
}

/// What is found in a process of this version, over a memory of it: the interpreter, and its lock; or the first cause
/// why nothing is.
///
/// At most 7 reads, and those of the candidates that are tried, up to and with the first that is an interpreter's.
fn find_in<M: ContainsAddr, P: ProcessMemory>(
    alloc: Global,
    info: &PythonProcessInfo<M>,
    process: &mut P,
    machine: Machine,
    version: Version,
    layout: Layout,
) -> Result<Found, CoreError>
    requires { IsSound layout }
    ensures finds { ReadingOf (IsSearched (known_of info.now)) (search_bound (M.contains info.now.maps)
        (known_of info.now) version layout (byte_at (P.seen process.old).pieces) + 1)
        (P.seen process.old) (P.seen process.new)
        (λ m. Settles (FindsIn m machine (M.contains info.now.maps) (known_of info.now) version layout)
        (finding_in result)) }
    ensures layout { IfOk result (λ found. found.layout ≡ layout) }
{
    let interpreter = get_interpreter_address(alloc, info, process, &version, &layout)?;
    let lock = find_lock(interpreter, info, process, machine, &version, &layout)?;
    Ok(Found {
        version,
        layout,
        addresses: Addresses { interpreter, lock },
    })
}

/// What is found over a memory of a process, by what is known of it: the version, the layout that covers it, the
/// interpreter, and the lock; or the first cause why nothing is.
///
/// At most 10 reads, and those of the candidates that are tried, up to and with the first that is an interpreter's.
pub(crate) fn find_process<M: ContainsAddr, P: ProcessMemory>(
    alloc: Global,
    info: &PythonProcessInfo<M>,
    process: &mut P,
    machine: Machine,
    layouts: &Layouts,
) -> Result<Found, CoreError>
    ensures settles { Trying (known_of info.now)
        (IsTrialBy (byte_at (P.seen process.old).pieces) layouts.now (known_of info.now))
        (M.contains info.now.maps) 10 (P.seen process.old) (P.seen process.new)
        (λ m. Settles (AfterImages m machine (M.contains info.now.maps) layouts.now (known_of info.now))
        (finding_in result)) }
    ensures sound { IfOk result (λ found. IsSound found.layout) }
{
    let (version, layout) = read_version(alloc, info, process, layouts)?;
    find_in(alloc, info, process, machine, version, layout)
}

/// What the images of the maps of a core say of its process. Nothing of the process's memory is read.
///
/// The program is the first executable map whose file has a name, the library the first whose name is that of Python's
/// library (`py_process::is_python_lib`). The library's image is needed where one is mapped, else the program's, and
/// the other one may be missing or bad.
///
/// The error is the first of these: `NoBinary`, where no executable map's file has a name; `NoImage` and `BadImage` of
/// the needed image. Else it is out of memory.
pub fn process_info(
    alloc: Global,
    core: &CoreDump,
    images: &Images,
) -> Result<PythonProcessInfo<MapTable>, CoreError>
    ensures { Knows core.now images.now result }
{
    let maps = core.maps();
    let programs = programs_of(maps)?;
    read_images(alloc, images, maps, &programs)
}

/// What is found of the process of a core and its images, with Python's two binaries, or the first cause why not.
pub(crate) fn find_in_dump(
    alloc: Global,
    dump: &BackedDump,
    images: &Images,
    layouts: &Layouts,
) -> Result<(Found, PythonBinaries), CoreError>
    requires { IsBackedMemory dump.now.core images.now (regions_of dump.now) }
    ensures settles { Settles (FindsProcess dump.now.core images.now layouts.now) (finding_first result) }
    ensures sound { IfOk result (λ found. IsSound found.0.layout) }
    ensures binaries { IfOk result (λ found. AreBinaries dump.now.core images.now
        (option_map facts_of found.1.program) (option_map facts_of found.1.library)) }
{
    let info = process_info(alloc, dump.core(), images)?;
    let mut view = dump.view();
    let found = find_process(alloc, &info, &mut view, dump.core().machine(), layouts)?;
    let binaries = PythonBinaries {
        program: info.python_binary,
        library: info.libpython_binary,
    };
    Ok((found, binaries))
}
