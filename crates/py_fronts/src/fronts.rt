//! The fronts of all interpreters of a process.
ghost use Rattle.std.specs.Prelude.{◌≡◌, ◌≤◌, ◌+◌, ◌*◌, ◌^◌, IfOk, length};
ghost use Rattle.process_memory.specs.Memory.{byte_at};
ghost use Rattle.process_memory.specs.Seen.{ReadingBy};
ghost use Rattle.py_fields.specs.Sound.{IsSound};
ghost use Rattle.py_process.specs.Facts.{known_of};
ghost use Rattle.py_fronts.specs.Answers.{IsOrNoMemory};
ghost use Rattle.py_fronts.specs.BesideReports.{AgreeWithReport};
ghost use Rattle.py_fronts.specs.Fronts.{Fronting, all_most, fronts_at, fronts_reads, fronts_result};
ghost use Rattle.py_fronts.specs.Fronts.{interpreters_fronts, interpreters_result};

use crate::interpreters::find_interpreters;
use crate::threads::get_threads_front;
use crate::{FoundInterpreter, Looked, ThreadsFront};
use image_memory::ContainsAddr;
use process_memory::ProcessMemory;
use py_fields::{Layout, Version};
use py_process::PythonProcessInfo;
use py_stacks::{Asked, StackError};
use std::alloc::Global;

/// How many members are met in all threads of all interpreters at most.
const ALL_MEMBERS_LIMIT: u64 = 4_194_304;

/// An interpreter, with its threads as far as they go.
#[derive(Debug, Drop)]
pub struct InterpreterFront {
    /// The address of its record.
    pub address: u64,
    /// Whether it was found by search alone.
    pub searched: bool,
    /// Its threads.
    pub threads: ThreadsFront,
}

/// The interpreters of a process.
#[derive(Debug, Drop)]
pub struct Fronts {
    /// The interpreters that are shown, at most 16, each address once.
    pub interpreters: Vec<InterpreterFront>,
    /// Whether there are more.
    pub more: bool,
    /// What was looked at for them.
    pub looked: Looked,
}

/// The threads of each of some interpreters, in order, as `get_threads_front` has them for `limit`, at most 4096. What
/// one of them meets is no longer left for the others, of 4,194,304 members. The one error is out of memory.
pub fn read_interpreters<P: ProcessMemory>(
    alloc: Global,
    process: &mut P,
    layout: &Layout,
    asked: Asked,
    limit: usize,
    found: &[FoundInterpreter],
) -> Result<Vec<InterpreterFront>, StackError>
    requires sound { IsSound layout.now }
    requires few { limit ≤ 4096 }
    ensures { ReadingBy (λ m. fronts_reads asked (interpreters_fronts asked layout.now m limit 4194304 found.now))
        (P.seen process.old) (P.seen process.new) (λ m. IsOrNoMemory
        (interpreters_fronts asked layout.now m limit 4194304 found.now) (interpreters_result result)) }
{
    let mut interpreters = Vec::new(alloc);
    let mut left = ALL_MEMBERS_LIMIT;
    for one in found {
        let threads = get_threads_front(
            alloc,
            process,
            layout,
            asked,
            limit,
            one.address,
            one.head,
            &mut left,
        )?;
        interpreters.push(InterpreterFront {
            address: one.address,
            searched: one.searched,
            threads,
        })?;
    }
    Ok(interpreters)
}

/// See `get_fronts`.
fn all_fronts<M: ContainsAddr, P: ProcessMemory>(
    alloc: Global,
    info: &PythonProcessInfo<M>,
    process: &mut P,
    version: &Version,
    layout: &Layout,
    asked: Asked,
    limit: usize,
) -> Result<Fronts, StackError>
    requires sound { IsSound layout.now }
    requires few { limit ≤ 4096 }
    ensures { Fronting (M.contains info.now.maps) (known_of info.now) version.now layout.now asked limit
        (P.seen process.old) (P.seen process.new) (λ m. IsOrNoMemory
        (fronts_at (M.contains info.now.maps) (known_of info.now) version.now layout.now m asked limit)
        (fronts_result result)) }
{
    let search = find_interpreters(alloc, info, process, version, layout)?;
    let found = &search.finds.found;
    let interpreters = read_interpreters(alloc, process, layout, asked, limit, found)?;
    Ok(Fronts {
        interpreters,
        more: search.finds.more,
        looked: search.looked,
    })
}

/// The interpreters of a process, each with its threads as far as their chain goes, each of these with its frames as
/// far as theirs goes: what `find_interpreters` finds and `get_threads_front` says of each, where 4,194,304 members may
/// be met in all.
///
/// Where the same memory has a report of an interpreter, and each thread of the report names that interpreter, then:
///
/// - it is among these, if there are no more than are shown, no map holds address 0, and it is named, or the search did
///   not end before all was looked at;
/// - if it is shown and no text stands at address 0, its chain of threads is whole, and they are the report's by their
///   ids, in order. The frames of each, by their names and marks, are the report's but for some that stand hidden
///   between the first and the last, no more than are counted there; or its chain of frames is cut, of fewer than 16384
///   members, because no more could be met in all.
///
/// The one error is out of memory. The reads are those of `find_interpreters`, and for each interpreter one, for each
/// of its threads 7, for each member that is met 5, and for each that is shown 526, 513 of them of its line table, or
/// 262,666 where locals are asked for. No more are shown than are met, over all threads together: for 16 interpreters
/// these are at most 2,227,634,192 without locals, and 1,101,722,484,752 with them, for a `limit` of 100 as for one of
/// 4096 (`fronts_most`).
pub fn get_fronts<M: ContainsAddr, P: ProcessMemory>(
    alloc: Global,
    info: &PythonProcessInfo<M>,
    process: &mut P,
    version: &Version,
    layout: &Layout,
    asked: Asked,
    limit: usize,
) -> Result<Fronts, StackError>
    requires sound { IsSound layout.now }
    requires few { limit ≤ 4096 }
    ensures answer { Fronting (M.contains info.now.maps) (known_of info.now) version.now layout.now asked limit
        (P.seen process.old) (P.seen process.new) (λ m. IsOrNoMemory
        (fronts_at (M.contains info.now.maps) (known_of info.now) version.now layout.now m asked limit)
        (fronts_result result)) }
    ensures report { Fronting (M.contains info.now.maps) (known_of info.now) version.now layout.now asked limit
        (P.seen process.old) (P.seen process.new) (λ m. IfOk (fronts_result result) (λ fronts.
        AgreeWithReport (M.contains info.now.maps) (known_of info.now) version.now layout.now m fronts)) }
    // whatever the memory holds, as cyclic chains
    ensures most { (P.seen process.new).reads ≤ (P.seen process.old).reads + all_most (M.contains info.now.maps)
        (known_of info.now) version.now layout.now (byte_at (P.seen process.old).pieces) asked limit }
{
    all_fronts(alloc, info, process, version, layout, asked, limit)
}
