//! One stack of the Python frames and the native ones of each thread.
ghost use Rattle.std.specs.Prelude.{◌≡◌, IfOk, map, option_map};
ghost use Rattle.image_memory.specs.Backed.{regions_of};
ghost use Rattle.process_memory.specs.Memory.{byte_at};
ghost use Rattle.py_process.specs.Facts.{facts_of, known_of};
ghost use Rattle.py_runs.specs.Ends.{run_end};
ghost use Rattle.native_stacks.specs.Threads.{thread_shown};
ghost use Rattle.paired_stacks.specs.Stacks.{ArePaired};
ghost use Rattle.paired_stacks.specs.Walked.{walked_threads};
ghost use Rattle.memory_sections.specs.Pairs.{ArePairs, AreStarts, PairsAre, own_code, range_in};

use crate::keeping::Keeping;
use core_stacks::Process;
use image_memory::CoreDump;
use missed_reads::Misses;
use native_stacks::{NativeStacks, NativeThread};
use paired_stacks::{CodeRange, OwnCode, PairedStack, pair_stacks, starts_of};
use process_memory::ProcessMemory;
use py_fields::Layout;
use py_fronts::SalvagedInterpreter;
use py_process::BinaryInfo;
use py_records::Records;
use py_runs::{RunEnd, run_end};
use std::alloc::{AllocError, Global};

/// Where a binary is mapped.
fn range_in(binary: &Option<BinaryInfo>) -> Option<CodeRange>
    ensures { result ≡ range_in (option_map facts_of binary.now) }
{
    match binary {
        Some(binary) => Some(CodeRange {
            addr: binary.addr,
            size: binary.size,
        }),
        None => None,
    }
}

/// Where Python's own code is mapped.
fn own_code(process: &Process) -> OwnCode
    ensures { result ≡ own_code (known_of process.now.info) }
{
    OwnCode {
        program: range_in(&process.info.python_binary),
        library: range_in(&process.info.libpython_binary),
    }
}

/// The stack pointers of the threads of a core.
fn core_starts(alloc: Global, core: &CoreDump) -> Result<Vec<Option<u64>>, AllocError>
    ensures { IfOk result (λ starts. AreStarts core.now starts.items) }
{
    let notes = core.notes(alloc)?;
    let starts = starts_of(alloc, core.machine(), &notes)?;
    Ok(starts)
}

/// One stack of both for each native one, over a memory.
fn pairs_over<P: ProcessMemory>(
    alloc: Global,
    process: &mut P,
    layout: &Layout,
    end: Option<RunEnd>,
    own: OwnCode,
    starts: &[Option<u64>],
    natives: &[NativeThread],
    interpreters: &[SalvagedInterpreter],
) -> Result<Vec<Option<PairedStack>>, AllocError>
    ensures { IfOk result (λ stacks. ArePaired end layout.now (byte_at (P.seen process.old).pieces) own
        (walked_threads interpreters.now) starts.now (map thread_shown natives.now) stacks.items) }
{
    pair_stacks(
        alloc,
        process,
        layout,
        end,
        own,
        starts,
        natives,
        interpreters,
    )
}

/// The same, over the memory of an opened process. Reads that are refused are kept.
fn pairs_by(
    alloc: Global,
    process: &Process,
    records: &Records,
    starts: &[Option<u64>],
    natives: &[NativeThread],
    interpreters: &[SalvagedInterpreter],
    misses: &mut Misses,
) -> Result<Vec<Option<PairedStack>>, AllocError>
    ensures { IfOk result (λ stacks. ArePaired (run_end process.now.version records.now.frames) process.now.layout
        (byte_at (regions_of process.now.dump)) (own_code (known_of process.now.info)) (walked_threads interpreters.now)
        starts.now (map thread_shown natives.now) stacks.items) }
{
    let end = run_end(&process.version, records);
    let own = own_code(process);
    let mut view = Keeping::new(process.dump.view(), misses);
    pairs_over(
        alloc,
        &mut view,
        &process.layout,
        end,
        own,
        starts,
        natives,
        interpreters,
    )
}

/// The same, by the core's notes.
fn pairs_of(
    alloc: Global,
    process: &Process,
    records: &Records,
    natives: &NativeStacks,
    interpreters: &[SalvagedInterpreter],
    misses: &mut Misses,
) -> Result<Vec<Option<PairedStack>>, AllocError>
    ensures { IfOk result (ArePairs process.now.dump.core (known_of process.now.info) process.now.version
        process.now.layout records.now (byte_at (regions_of process.now.dump)) interpreters.now natives.now) }
{
    let starts = core_starts(alloc, process.dump.core())?;
    pairs_by(
        alloc,
        process,
        records,
        &starts,
        &natives.threads,
        interpreters,
        misses,
    )
}

/// The same, where native stacks are told.
pub(crate) fn pairs_section(
    alloc: Global,
    process: &Process,
    records: &Records,
    natives: &Option<NativeStacks>,
    interpreters: &[SalvagedInterpreter],
    misses: &mut Misses,
) -> Result<Option<Vec<Option<PairedStack>>>, AllocError>
    ensures { IfOk result (PairsAre process.now.dump.core (known_of process.now.info) process.now.version
        process.now.layout records.now (byte_at (regions_of process.now.dump)) interpreters.now natives.now) }
{
    match natives {
        Some(natives) => {
            let told = pairs_of(alloc, process, records, natives, interpreters, misses)?;
            Ok(Some(told))
        }
        None => Ok(None),
    }
}
