//! The report of a core.
ghost use Rattle.std.specs.Prelude.{◌≡◌, ◌⊎◌, IfErr, IfOk, None, Ok};
ghost use Rattle.elf64_core.specs.Header.{machine_of};
ghost use Rattle.image_memory.specs.Backed.{IsBackedMemory, regions_of};
ghost use Rattle.image_memory.specs.Cores.{IsCore};
ghost use Rattle.process_memory.specs.Memory.{byte_at};
ghost use Rattle.py_process.specs.Facts.{known_of};
ghost use Rattle.py_process.specs.Findings.{AfterImages, Finding};
ghost use Rattle.py_process.specs.Reports.{AsksNoOther, CoreSays, IsReadable, IsRight, NotesTell, ReportIs, Reported};
ghost use Rattle.py_process.specs.Reports.{fault_on, reported, reported_of};
ghost use Rattle.core_stacks.specs.ReportCauses.{IsReportCause};
ghost use Rattle.core_stacks.specs.Reached.{AfterKnown, IsCounted, IsTrialBy, Reporting};
ghost use Rattle.core_stacks.specs.Sole.{IsSole, Settles};

use crate::finding::{find_process, process_info};
use crate::notes::{Notes, notes_of};
use crate::stacks_in::stacks_in;
use elf64_core::Steps;
use image_memory::{BackedDump, ContainsAddr, CoreDump, Images};
use process_memory::{Counted, ProcessMemory};
use py_layout::Layouts;
use py_process::{CoreError, PythonProcessInfo, Report};
use py_stacks::Config;
use std::alloc::Global;
use std::sync::ledger::Ledger;

/// A core with the images that its process had mapped, and what its notes tell.
#[derive(Drop)]
pub struct Loaded {
    /// The memory of the core and its images.
    pub dump: BackedDump,
    /// What the notes tell.
    pub notes: Notes,
}

/// Takes a core's file in, with the images that its process had mapped, each under the path that the core has for it.
/// Nothing of the process's memory is read.
///
/// The error is `NotElf64`, `BadHeader`, `NoNotes` or `BadNote`, as `image_memory::CoreDump::new` has them. Else it is
/// out of memory.
pub fn load(alloc: Global, bytes: Vec<u8>, images: &Images) -> Result<Loaded, CoreError>
    ensures core { IfOk result (λ loaded. IsCore loaded.dump.core) }
    ensures same { IfOk result (λ loaded. loaded.dump.core ≡ bytes.items) }
    ensures memory { IfOk result (λ loaded. IsBackedMemory loaded.dump.core images.now (regions_of loaded.dump)) }
    ensures notes { IfOk result (λ loaded. NotesTell loaded.dump.core loaded.notes.signal loaded.notes.process) }
    ensures refused { IfErr result (λ error. CoreSays bytes.items images.now (Err error)) }
{
    let core = CoreDump::new(alloc, bytes)?;
    let notes = notes_of(alloc, &core)?;
    let dump = BackedDump::new(alloc, core, images)?;
    Ok(Loaded { dump, notes })
}

/// The report of a core over a memory of its process, by what is known of that (`process_info`). `report` is this over
/// the core's own memory and its images; any other memory that holds these bytes, as one that counts its reads, has the
/// same.
///
/// `notes` are what the core's notes tell (`load`). The errors are those of `report` from the version on. At most 10
/// reads for the search and 13 for the stacks, and those of the candidates that are tried and of what the stacks meet.
pub fn report_over<M: ContainsAddr, P: ProcessMemory>(
    alloc: Global,
    core: &CoreDump,
    notes: Notes,
    info: &PythonProcessInfo<M>,
    process: &mut P,
    layouts: &Layouts,
    config: &Config,
) -> Result<Report, CoreError>
    requires notes { NotesTell core.now notes.signal notes.process }
    ensures reports { Reporting (known_of info.now)
        (IsTrialBy (byte_at (P.seen process.old).pieces) layouts.now (known_of info.now))
        (λ finding. AfterImages (byte_at (P.seen process.old).pieces) (machine_of core.now) (M.contains info.now.maps)
        layouts.now (known_of info.now) (Ok finding))
        (M.contains info.now.maps) config.now (P.seen process.old) (P.seen process.new)
        (λ m. Settles (AfterKnown core.now m (M.contains info.now.maps) layouts.now config.now (known_of info.now))
        (reported result)) }
    // where the process is found, nothing else is asked for and no fault is met, the one error is out of memory
    ensures complete { (finding : Finding)
        → AfterImages (byte_at (P.seen process.old).pieces) (machine_of core.now) (M.contains info.now.maps)
        layouts.now (known_of info.now) (Ok finding)
        → AsksNoOther config.now → fault_on (byte_at (P.seen process.old).pieces) finding config.now ≡ None
        → IfErr result (λ error. error ≡ CoreError.OutOfMemory) }
{
    let found = find_process(alloc, info, process, core.machine(), layouts)?;
    let traces = stacks_in(alloc, process, &found, config)?;
    Ok(Report {
        signal: notes.signal,
        process: notes.process,
        version: found.version,
        traces,
    })
}

/// Makes the report.
fn make_report(
    alloc: Global,
    bytes: Vec<u8>,
    images: &Images,
    layouts: &Layouts,
    config: &Config,
) -> Result<Report, CoreError>
    ensures settles { Settles (ReportIs bytes.items images.now layouts.now config.now) (reported result) }
    ensures complete { IsReadable bytes.items images.now layouts.now config.now
        → IfErr result (λ error. error ≡ CoreError.OutOfMemory) }
{
    let loaded = load(alloc, bytes, images)?;
    let Loaded { dump, notes } = loaded;
    let info = process_info(alloc, dump.core(), images)?;
    let mut view = dump.view();
    report_over(alloc, dump.core(), notes, &info, &mut view, layouts, config)
}

/// What a core and the images that its process had mapped tell of the process: the signal of the first status
/// record, the id and the arguments of the last process record, the version of Python, and the stacks of the
/// threads with what a `Config` asks for.
///
/// The bytes are those of a core's file. Each image is handed in under the path that the core has for it. The
/// threads are the whole chain, to null, of the first candidate interpreter that passes the test of
/// `py_process::get_interpreter_address`, and the frames of each its whole chain of callers, to null, less the
/// members that are skipped (`py_stacks::get_stack_over`).
///
/// The error is the first of these: `NotElf64`, `BadHeader`, `NoNotes` and `BadNote` (`image_memory::CoreDump::new`);
/// those of `PythonCoreDump::new`, in its order; those of `PythonCoreDump::get_stack`. Else it is out of memory.
/// Of these no `ThreadLimit`, `FrameLimit` or `ChainLimit` comes, since the interpreter's chains are whole, and
/// `Unreadable` names a range of the pointer to the lock, of its record or word, of its holder's record, or, where
/// locals are asked for, of a kept frame's tuple of names, the word that names a variable, its name or its slot.
pub fn report(
    alloc: Global,
    bytes: Vec<u8>,
    images: &Images,
    layouts: &Layouts,
    config: &Config,
) -> Result<Report, CoreError>
    ensures right { ReportIs bytes.items images.now layouts.now config.now (reported result) }
    // what is right is the answer, out of memory aside
    ensures only { IsSole (ReportIs bytes.items images.now layouts.now config.now) (reported result) }
    // the threads are the whole chain of the first candidate that is an interpreter's, each with its whole chain
    ensures whole { IfOk result (λ report. IsRight bytes.items images.now layouts.now config.now (reported_of report)) }
    // and what is right in all these fields is the report, out of memory aside
    ensures full { (r : Reported) → AsksNoOther config.now → IsRight bytes.items images.now layouts.now config.now r
        → (reported result ≡ Ok r) ⊎ (reported result ≡ Err CoreError.OutOfMemory) }
    // no limit of threads or frames is a cause, and no missing range but of the lock, its holder and asked locals
    ensures causes { IfErr result (IsReportCause bytes.items images.now layouts.now config.now) }
    ensures complete { IsReadable bytes.items images.now layouts.now config.now
        → IfErr result (λ error. error ≡ CoreError.OutOfMemory) }
{
    make_report(alloc, bytes, images, layouts, config)
}

/// The report of `report`, with its reads of the process's memory counted: each is one step, whether it reads a
/// record, a word, or a whole section.
///
/// The steps are at most 10 for the search and 13 for the stacks; for each candidate that is tried, up to and with the
/// first that is an interpreter's, none where no map holds it, one where its head is not in memory or in no map, else
/// 3, 2 for each thread that its test meets and 6 for each member; and of the interpreter 2 for each thread that is
/// met, 9 for each member, 4 for each variable, 8 for each visit of a value, and 12 for each slot that is looked at for
/// names. What is never reached takes none. No test of a candidate takes more than 3 + 4096 * (2 + 6 * 16384) steps,
/// whatever the memory holds, as cyclic chains.
pub fn report_counted<L: Ledger>(
    alloc: Global,
    bytes: Vec<u8>,
    images: &Images,
    layouts: &Layouts,
    config: &Config,
    steps: &mut Steps<L>,
) -> Result<Report, CoreError>
    // the answer is right, and what is right is the answer, out of memory aside
    ensures settles { Settles (ReportIs bytes.items images.now layouts.now config.now) (reported result) }
    ensures complete { IsReadable bytes.items images.now layouts.now config.now
        → IfErr result (λ error. error ≡ CoreError.OutOfMemory) }
    ensures counted { IsCounted bytes.items images.now layouts.now config.now steps.old steps.new }
{
    let loaded = load(alloc, bytes, images)?;
    let Loaded { dump, notes } = loaded;
    let info = process_info(alloc, dump.core(), images)?;
    let mut counted = Counted::new(dump.view(), steps);
    report_over(
        alloc,
        dump.core(),
        notes,
        &info,
        &mut counted,
        layouts,
        config,
    )
}
