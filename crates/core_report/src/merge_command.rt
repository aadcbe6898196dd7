//! `merge CORE LAYOUTS INDEX ADDRESSES [PATH=FILE]..`
ghost use Rattle.std.specs.Prelude.{◌≡◌, IfOk, length, option_map};
ghost use Rattle.py_process.specs.Facts.{facts_of};
ghost use Rattle.py_stacks.specs.Asking.{default_config};
ghost use Rattle.core_stacks.specs.Seen.{AreBinaries};
ghost use Rattle.core_words.specs.Words.{merge};
ghost use Rattle.core_words.specs.Seen.{asked_merge};
ghost use Rattle.core_report.specs.Outcome.{IsAnswer, IsMergedIn, IsOutcome};
ghost use Rattle.core_report.specs.Reading.{merge_contents};
ghost use Rattle.core_report.specs.Run.{HasMergeFiles};
ghost use Rattle.core_report.specs.Stacked.{StackedIs};
ghost use Rattle.core_report.specs.Stacks.{threads_in, threads_stacked};

use crate::cause::{Cause, Trouble};
use core_merge::merge_thread;
use core_stacks::{PythonBinaries, PythonCoreDump};
use core_texts::frames_text;
use core_words::MergeWords;
use image_memory::{CoreDump, Images};
use named_images::image_list;
use outside::Files;
use program_run::{CoreFiles, read_file};
use py_layout::Layouts;
use py_process::CoreError;
use py_stacks::{Config, StackTrace};
use std::alloc::Global;

/// What the files of a merge hold.
#[derive(Drop)]
pub(crate) struct MergeFiles {
    pub(crate) report: CoreFiles,
    /// The text of the addresses.
    pub(crate) addresses: Vec<u8>,
}

impl MergeFiles {
    /// Reads the files in the order in which the command asks for them.
    pub(crate) fn read<'a, F: Files>(
        alloc: Global,
        words: &'a MergeWords<'_>,
        files: &mut F,
    ) -> Result<MergeFiles, Trouble<'a>>
        ensures told { (F.seen files.new).told ≡ (F.seen files.old).told }
        ensures read { HasMergeFiles (F.seen files.old) (F.seen files.new) (asked_merge words.now) result }
    {
        let (core, layouts) = (words.core.as_bytes(), words.layouts.as_bytes());
        let report = CoreFiles::read(alloc, core, layouts, &words.images, files)?;
        let addresses = read_file(alloc, words.addresses.as_bytes(), files)?;
        Ok(MergeFiles { report, addresses })
    }
}

/// The process of a core, opened, with Python's two binaries and its traces.
#[derive(Drop)]
struct Threads {
    process: PythonCoreDump,
    binaries: PythonBinaries,
    traces: Vec<StackTrace>,
}

/// Opens the process of a core, and reads its traces under the default configuration.
fn open_threads(
    alloc: Global,
    bytes: Vec<u8>,
    images: &Images,
    layouts: &Layouts,
) -> Result<Threads, CoreError>
    ensures stacks { StackedIs bytes.items images.now layouts.now default_config (threads_in result) }
    ensures core { IfOk result (λ threads. threads.process.core ≡ bytes.items) }
    ensures binaries { IfOk result (λ threads. AreBinaries bytes.items images.now
        (option_map facts_of threads.binaries.program) (option_map facts_of threads.binaries.library)) }
{
    let core = CoreDump::new(alloc, bytes)?;
    let (process, binaries) = PythonCoreDump::with_binaries(alloc, core, images, layouts)?;
    let traces = process.get_stack(&Config::default())?;
    Ok(Threads {
        process,
        binaries,
        traces,
    })
}

/// The text of a thread's frames, merged with the native addresses of a text.
fn merged_in(
    alloc: Global,
    threads: Threads,
    images: &Images,
    index: u64,
    addresses: &[u8],
) -> Result<Vec<u8>, Cause>
    requires binaries { AreBinaries threads.process.core images.now
        (option_map facts_of threads.binaries.program) (option_map facts_of threads.binaries.library) }
    ensures { IsAnswer (IsMergedIn index threads.process.core images.now addresses.now (threads_stacked threads))
        result }
{
    let Threads {
        process,
        binaries,
        traces,
    } = threads;
    let Some(trace) = traces.get(index as usize) else {
        return Err(Cause::MergeIndex { index });
    };
    let PythonBinaries { program, library } = binaries;
    let frames = merge_thread(
        alloc,
        process.core(),
        images,
        program,
        library,
        &trace.frames,
        addresses,
    )?;
    Ok(frames_text(alloc, &frames)?.into_bytes())
}

/// The text of a merge, over what its files hold.
pub(crate) fn merge_over(
    alloc: Global,
    words: &MergeWords<'_>,
    files: MergeFiles,
) -> Result<Vec<u8>, Cause>
    requires images { length files.report.images.items ≡ length (asked_merge words.now).images }
    ensures { IsAnswer (IsOutcome (merge (asked_merge words.now)) (merge_contents files)) result }
{
    let MergeFiles { report, addresses } = files;
    let CoreFiles {
        core,
        layouts,
        images,
    } = report;
    let layouts = Layouts::from_toml(alloc, &layouts)?;
    let images = image_list(alloc, &words.images, images)?;
    let threads = open_threads(alloc, core, &images, &layouts)?;
    merged_in(alloc, threads, &images, words.index, &addresses)
}
