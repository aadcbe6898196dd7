//! A core of a Python process.
ghost use Rattle.std.specs.Prelude.{◌≡◌, ◌+◌, ◌≤◌, ℕ, Err, IfErr, IfOk, map, option_map};
ghost use Rattle.process_memory.specs.Layers.{plain};
ghost use Rattle.process_memory.specs.Memory.{Memory, byte_at};
ghost use Rattle.process_memory.specs.Seen.{items_of};
ghost use Rattle.image_memory.specs.Backed.{regions_of};
ghost use Rattle.py_fields.specs.Sound.{IsSound};
ghost use Rattle.py_stacks.specs.Threads.{trace_of};
ghost use Rattle.py_process.specs.Facts.{facts_of};
ghost use Rattle.py_process.specs.Reports.{StacksSay, traces_in};
ghost use Rattle.core_stacks.specs.Footprints.{IsFootprint, traces_with};
ghost use Rattle.core_stacks.specs.Reached.{finding_cost};
ghost use Rattle.core_stacks.specs.Slimmed.{IsSlimOf, SlimmedSays, TellsCause};
ghost use Rattle.core_stacks.specs.declared.slimmed_error.SlimmedError.TheVariants.{TooManyPieces};
ghost use Rattle.core_stacks.specs.Sole.{IsSole, Settles};
ghost use Rattle.core_stacks.specs.Opened.{IsFoundIn, IsLeft, Opened, Opens, OpensAt, opened_first, opened_memory};
ghost use Rattle.core_stacks.specs.Printing.{IsPrintedBy, IsTextOf};
ghost use Rattle.core_stacks.specs.Seen.{AreBinaries, finding_of};

use crate::finding::find_in_dump;
use crate::found::{Found, PythonBinaries};
use crate::printing::text_of_traces;
use crate::slimmed_error::SlimmedError;
use crate::stacks_in::stacks_in;
use core_slim::slim;
use core_texts::PrintError;
use image_memory::{BackedDump, BackedView, CoreDump, Images};
use outside::Sink;
use process_memory::{ProcessMemory, Recorder, Span};
use py_layout::{Layout, Layouts, Version};
use py_process::CoreError;
use py_stacks::{Addresses, Config, StackTrace};
use std::alloc::Global;
use std::marker::Model;

/// A core of a Python process, with the version of Python that ran, the layout that covers it, and where its
/// interpreter and the lock of that are.
///
/// Contracts see it as the core's bytes, the pieces of the process's memory, which are the core's and those of its
/// images, and what was found of it.
#[derive(Drop)]
pub struct PythonCoreDump {
    alloc: Global,
    dump: BackedDump,
    found: Found,
}

impl Model for PythonCoreDump {
    ghost Value = { Opened };

    ghost view = { λ p. record {
      core = p.dump.core;
      pieces = regions_of p.dump;
      finding = finding_of p.found;
    } };

    ghost invariant = { λ p. IsSound p.found.layout };
}

/// Reads the traces of what was found in a core, and lists what was read.
fn read_footprint(
    alloc: Global,
    dump: &BackedDump,
    found: &Found,
    config: &Config,
) -> Result<(Vec<StackTrace>, Vec<Span>), CoreError>
    requires sound { IsSound found.now.layout }
    ensures says { StacksSay (byte_at (regions_of dump.now)) (finding_of found.now) config.now (traces_with result) }
    ensures footprint { IfOk result (λ answer. IsFootprint (byte_at (regions_of dump.now)) (finding_of found.now)
        config.now (map trace_of answer.0.items) answer.1.items) }
{
    let mut recorder = Recorder::new(alloc, dump.view());
    let traces = stacks_in(alloc, &mut recorder, found, config)?;
    let ranges = recorder.ranges().to_vec(alloc)?;
    Ok((traces, ranges))
}

/// Looks for what there is to find in a core.
fn open_core(
    alloc: Global,
    core: CoreDump,
    images: &Images,
    layouts: &Layouts,
) -> Result<(PythonCoreDump, PythonBinaries), CoreError>
    ensures settles { Settles (Opens core images.now layouts.now) (opened_first result) }
    ensures binaries { IfOk result (λ opened. AreBinaries core images.now
        (option_map facts_of opened.1.program) (option_map facts_of opened.1.library)) }
{
    let dump = BackedDump::new(alloc, core, images)?;
    let (found, binaries) = find_in_dump(alloc, &dump, images, layouts)?;
    Ok((PythonCoreDump { alloc, dump, found }, binaries))
}

impl PythonCoreDump {
    /// A core of a Python process, in which the interpreter is looked for.
    ///
    /// The program is the first executable map whose file has a name, the library the first whose name is that of
    /// Python's library (`py_process::is_python_lib`). Their images are handed in under the paths that the core
    /// has; the library's is needed where one is mapped, else the program's, and the other one may be missing or
    /// bad. The version is the first that `py_process::get_python_version` finds, and the interpreter the first
    /// that `py_process::get_interpreter_address` finds, over the memory of the core and its images
    /// (`image_memory::BackedDump`): the core's own bytes come first, and what it leaves out of a segment without the
    /// write flag comes from the image of its file.
    ///
    /// The lock is that of `py_process::get_threadstate_address`, by the machine that the core's header names.
    ///
    /// The error is the first of these: `NoBinary`, where no executable map's file has a name; `NoImage` and
    /// `BadImage` of the needed image; `UnreadableVersion` and `NoVersion`; `UnsupportedVersion`, where no layout
    /// covers the version; `NoInterpreter`; `Unreadable`, where the lock's address is not in memory. Else it is want
    /// of memory.
    pub fn new(
        alloc: Global,
        core: CoreDump,
        images: &Images,
        layouts: &Layouts,
    ) -> Result<PythonCoreDump, CoreError>
        ensures right { Opens core images.now layouts.now result }
        // what is right is the answer, out of memory aside
        ensures only { IsSole (Opens core images.now layouts.now) result }
        // so of the errors of `get_stack` and `footprint` few are left
        ensures found { IfOk result IsFoundIn }
    {
        match open_core(alloc, core, images, layouts) {
            Ok((process, _)) => Ok(process),
            Err(error) => Err(error),
        }
    }

    /// The same, with what the images of the program and of Python's library say, for whoever asks which addresses are
    /// Python's. The errors are those of `new`.
    pub fn with_binaries(
        alloc: Global,
        core: CoreDump,
        images: &Images,
        layouts: &Layouts,
    ) -> Result<(PythonCoreDump, PythonBinaries), CoreError>
        ensures right { Opens core images.now layouts.now (opened_first result) }
        // what is right is the answer, out of memory aside
        ensures only { IsSole (Opens core images.now layouts.now) (opened_first result) }
        ensures found { IfOk result (λ opened. IsFoundIn opened.0) }
        ensures binaries { IfOk result (λ opened. AreBinaries core images.now
            (option_map facts_of opened.1.program) (option_map facts_of opened.1.library)) }
    {
        open_core(alloc, core, images, layouts)
    }

    /// A core of a Python process of this version, whose interpreter and lock are at these addresses. Nothing is
    /// looked for in the core, and no image is read.
    ///
    /// `UnsupportedVersion` exactly where no layout covers the version. Else the one error is out of memory.
    pub fn with_addresses(
        alloc: Global,
        core: CoreDump,
        layouts: &Layouts,
        version: Version,
        addresses: Addresses,
    ) -> Result<PythonCoreDump, CoreError>
        ensures right { OpensAt core layouts.now version addresses result }
    {
        let Some(layout) = layouts.choose(&version) else {
            return Err(CoreError::UnsupportedVersion { version });
        };
        let layout = *layout;
        let found = Found {
            version,
            layout,
            addresses,
        };
        let dump = BackedDump::new(alloc, core, &Images::new(alloc))?;
        Ok(PythonCoreDump { alloc, dump, found })
    }

    /// The core.
    pub fn core(&self) -> &CoreDump
        ensures { result.now ≡ self.now.core }
    {
        self.dump.core()
    }

    /// The version of Python that ran: the one that was found, or that was handed in.
    pub fn version(&self) -> &Version
        ensures { result.now ≡ self.now.finding.version }
    {
        &self.found.version
    }

    /// Where the interpreter is, and the address of its lock, 0 where there is none: what was found, or was handed in.
    pub fn addresses(&self) -> Addresses
        ensures { result ≡ self.now.finding.addresses }
    {
        self.found.addresses
    }

    /// The layout that covers the version.
    pub fn layout(&self) -> &Layout
        ensures same { result.now ≡ self.now.finding.layout }
        ensures sound { IsSound result.now }
    {
        &self.found.layout
    }

    /// The process's memory: that of the core and its images, the core's own bytes first; of a process whose addresses
    /// were handed in the core's alone. It is read as it stands, and no read wants memory but to copy.
    pub fn memory<'a>(&'a self) -> BackedView<'a>
        ensures { ⟦<BackedView<'a> as ProcessMemory>⟧.seen result ≡ plain self.now.pieces }
    {
        self.dump.view()
    }

    /// The traces of the interpreter's threads, in the order of their chain, with what a `Config` asks for
    /// (`py_stacks::get_stack_over`).
    ///
    /// The error is the first of these: `NativeUnsupported` where native frames are asked for;
    /// `SubprocessesUnsupported` where other processes are; and then those of `get_stack_over`. Else it is want of
    /// memory.
    pub fn get_stack(&self, config: &Config) -> Result<Vec<StackTrace>, CoreError>
        ensures right { StacksSay (opened_memory self.now) self.now.finding config.now (traces_in result) }
        // what is right is the answer, out of memory aside
        ensures only { IsSole (StacksSay (opened_memory self.now) self.now.finding config.now) (traces_in result) }
        // the answer is right over every memory with the same bytes
        ensures equal { (m : Memory) → ((a : ℕ) → m a ≡ opened_memory self.now a)
            → StacksSay m self.now.finding config.now (traces_in result) }
        // where the process was found, neither a limit nor a record of a thread or a frame is in the way: the lock's
        // holder may be, and the locals of a kept frame, where they are asked for
        ensures found { IsFoundIn self.now → IfErr result (IsLeft self.now config.now) }
    {
        let mut view = self.dump.view();
        stacks_in(self.alloc, &mut view, &self.found, config)
    }

    /// The traces of `get_stack`, with ranges of the process's memory that suffice for them: the same traces are right
    /// over every part of the memory that holds all of these. Each is in memory, of fewer than 65536 bytes, and no
    /// wider than what is looked at: as long as a field or a record of the layout, or exactly the characters of a text
    /// or the bytes of a bytes object. They stand in the order in which they were read, which no clause says. The
    /// errors are those of `get_stack`.
    pub fn footprint(&self, config: &Config) -> Result<(Vec<StackTrace>, Vec<Span>), CoreError>
        ensures right { StacksSay (opened_memory self.now) self.now.finding config.now (traces_with result) }
        // what is right is the answer, out of memory aside
        ensures only { IsSole (StacksSay (opened_memory self.now) self.now.finding config.now) (traces_with result) }
        ensures footprint { IfOk result (λ answer. IsFootprint (opened_memory self.now) self.now.finding config.now
            (map trace_of answer.0.items) answer.1.items) }
        ensures found { IsFoundIn self.now → IfErr result (IsLeft self.now config.now) }
    {
        read_footprint(self.alloc, &self.dump, &self.found, config)
    }

    /// The bytes of a core of this process that has what `footprint` lists of its memory alone: the slim core of these
    /// ranges (`core_slim::slim`), with all that the notes of this process's core say. `CoreDump::new` accepts it, and
    /// opened by `with_addresses` with the same layouts and with `version` and `addresses`, `get_stack` answers the
    /// stacks of this process for the same `Config`, or out of memory, and nothing else.
    ///
    /// - `Core` exactly where `footprint` answers this error, and that is another one than out of memory.
    /// - `TooManyPieces` exactly where the ranges have more than 65533 pieces: never where the stacks take no more
    ///   reads than that.
    /// - `OutOfMemory` where there was no memory left.
    pub fn slimmed(&self, config: &Config) -> Result<Vec<u8>, SlimmedError>
        ensures right { SlimmedSays self.now config.now (items_of result) }
        ensures cause { TellsCause self.now config.now (items_of result) }
        // no more pieces than the reads that a footprint may list
        ensures few { (count : ℕ) → items_of result ≡ Err (TooManyPieces count)
            → count ≤ 13 + finding_cost config.now (opened_memory self.now) self.now.finding }
        ensures keeps { IfOk result (λ bytes. IsSlimOf self.now config.now bytes.items) }
    {
        let (_traces, ranges) = self.footprint(config)?;
        let bytes = slim(self.alloc, &self.dump, &ranges)?;
        Ok(bytes)
    }

    /// Prints traces of this core, by one write of the whole text, under the name of the core's file: the signal that
    /// the core tells and the process, where it tells them, the version, and the threads from the last to the first,
    /// each with its frames and their locals (`core_texts::report_text`). Where the `Config` asks for JSON, the traces
    /// alone, in order, as an array of objects (`core_texts::report_json`). Nothing else of the `Config` counts.
    ///
    /// The traces are those that are handed in; that they are this core's is not looked at.
    ///
    /// - `Sink` where the stream failed: its count of faults rose, and a front of the text was written.
    /// - `OutOfMemory` where there was no memory left; nothing was written.
    pub fn print_traces<S: Sink>(
        &self,
        out: &mut S,
        core_name: &[u8],
        traces: &[StackTrace],
        config: &Config,
    ) -> Result<(), PrintError>
        ensures { IsPrintedBy
            (IsTextOf config.now.dump_json self.now.core self.now.finding.version core_name.now traces.now)
            (S.seen out.old) (S.seen out.new) result }
    {
        let version = &self.found.version;
        let json = config.dump_json;
        let text = text_of_traces(
            self.alloc,
            self.dump.core(),
            version,
            core_name,
            traces,
            json,
        )?;
        match out.write(&text) {
            Ok(()) => Ok(()),
            Err(fault) => Err(PrintError::Sink(fault)),
        }
    }
}
