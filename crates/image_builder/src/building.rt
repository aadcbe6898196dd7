//! The core and the image of a program.
ghost use Rattle.std.specs.Prelude.{◌≡◌, ◌↔◌, ◌≤◌, ℕ, List, [], ◌∷◌, Some, Ok, length, IfOk, IfErr};
ghost use Rattle.elf64_core.specs.Header.{machine_of};
ghost use Rattle.image_memory.specs.Cores.{IsCore};
ghost use Rattle.image_memory.specs.Maps.{AreMaps, in_maps};
ghost use Rattle.image_memory.specs.Notes.{AreStatuses, IsProcess};
ghost use Rattle.image_memory.specs.Pieces.{memory_of};
ghost use Rattle.py_process.specs.Binary.{HasInfo, SaysFacts};
ghost use Rattle.py_stacks.specs.declared.config.Config.{Config};
ghost use Rattle.py_stacks.specs.StacksOver.{AreStacksOver};
ghost use Rattle.py_stacks.specs.Threads.{Trace};
ghost use Rattle.py_process.specs.Lock.{lock_address_of};
ghost use Rattle.object_builder.specs.Placing.{Stands};
ghost use Rattle.memory_builder.specs.Laid.{owner_id};
ghost use Rattle.memory_builder.specs.Told.{program_told};
ghost use Rattle.py_process.specs.Candidates.{IsFirstOf, candidates_of, head_by};
ghost use Rattle.py_process.specs.Findings.{finding};
ghost use Rattle.py_process.specs.Programs.{ArePrograms, IsKnown};
ghost use Rattle.image_memory.specs.Mmap.{whole_view};
ghost use Rattle.py_process.specs.Reports.{AsksNoOther};
ghost use Rattle.py_process.specs.Sources.{FirstTells, sources_of, version_of_number};
ghost use Rattle.py_fields.specs.Sound.{IsSound};
ghost use Rattle.object_builder.specs.Room.{HasRoom};
ghost use Rattle.memory_builder.specs.Mirror.{program_in};
ghost use Rattle.image_builder.specs.Built.{built_core, built_image, built_lock, built_objects, built_words};
ghost use Rattle.image_builder.specs.CoreFacts.{InEachMemory, built_maps, built_memory, built_process, built_programs};
ghost use Rattle.image_builder.specs.CoreFacts.{built_status};
ghost use Rattle.image_builder.specs.CoreFiles.{image_path as path_of_image};
ghost use Rattle.image_builder.specs.Covered.{IsNumberOf, told_version};
ghost use Rattle.image_builder.specs.ImageFacts.{image_facts, image_known};
ghost use Rattle.image_builder.specs.Inverse.{FindsAlone, HasFramesOf, IsCoreOf, IsReadableAsAsked, IsReportOf};
ghost use Rattle.image_builder.specs.Inverse.{image_alone};
ghost use Rattle.image_builder.specs.Refusals.{IsBuildable, IsUnbuilt, room_for};
ghost use Rattle.image_builder.specs.RuntimeWords.{HasWordRoom, interpreter_at};
ghost use Rattle.image_builder.specs.Shown.{shown_report};

use crate::BuildError;
use crate::admission::admit;
use crate::core_file::{core_file, image_path};
use crate::covered::number_of;
use crate::image_file::image_file;
use crate::runtime_words::{INTERPRETER, lock_word_place, runtime_words};
use elf64_core::{Machine, Name};
use memory_builder::{Program, holder_place, laid_program, lock_record_place};
use py_fields::{Layout, Lock, Version};
use std::alloc::Global;

/// Where the bss of the image begins.
const WORDS: u64 = 0x50_0000;

/// The files that were written of a program, and where what is in them.
#[derive(Debug, Drop)]
pub struct Built {
    /// The core, as Linux writes it.
    pub core: Vec<u8>,
    /// The path under which the core's process had mapped the image.
    pub image_path: Name,
    /// The image, an ELF file.
    pub image: Vec<u8>,
    /// The address of the interpreter.
    pub interpreter: u64,
    /// The address of the word that names the thread that holds the lock, or of the lock's own record; 0 where the
    /// runtime record has no place for it.
    pub lock: u64,
}

/// Where the lock is.
fn lock_address(layout: &Layout, version: &Version, machine: Machine) -> u64
    requires { IsSound layout.now }
    ensures { result ≡ built_lock layout.now version.now machine }
{
    if layout.lock == Lock::Gil {
        return lock_record_place(layout, INTERPRETER);
    }
    match lock_word_place(layout.lock, machine, version) {
        Some(at) => WORDS + u64::from(at),
        None => 0,
    }
}

/// A core and an image of a program, for a layout that is sound, a version and a machine.
///
/// The core is of a process that was ended by signal 6 and has the number 1, the name `python3` and the path
/// `/usr/bin/python3` for its image. It has the image's 0x2000 bytes at 0x400000, the image's bss of 0x20000 bytes at
/// 0x500000, and the program's objects from 0x600000 on, with the interpreter first. The words of the bss by which a
/// reader finds the interpreter and the holder of the lock name them; the version's number stands at `Py_Version`. It
/// tells the version without zeros in front of a serial number: of `3.9.0a05` what is told and shown is `3.9.0a5`.
///
/// Where the layout has room for the types of values (`has_room`), and for the word of the lock beside the runtime
/// record's field (`has_word_room`), all that was built is read back from the core with the image under its path: the
/// interpreter and the lock that a search finds are the built ones, a report is owed to each `Config` that asks for
/// neither native frames nor those of other processes, and the one right report shows the program (`shown_report`),
/// addresses of locals aside.
///
/// `Uncovered`, `NotValid` and `NoRoom` come for the causes that `BuildError` names, in that order. Else the one error
/// is out of memory. The files are written in one pass each.
pub fn build(
    alloc: Global,
    program: &Program,
    layout: &Layout,
    version: &Version,
    machine: Machine,
) -> Result<Built, BuildError>
    requires { IsSound layout.now }
    ensures buildable { IfOk result (λ _. IsBuildable layout.now version.now machine (program_in program.now)) }
    ensures refused { IfErr result (IsUnbuilt layout.now version.now machine (program_in program.now)) }
    ensures core { IfOk result (λ built. built.core.items
        ≡ built_core layout.now version.now machine (program_in program.now)) }
    ensures image { IfOk result (λ built. built.image.items ≡ built_image version.now machine) }
    ensures path { IfOk result (λ built. built.image_path ≡ path_of_image) }
    ensures interpreter { IfOk result (λ built. built.interpreter ≡ interpreter_at) }
    ensures lock { IfOk result (λ built. built.lock ≡ built_lock layout.now version.now machine) }
    ensures accepted { IfOk result (λ built. IsCore built.core.items) }
    ensures machine { IfOk result (λ built. machine_of built.core.items ≡ machine) }
    ensures memory { IfOk result (λ built. memory_of built.core.items ≡ built_memory built.image.items
        (built_words layout.now version.now machine (program_in program.now))
        (built_objects layout.now (program_in program.now))) }
    ensures maps { IfOk result (λ built. AreMaps built.core.items
        (built_maps (length (built_objects layout.now (program_in program.now))))) }
    ensures statuses { IfOk result (λ built. AreStatuses built.core.items (built_status ∷ [])) }
    ensures process { IfOk result (λ built. IsProcess built.core.items (Some built_process)) }
    ensures parsed { IfOk result (λ built. HasInfo built.image.items 0x40_0000) }
    ensures facts { IfOk result (λ built. SaysFacts built.image.items 0x40_0000 0x2000 image_facts) }
    ensures programs { IfOk result (λ _. ArePrograms
        (built_maps (length (built_objects layout.now (program_in program.now)))) built_programs) }
    ensures known { IfOk result (λ built. IsKnown ((built.image_path, whole_view built.image.items) ∷ [])
        built_programs image_known) }
    ensures version { IfOk result (λ _. (number : ℕ) → IsNumberOf version.now number
        → version_of_number number ≡ told_version version.now) }
    ensures told { IfOk result (λ built. InEachMemory built.core.items
        (λ m. FirstTells m (sources_of image_known) (Ok (Some (told_version version.now))))) }
    ensures head { HasWordRoom layout.now machine version.now → IfOk result (λ built. InEachMemory built.core.items
        (λ m. head_by layout.now.head image_known (told_version version.now) layout.now m
        ≡ built.interpreter ∷ [])) }
    ensures found { HasRoom layout.now → HasWordRoom layout.now machine version.now → IfOk result
        (λ built. InEachMemory built.core.items (λ m.
        IsFirstOf (in_maps (built_maps (length (built_objects layout.now (program_in program.now))))) layout.now m
        (candidates_of image_known (told_version version.now) layout.now m) built.interpreter)) }
    ensures objects { IfOk result (λ built. InEachMemory built.core.items
        (λ m. Stands m built.interpreter (built_objects layout.now (program_in program.now)))) }
    ensures named { HasRoom layout.now → HasWordRoom layout.now machine version.now → IfOk result
        (λ built. InEachMemory built.core.items (λ m.
        lock_address_of machine image_known (told_version version.now) layout.now m built.interpreter
        ≡ Ok built.lock)) }
    ensures stacks { HasRoom layout.now → HasWordRoom layout.now machine version.now → IfOk result
        (λ built. InEachMemory built.core.items (λ m. (config : Config) (traces : List Trace)
        → AreStacksOver config layout.now m built.lock built.interpreter traces
        ↔ (traces ≡ program_told config layout.now interpreter_at (owner_id (program_in program.now))
        (program_in program.now)))) }
    // of the core, the image under its path and this layout alone: what is found is what was built
    ensures finds { HasRoom layout.now → HasWordRoom layout.now machine version.now → IfOk result
        (λ built. FindsAlone built.core.items (image_alone built.image_path built.image.items) (layout.now ∷ [])
        (finding (told_version version.now) layout.now built.interpreter built.lock)) }
    ensures readable { HasRoom layout.now → HasWordRoom layout.now machine version.now → IfOk result
        (λ built. IsReadableAsAsked built.core.items (image_alone built.image_path built.image.items)
        (layout.now ∷ [])) }
    // and what is shown is the program, for each `Config`
    ensures frames { HasRoom layout.now → HasWordRoom layout.now machine version.now → IfOk result
        (λ built. (config : Config)
        → HasFramesOf built.core.items (image_alone built.image_path built.image.items) (layout.now ∷ [])
        (shown_report config layout.now (told_version version.now) (program_in program.now))) }
    ensures report { HasRoom layout.now → HasWordRoom layout.now machine version.now → IfOk result
        (λ built. (config : Config) → AsksNoOther config
        → IsReportOf built.core.items (image_alone built.image_path built.image.items) (layout.now ∷ []) config
        (shown_report config layout.now (told_version version.now) (program_in program.now))) }
    // the core alone has the stacks of the program, by no lock
    ensures alone { HasRoom layout.now → IfOk result
        (λ built. IsCoreOf layout.now (program_in program.now) built.core.items) }
    ensures small { IfOk result (λ built. length built.core.items ≤ room_for layout.now (program_in program.now)) }
{
    admit(alloc, program, layout, version, machine)?;
    let objects = laid_program(alloc, program, layout, INTERPRETER)?;
    let holder = holder_place(alloc, program, layout, INTERPRETER)?;
    let words = runtime_words(alloc, layout, machine, version, holder)?;
    let image = image_file(alloc, machine, number_of(version))?;
    let core = core_file(alloc, machine, &image, &words, &objects)?;
    Ok(Built {
        core,
        image_path: Name::of(alloc, image_path())?,
        image,
        interpreter: INTERPRETER,
        lock: lock_address(layout, version, machine),
    })
}
