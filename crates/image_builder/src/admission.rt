//! Whether a core and an image can be written of a program.
ghost use Rattle.std.specs.Prelude.{MatchResult};
ghost use Rattle.py_fields.specs.Sound.{IsSound};
ghost use Rattle.memory_builder.specs.Mirror.{program_in};
ghost use Rattle.image_builder.specs.Refusals.{IsBuildable, IsUnbuilt};

use crate::BuildError;
use crate::covered::is_covered;
use elf64_core::Machine;
use memory_builder::{Program, family_of, first_invalid, objects_size};
use py_fields::{Layout, Version};
use std::alloc::Global;

/// How many bytes a core has beside its objects, at most.
const REST: u64 = 1 << 18;
/// The most bytes that a core may have.
const MOST: u64 = 1 << 30;

/// Whether a core and an image can be written of a program, for a layout, a version and a machine.
///
/// What may stand against it is looked at in the order of `BuildError`, out of memory aside.
pub(crate) fn admit(
    alloc: Global,
    program: &Program,
    layout: &Layout,
    version: &Version,
    machine: Machine,
) -> Result<(), BuildError>
    requires { IsSound layout.now }
    ensures { MatchResult result
        (λ _. IsBuildable layout.now version.now machine (program_in program.now))
        (IsUnbuilt layout.now version.now machine (program_in program.now)) }
{
    if !is_covered(layout, version, machine, program.owner) {
        return Err(BuildError::Uncovered);
    }
    if let Some(place) = first_invalid(alloc, program, family_of(layout.lines))? {
        return Err(BuildError::NotValid {
            thread: place.thread,
            frame: place.frame,
        });
    }
    let needed = objects_size(alloc, program, layout)?.saturating_add(REST);
    if needed > MOST {
        return Err(BuildError::NoRoom { needed });
    }
    Ok(())
}
