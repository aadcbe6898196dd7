//! Merged frames, in the files that they come from.
ghost use Rattle.std.specs.Prelude.{◌≡◌, IfErr, OnOk};
ghost use Rattle.native_merge.specs.KeptMaps.{MapsStay};
ghost use Rattle.native_merge.specs.Sources.{Stay};
ghost use Rattle.native_merge.specs.TranslatedStacks.{AreTranslated};

use crate::{MergeError, SourceMaps, Sources};
use py_stacks::Frame;

/// Puts each frame of a C file where the code of Cython's stands that it comes from, one after the other.
pub(crate) fn translate_all<F: Sources>(
    maps: &mut SourceMaps,
    sources: &mut F,
    frames: &mut [Frame],
) -> Result<(), MergeError>
    ensures all { OnOk result (AreTranslated (F.seen sources.old) maps.old frames.old
        (F.seen sources.new) maps.new frames.new) }
    ensures maps { MapsStay (F.seen sources.old) maps.old maps.new }
    ensures refused { IfErr result (λ error. error ≡ MergeError.OutOfMemory) }
    ensures stay { Stay (F.seen sources.old) (F.seen sources.new) }
{
    for frame in frames.iter_mut() {
        maps.translate(sources, frame)?;
    }
    Ok(())
}
