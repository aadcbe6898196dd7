//! What native addresses show by the files that a process had mapped.
ghost use Rattle.std.specs.Prelude.{◌≡◌, IfOk, IsErrOf};
ghost use Rattle.outside.specs.Counts.{Rose};
ghost use Rattle.native_merge.specs.ImageSymbols.{files_mapped, image_seen};
ghost use Rattle.native_merge.specs.Symbols.{IsAsTold, SymbolsStay, AnswersOnce};

use crate::read_images::{ReadImage, covered_under, native_at, normal_place};
use crate::{NativeFrame, SymbolFault, Symbolicator};
use image_memory::Images;
use maps_text::MapsEntry;
use normalize_core::in_order;
use std::alloc::Global;
use std::marker::Model;

/// Looks native addresses up in the images of the files that a process had mapped, by the entries of its maps.
///
/// Contracts see the entries and the images.
#[derive(Drop)]
pub struct ImageSymbolicator<'a> {
    entries: &'a [MapsEntry],
    images: &'a Images,
    /// Whether the entries ascend and are disjoint.
    in_order: bool,
    /// The images of which the symbols were read.
    read: Vec<ReadImage<'a>>,
}

impl<'a> Model for ImageSymbolicator<'a> {
    ghost use Rattle.std.specs.Prelude.{All, ◌≡◌};
    ghost use Rattle.normalize_core.specs.Order.{in_order as are_in_order};
    ghost use Rattle.native_merge.specs.ImageSymbols.{FilesMapped, files_mapped};
    ghost use Rattle.native_merge.specs.ReadImages.{IsReadOf};

    ghost Value = { FilesMapped };

    ghost view = { λ s. files_mapped s.entries.now s.images.now };

    ghost invariant = { λ s. (s.in_order ≡ are_in_order s.entries.now) × All (IsReadOf s.images.now) s.read.items };
}

impl<'a> ImageSymbolicator<'a> {
    /// Over these entries, relevant or not, and these images, each under its path less a final ` (deleted)`. Whether
    /// the entries stand in order is tested here, once.
    pub fn new(alloc: Global, entries: &'a [MapsEntry], images: &'a Images) -> ImageSymbolicator<'a>
        ensures { result ≡ files_mapped entries.now images.now }
    {
        ImageSymbolicator {
            entries,
            images,
            in_order: in_order(entries),
            read: Vec::new(alloc),
        }
    }
}

impl<'a> Symbolicator for ImageSymbolicator<'a> {
    ghost seen = { image_seen };

    /// One frame without file name and line, whose module is the path that the address's entry gives, shown lossily,
    /// and whose function is the name, shown lossily, of the function that covers the address's place in the file;
    /// none where no function does, or it has no name. `NoBinary` exactly where normalizing reports no file for the
    /// address or refuses it, or no image stands under the file's path, or it is no ELF file that is accepted. An
    /// image is read once: its header, its segments and its symbols.
    fn symbolicate(
        &mut self,
        alloc: Global,
        addr: u64,
        line_info: bool,
    ) -> Result<Vec<NativeFrame>, SymbolFault>
        ensures no_binary { IsErrOf result SymbolFault.NoBinary → (image_seen self.old).lacks addr }
        ensures failed { IsErrOf result SymbolFault.Failed
            → Rose (image_seen self.old).faults (image_seen self.new).faults }
        ensures frames { IfOk result (λ frames. IsAsTold (image_seen self.old) addr line_info frames.items) }
        ensures once { AnswersOnce (image_seen self.old) }
        ensures stay { SymbolsStay (image_seen self.old) (image_seen self.new) }

        // nothing is counted, and nothing of the files changes
        ensures same { self.new ≡ self.old }
    {
        let Some(place) = normal_place(self.entries, self.in_order, addr) else {
            return Err(SymbolFault::NoBinary);
        };
        let Ok(covered) = covered_under(
            alloc,
            &mut self.read,
            self.images,
            place.path,
            place.offset,
        ) else {
            return Err(SymbolFault::OutOfMemory);
        };
        let Some(covered) = covered else {
            return Err(SymbolFault::NoBinary);
        };
        match native_at(alloc, addr, place.path, covered.name) {
            Ok(natives) => Ok(natives),
            Err(_) => Err(SymbolFault::OutOfMemory),
        }
    }
}
