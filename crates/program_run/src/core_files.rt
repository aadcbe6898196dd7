//! The files of a core: its own, a layout file, and those of images.
ghost use Rattle.std.specs.Prelude.{◌≡◌, ◌∷◌, map};
ghost use Rattle.program_run.specs.Reading.{HasCoreFiles};

use crate::reading::{read_file, read_images};
use crate::trouble::FileTrouble;
use elf64_core::Name;
use outside::Files;
use std::alloc::Global;

/// What the files of a core hold.
#[derive(Drop)]
pub struct CoreFiles {
    /// The bytes of the core.
    pub core: Vec<u8>,
    /// The text of the layout file.
    pub layouts: Vec<u8>,
    /// The bytes of the images' files, in the order of the words.
    pub images: Vec<Vec<u8>>,
}

impl CoreFiles {
    /// Reads the files: the core's, the layout file, and those of the images, in order. The first that isn't read ends
    /// it, as `read_file` says.
    pub fn read<'a, F: Files>(
        alloc: Global,
        core: &'a [u8],
        layouts: &'a [u8],
        images: &'a [(Name, Name)],
        files: &mut F,
    ) -> Result<CoreFiles, FileTrouble<'a>>
        ensures told { (F.seen files.new).told ≡ (F.seen files.old).told }
        ensures read { HasCoreFiles (F.seen files.old) (F.seen files.new)
            (core.now ∷ layouts.now ∷ map (λ image. image.1) images.now) result }
    {
        let core = read_file(alloc, core, files)?;
        let layouts = read_file(alloc, layouts, files)?;
        let images = read_images(alloc, images, files)?;
        Ok(CoreFiles {
            core,
            layouts,
            images,
        })
    }
}
