//! Reading files that words name.
ghost use Rattle.std.specs.Prelude.{◌≡◌, IfErr, IfOk, map};
ghost use Rattle.outside.specs.Files.{Gives};
ghost use Rattle.program_run.specs.Reading.{HasFiles, IsUnreadTrouble};

use crate::trouble::FileTrouble;
use elf64_core::Name;
use outside::{FileFault, Files};
use std::alloc::Global;

/// The bytes of one file; or its name and fault, where it can't be read or is too long, or out of memory.
pub fn read_file<'a, F: Files>(
    alloc: Global,
    name: &'a [u8],
    files: &mut F,
) -> Result<Vec<u8>, FileTrouble<'a>>
    ensures told { (F.seen files.new).told ≡ (F.seen files.old).told }
    ensures given { IfOk result (λ bytes. Gives (F.seen files.old).told name.now bytes.items
        × ((F.seen files.new).failed ≡ (F.seen files.old).failed)) }
    ensures trouble { IfErr result (IsUnreadTrouble (λ asked. asked ≡ name.now) (F.seen files.old) (F.seen files.new)) }
{
    match files.read(alloc, name) {
        Ok(bytes) => Ok(bytes),
        Err(FileFault::OutOfMemory) => Err(FileTrouble::OutOfMemory),
        Err(fault) => Err(FileTrouble::File { name, fault }),
    }
}

/// The bytes of the files of some images, in order: each image is a path and the name of its file. The first file that
/// isn't read ends it, as `read_file` says.
pub fn read_images<'a, F: Files>(
    alloc: Global,
    images: &'a [(Name, Name)],
    files: &mut F,
) -> Result<Vec<Vec<u8>>, FileTrouble<'a>>
    ensures told { (F.seen files.new).told ≡ (F.seen files.old).told }
    ensures read { HasFiles (F.seen files.old) (F.seen files.new) (map (λ image. image.1) images.now) result }
{
    let mut read = Vec::new(alloc);
    for image in images {
        let bytes = read_file(alloc, image.1.as_bytes(), files)?;
        match read.push(bytes) {
            Ok(()) => {}
            Err(_) => return Err(FileTrouble::OutOfMemory),
        }
    }
    Ok(read)
}
