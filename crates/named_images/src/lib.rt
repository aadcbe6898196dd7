//! Images by the words that name them: the bytes of each file under the path at which a process had it mapped.
#![tactic(auto)]

ghost use Rattle.std.specs.Prelude.{◌≡◌, IfOk};
ghost use Rattle.named_images.specs.Named.{contents, images_read};

use elf64_core::Name;
use image_memory::{Images, Mmap};
use std::alloc::{AllocError, Global};

/// The images of some words, each a path and the name of a file: each file's bytes, in the order of the words, under
/// the path of its word. Where there are more files or more words, those have no image. The only error is want of
/// memory.
pub fn image_list(
    alloc: Global,
    words: &[(Name, Name)],
    files: Vec<Vec<u8>>,
) -> Result<Images, AllocError>
    ensures { IfOk result (λ images. images ≡ images_read words.now (contents files.items)) }
{
    let mut images = Images::new(alloc);
    let mut names = words;
    for bytes in files {
        let [(path, _), rest @ ..] = names else {
            break;
        };
        images.push(Name::of(alloc, path.as_bytes())?, Mmap::of(alloc, bytes)?)?;
        names = rest;
    }
    Ok(images)
}
