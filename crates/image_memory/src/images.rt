//! Files by their paths.
ghost use Rattle.std.specs.Prelude.{◌≡◌, ◌<◌, ◌+◌, ◌^◌, ◌∷◌, ◌++◌, [], IfOk, IfSome, MatchResult, length, map};
ghost use Rattle.std.specs.Prelude.{option_copied, position, slice_index_or};
ghost use Rattle.image_memory.specs.Images.{Pushed, first_under, images_shown, is_under};

use crate::Mmap;
use elf64_core::Name;
use std::alloc::{AllocError, Global};
use std::marker::Model;

/// The files that a process had mapped, as far as they are given, each by its path.
///
/// Contracts see it as the paths with the views of the files, in the order in which they were pushed.
#[derive(Debug, Drop)]
pub struct Images {
    pushed: Vec<(Name, Mmap)>,
}

impl Model for Images {
    ghost Value = { Pushed };

    ghost view = { λ i. i.pushed.items };
}

impl Images {
    /// No files.
    pub fn new(alloc: Global) -> Images
        ensures { result ≡ [] }
    {
        Images {
            pushed: Vec::new(alloc),
        }
    }

    /// One file more. The one error is out of memory, and leaves the files as they were.
    pub fn push(&mut self, path: Name, bytes: Mmap) -> Result<(), AllocError>
        ensures { MatchResult result (λ _. self.new ≡ self.old ++ (path, bytes) ∷ []) (λ _. self.new ≡ self.old) }
    {
        self.pushed.push((path, bytes))?;
        Ok(())
    }

    /// A share of each.
    pub(crate) fn shares(&self, alloc: Global) -> Result<Vec<Mmap>, AllocError>
        ensures { IfOk result (λ shares. shares.items ≡ map (λ image. image.1) self.now) }
    {
        self.pushed
            .iter()
            .map(|image| image.1.share())
            .collect(alloc)
    }

    /// The number of the file that was pushed first under a path; none exactly where none was.
    pub(crate) fn number_of(&self, path: &[u8]) -> Option<usize>
        ensures is { result ≡ position (is_under path.now) self.now }
        ensures bound { IfSome result (λ number. (number < length self.now) × (number + 1 < 2 ^ 64)) }
    {
        self.pushed
            .iter()
            .position(|image| image.0.as_bytes() == path)
    }

    /// How many bytes the file of a number shows.
    pub(crate) fn size(&self, number: usize) -> u64
        requires { number < length self.now }
        ensures { result ≡ length (slice_index_or (images_shown self.now) number []) }
    {
        self.pushed[number].1.as_slice().len() as u64
    }

    /// The file that was pushed first under a path; none exactly where none was.
    pub fn get(&self, path: &[u8]) -> Option<&Mmap>
        ensures { option_copied result ≡ first_under path.now self.now }
    {
        let (_, bytes) = self.pushed.iter().find(|image| image.0.as_bytes() == path)?;
        Some(bytes)
    }
}
