//! The numbers of metas by what they are the metas of.
ghost use Rattle.std.specs.Prelude.{◌≡◌, OnOk, Some, None, if◌then◌else◌};
ghost use Rattle.normalize_core.specs.Targets.{Target, same_target};
ghost use Rattle.normalize_core.specs.Shown.{target_shown};
ghost use Rattle.normalize_core.specs.Numbered.{number_in};

use crate::Reason;
use crate::query::Target;
use std::alloc::{AllocError, Global};
use std::collections::BTreeMap;

/// The numbers of metas: of files by their paths, and of reasons.
#[derive(Drop)]
pub(crate) struct Numbers<'a> {
    files: BTreeMap<&'a [u8], usize>,
    unmapped: Option<usize>,
    missing: Option<usize>,
    unsupported: Option<usize>,
}

impl<'a> Numbers<'a> {
    /// No numbers.
    pub(crate) fn new(alloc: Global) -> Numbers<'a>
        ensures { (target : Target) → number_in result target ≡ None }
    {
        Numbers {
            files: BTreeMap::new(alloc),
            unmapped: None,
            missing: None,
            unsupported: None,
        }
    }

    /// The number of a target, if it has one.
    pub(crate) fn get(&self, target: Target<'_>) -> Option<usize>
        ensures { result ≡ number_in self.now (target_shown target.entry) }
    {
        match target {
            Ok(path) => self.files.get(path).copied(),
            Err(Reason::Unmapped) => self.unmapped,
            Err(Reason::MissingComponent) => self.missing,
            Err(Reason::Unsupported) => self.unsupported,
        }
    }

    /// Gives a target a number.
    pub(crate) fn insert(&mut self, target: Target<'a>, number: usize) -> Result<(), AllocError>
        ensures { OnOk result ((other : Target) → number_in self.new other
            ≡ (if same_target (target_shown target.entry) other then Some number else number_in self.old other)) }
    {
        match target {
            Ok(path) => {
                self.files.insert(path, number)?;
            }
            Err(Reason::Unmapped) => self.unmapped = Some(number),
            Err(Reason::MissingComponent) => self.missing = Some(number),
            Err(Reason::Unsupported) => self.unsupported = Some(number),
        }
        Ok(())
    }
}
