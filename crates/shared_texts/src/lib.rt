//! Texts that are met again and again, each held once.
#![tactic(auto)]

ghost use Rattle.std.specs.Prelude.{◌≡◌, IfOk, IfSome, option_copied};

use elf64_core::Text;
use std::alloc::{AllocError, Global};
use std::collections::BTreeSet;

/// Texts that were met, each once, by their characters. What is shared costs a count, however long it is.
#[derive(Drop)]
pub struct SharedTexts {
    met: BTreeSet<Text>,
}

impl SharedTexts {
    /// None yet.
    pub fn new(alloc: Global) -> SharedTexts {
        SharedTexts {
            met: BTreeSet::new(alloc),
        }
    }

    /// The one of the same characters that was met, if there is one.
    fn met(&self, text: &Text) -> Option<&Text>
        ensures { IfSome (option_copied result) (λ met. met ≡ text.now) }
    {
        self.met.get(text)
    }

    /// The same text, which shares its bytes with those of the same characters that were handed in before. It takes the
    /// time of some comparisons, as many as halve the texts that were met. The one error is out of memory.
    pub fn share(&mut self, text: Text) -> Result<Text, AllocError>
        ensures { IfOk result (λ shared. shared ≡ text) }
    {
        if let Some(met) = self.met(&text) {
            return met.share();
        }
        self.met.insert(text.share()?)?;
        Ok(text)
    }
}
