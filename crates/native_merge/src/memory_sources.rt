//! Source files in memory.
ghost use Rattle.std.specs.Prelude.{◌≡◌, ◌≢◌, ◌↔◌, false, option_map, MatchResult, IfOk, IsErrOf, Ok, Err, Some};
ghost use Rattle.outside.specs.Counts.{Rose};
ghost use Rattle.outside.specs.Files.{Gives, entries, held_bytes, is_listed};
ghost use Rattle.native_merge.specs.Sources.{HasGiven, HeldSources, Stay, source_answer, sources_seen, unread_sources};

use crate::{SourceFault, Sources};
use elf64_core::Name;
use std::alloc::Global;
use std::marker::Model;

/// Source files in memory, with calls that are to fail.
///
/// Contracts see the paths with their bytes, the numbers of the calls of `contents` that are to fail, how many of
/// them there were and how many failed. All of it is told.
#[derive(Drop)]
pub struct MemorySources {
    files: Vec<(Name, Vec<u8>)>,
    failing: Vec<u64>,
    calls: u64,
    faults: u64,
}

impl Model for MemorySources {
    ghost Value = { HeldSources };

    ghost view = { λ m. record {
      files = entries m.files.items;
      failing = m.failing.items;
      calls = m.calls;
      faults = m.faults;
    } };
}

impl MemorySources {
    /// These files, of which the first of a path counts, and the numbers of the calls of `contents` that are to
    /// fail. Such a call fails where its path exists, and else the path is missing.
    ///
    /// Calls of `contents` are counted from 0. No call from number 2^64 - 1 on fails by its number.
    pub fn new(_alloc: Global, files: Vec<(Name, Vec<u8>)>, failing: Vec<u64>) -> MemorySources
        ensures { result ≡ unread_sources (entries files.items) failing.items }
    {
        MemorySources {
            files,
            failing,
            calls: 0,
            faults: 0,
        }
    }
}

/// The bytes of a path.
fn find<'a>(files: &'a [(Name, Vec<u8>)], path: &[u8]) -> Option<&'a [u8]>
    ensures { option_map (λ bytes. bytes.now) result ≡ held_bytes (entries files.now) path.now }
{
    let mut rest = files;
    while let [file, after @ ..] = rest {
        if file.0.as_bytes() == path {
            return Some(file.1.as_slice());
        }
        rest = after;
    }
    None
}

/// Whether the call of this number is to fail.
fn is_listed(failing: &[u64], call: u64) -> bool
    ensures { result ≡ is_listed failing.now call }
{
    call < u64::MAX && failing.contains(&call)
}

/// The bytes of a source in new memory.
fn copy(alloc: Global, bytes: &[u8]) -> Result<Vec<u8>, SourceFault>
    ensures { MatchResult result (λ copied. copied.items ≡ bytes.now) (λ fault. fault ≡ SourceFault.OutOfMemory) }
{
    match bytes.to_vec(alloc) {
        Ok(copied) => Ok(copied),
        Err(_) => Err(SourceFault::OutOfMemory),
    }
}

impl Sources for MemorySources {
    ghost seen = { sources_seen };

    fn exists(&mut self, path: &[u8]) -> bool
        ensures test { result ≡ (sources_seen self.old).exists path.now }
        ensures stay { Stay (sources_seen self.old) (sources_seen self.new) }
        ensures same { self.new ≡ self.old }
    {
        find(&self.files, path).is_some()
    }

    fn contents(&mut self, alloc: Global, path: &[u8]) -> Result<Vec<u8>, SourceFault>
        ensures missing { IsErrOf result SourceFault.Missing ↔ ((sources_seen self.old).exists path.now ≡ false) }
        ensures failed { IsErrOf result SourceFault.Failed → Rose self.old.faults self.new.faults }
        ensures bytes { IfOk result (λ bytes. Gives (Some self.old.files) path.now bytes.items) }
        ensures stay { Stay (sources_seen self.old) (sources_seen self.new) }

        // all that changes, and the answer where there is memory
        ensures after { HasGiven self.old result self.new }
        ensures answer { MatchResult result (λ bytes. source_answer self.old path.now ≡ Ok bytes.items)
            (λ fault. fault ≢ SourceFault.OutOfMemory → source_answer self.old path.now ≡ Err fault) }
    {
        let call = self.calls;
        self.calls = call.saturating_add(1);
        let Some(bytes) = find(&self.files, path) else {
            return Err(SourceFault::Missing);
        };
        if is_listed(&self.failing, call) {
            self.faults = self.faults.saturating_add(1);
            return Err(SourceFault::Failed);
        }
        copy(alloc, bytes)
    }
}
