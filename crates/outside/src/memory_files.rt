//! Files in memory.
ghost use Rattle.std.specs.Prelude.{◌≡◌, ◌≢◌, ◌++◌, ◌≤◌, ◌<◌, ◌⊎◌, length, option_map, MatchResult, IfOk, Some};
ghost use Rattle.std.specs.Prelude.{IsErrOf, Ok, Err};
ghost use Rattle.outside.specs.Files.{Gives, HasRead, HeldFiles, IsTooLong, held_bytes, entries, failed_name};
ghost use Rattle.outside.specs.Files.{file_answer, file_limit, gained, held_seen, is_listed, unread_files};

use crate::files::FILE_LIMIT;
use crate::{FileFault, Files};
use elf64_core::Name;
use std::alloc::Global;
use std::marker::Model;

/// Files in memory, with calls that are to fail.
///
/// Contracts see the names with their bytes, the numbers of the calls that are to fail, how many calls
/// there were, the names that failed and how many bytes were taken. All of it is told.
#[derive(Drop)]
pub struct MemoryFiles {
    files: Vec<(Name, Vec<u8>)>,
    failing: Vec<u64>,
    calls: u64,
    failed: Vec<(Name, FileFault)>,
    taken: u64,
}

impl Model for MemoryFiles {
    ghost Value = { HeldFiles };

    ghost view = { λ m. record {
      files = entries m.files.items;
      failing = m.failing.items;
      calls = m.calls;
      failed = m.failed.items;
      taken = m.taken;
    } };
}

impl MemoryFiles {
    /// These files, of which the first of a name counts, and the numbers of the calls that are to fail.
    ///
    /// Calls are counted from 0. No call from number 2^64 - 1 on fails by its number.
    pub fn new(alloc: Global, files: Vec<(Name, Vec<u8>)>, failing: Vec<u64>) -> MemoryFiles
        ensures { result ≡ unread_files (entries files.items) failing.items }
    {
        MemoryFiles {
            files,
            failing,
            calls: 0,
            failed: Vec::new(alloc),
            taken: 0,
        }
    }
}

/// Keeps the name of a file that could not be read, and answers the fault, or out of memory.
#[tactic(auto, using(crate::proofs::Names::failed_name_of_fault))]
fn note(
    alloc: Global,
    failed: &mut Vec<(Name, FileFault)>,
    name: &[u8],
    fault: FileFault,
) -> FileFault
    requires { fault ≢ FileFault.OutOfMemory }
    ensures kept { failed.new.items ≡ failed.old.items ++ failed_name name.now result }
    ensures which { (result ≡ fault) ⊎ (result ≡ FileFault.OutOfMemory) }
{
    let Ok(name) = Name::of(alloc, name) else {
        return FileFault::OutOfMemory;
    };
    if failed.push((name, fault)).is_err() {
        return FileFault::OutOfMemory;
    }
    fault
}

/// The bytes of a name.
fn find<'a>(files: &'a [(Name, Vec<u8>)], name: &[u8]) -> Option<&'a [u8]>
    ensures { option_map (λ bytes. bytes.now) result ≡ held_bytes (entries files.now) name.now }
{
    let mut rest = files;
    while let [file, after @ ..] = rest {
        if file.0.as_bytes() == name {
            return Some(file.1.as_slice());
        }
        rest = after;
    }
    None
}

/// Whether the call of this number is to fail.
fn is_listed(failing: &[u64], call: u64) -> bool
    ensures { result ≡ is_listed failing.now call }
{
    call < u64::MAX && failing.contains(&call)
}

/// The bytes of a file in new memory.
fn copy(alloc: Global, bytes: &[u8]) -> Result<Vec<u8>, FileFault>
    ensures { MatchResult result (λ copied. copied.items ≡ bytes.now) (λ fault. fault ≡ FileFault.OutOfMemory) }
{
    match bytes.to_vec(alloc) {
        Ok(copied) => Ok(copied),
        Err(_) => Err(FileFault::OutOfMemory),
    }
}

impl Files for MemoryFiles {
    ghost seen = { held_seen };

    fn read(&mut self, alloc: Global, name: &[u8]) -> Result<Vec<u8>, FileFault>
        ensures told { Some self.new.files ≡ Some self.old.files }
        ensures failed { self.new.failed ≡ self.old.failed ++ gained name.now result }
        ensures taken { self.old.taken ≤ self.new.taken }
        ensures bytes { IfOk result (λ bytes. Gives (Some self.old.files) name.now bytes.items) }
        ensures short { IfOk result (λ bytes. length bytes.items ≤ file_limit) }
        ensures too_long { IsErrOf result FileFault.TooLong
            → IsTooLong (Some self.old.files) name.now self.old.taken self.new.taken }

        // all that changes, and the answer where there is memory
        ensures after { HasRead self.old name.now result self.new }
        ensures answer { MatchResult result (λ bytes. file_answer self.old name.now ≡ Ok bytes.items)
            (λ fault. fault ≢ FileFault.OutOfMemory → file_answer self.old name.now ≡ Err fault) }
    {
        let call = self.calls;
        self.calls = call.saturating_add(1);
        if is_listed(&self.failing, call) {
            return Err(note(alloc, &mut self.failed, name, FileFault::Failed));
        }
        let Some(bytes) = find(&self.files, name) else {
            return Err(note(alloc, &mut self.failed, name, FileFault::Failed));
        };
        if bytes.len() as u64 > FILE_LIMIT {
            return Err(note(alloc, &mut self.failed, name, FileFault::TooLong));
        }
        let copied = copy(alloc, bytes)?;
        self.taken = self.taken.saturating_add(copied.len() as u64);
        Ok(copied)
    }
}
