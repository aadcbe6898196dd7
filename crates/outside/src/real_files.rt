//! The files of the system.
ghost use Rattle.std.specs.Prelude.{◌≡◌, ◌≤◌, ◌<◌, ◌+◌, ◌^◌, None, IfErr, IfOk, IfSome, IsErrOf, MatchResult, OnOk};
ghost use Rattle.std.specs.Prelude.{drop, take, vec_len};
ghost use Rattle.std.specs.Io.KnownBytes.{Consumes, IsAtEnd, Keeps};
ghost use Rattle.outside.specs.Files.{RoseByMore, file_limit, untouched_files};

use crate::files::FILE_LIMIT;
use crate::{FileFault, Files};
use elf64_core::Name;
use std::alloc::Global;
use std::fs::OpenFile;
use std::io::{ErrorKind, Read};
use std::marker::Model;
use std::rt::Files as SystemFiles;
use std::{fs, io};

/// How many bytes one read asks for.
const PIECE: usize = 1 << 20;

/// The files of the system, by their paths. Nothing is told of their bytes.
///
/// A file is read in pieces of up to 1 MiB into the memory that is handed out, which is taken at once by
/// the file's own length, where the system tells it. A read that gives nothing is the file's end. A path
/// that isn't UTF-8 is `Failed`, and so are a folder and an empty path. Contracts see the names that failed
/// and how many bytes were taken.
#[derive(Drop)]
pub struct RealFiles<R: SystemFiles> {
    system: R,
    failed: Vec<(Name, FileFault)>,
    taken: u64,
}

impl<R: SystemFiles> Model for RealFiles<R> {
    ghost use Rattle.outside.specs.Files.{FilesSeen};
    ghost use Rattle.std.specs.Prelude.{None};

    ghost Value = { FilesSeen };

    ghost view = { λ f. record { told = None; failed = f.failed.items; taken = f.taken } };
}

impl<R: SystemFiles> RealFiles<R> {
    /// The files that `system` opens. No file is opened yet.
    pub fn new(alloc: Global, system: R) -> RealFiles<R>
        ensures { result ≡ untouched_files }
    {
        RealFiles {
            system,
            failed: Vec::new(alloc),
            taken: 0,
        }
    }
}

/// Room for a piece after the bytes that are filled, where there is none.
fn make_room(bytes: &mut Vec<u8>, filled: usize) -> Result<(), FileFault>
    requires within { filled ≤ vec_len bytes.old }
    requires small { filled ≤ 2 ^ 36 }
    ensures kept { take filled bytes.new.items ≡ take filled bytes.old.items }
    ensures room { OnOk result (filled < vec_len bytes.new) }
    ensures memory { IfErr result (λ fault. fault ≡ FileFault.OutOfMemory) }
{
    if filled == bytes.len() && bytes.resize(filled + PIECE, 0).is_err() {
        return Err(FileFault::OutOfMemory);
    }
    Ok(())
}

/// Reads after the bytes that are filled, and answers how many bytes came.
fn read_piece<F: Read>(file: &mut F, bytes: &mut Vec<u8>, filled: usize) -> io::Result<usize>
    requires { filled < vec_len bytes.old }
    ensures len { vec_len bytes.new ≡ vec_len bytes.old }
    ensures kept { take filled bytes.new.items ≡ take filled bytes.old.items }
    ensures bound { IfOk result (λ count. filled + count ≤ vec_len bytes.new) }
    ensures read { MatchResult result (λ count. Consumes (F.remaining file.old) (F.remaining file.new)
        (take count (drop filled bytes.new.items)))
        (λ _. Keeps (F.remaining file.old) (F.remaining file.new)) }
    ensures end { IfOk result (λ count. count ≡ 0 → IsAtEnd (F.remaining file.new)) }
{
    file.read(&mut bytes[filled..])
}

/// Reads to the end, in pieces of up to `PIECE` bytes, and counts the bytes.
fn fill<F: Read>(file: &mut F, bytes: &mut Vec<u8>, taken: &mut u64) -> Result<(), FileFault>
    ensures whole { OnOk result (IfSome (F.remaining file.old) (λ left. bytes.new.items ≡ left)) }
    ensures short { OnOk result (vec_len bytes.new ≤ file_limit) }
    ensures taken { taken.old ≤ taken.new }
    ensures too_long { IsErrOf result FileFault.TooLong → RoseByMore taken.old taken.new }
{
    bytes.clear();
    let mut filled = 0;
    for _ in 0..u64::MAX {
        if filled > FILE_LIMIT as usize {
            return Err(FileFault::TooLong);
        }
        make_room(bytes, filled)?;
        match read_piece(file, bytes, filled) {
            Ok(0) => {
                bytes.truncate(filled);
                return Ok(());
            }
            Ok(count) => {
                filled += count;
                *taken = taken.saturating_add(count as u64);
            }
            Err(error) => {
                if error.kind() != ErrorKind::Interrupted {
                    return Err(FileFault::Failed);
                }
            }
        }
    }
    Err(FileFault::Failed)
}

/// The bytes of the file at a path.
fn fetch<R: SystemFiles>(
    system: &R,
    alloc: Global,
    path: &[u8],
    taken: &mut u64,
) -> Result<Vec<u8>, FileFault>
    ensures short { IfOk result (λ bytes. vec_len bytes ≤ file_limit) }
    ensures taken { taken.old ≤ taken.new }
    ensures too_long { IsErrOf result FileFault.TooLong → RoseByMore taken.old taken.new }
{
    let Ok(path) = str::from_utf8(path) else {
        return Err(FileFault::Failed);
    };
    let Ok(mut file) = fs::open(system, path) else {
        return Err(FileFault::Failed);
    };
    let size = match file.metadata() {
        Ok(about) => usize::try_from(about.len())
            .unwrap_or(0)
            .min(FILE_LIMIT as usize),
        Err(_) => 0,
    };
    let Ok(mut bytes) = Vec::with_capacity(alloc, size + PIECE) else {
        return Err(FileFault::OutOfMemory);
    };
    fill(&mut file, &mut bytes, taken)?;
    Ok(bytes)
}

impl<R: SystemFiles> Files for RealFiles<R> {
    ghost seen = { λ f. f };

    fn read(&mut self, alloc: Global, name: &[u8]) -> Result<Vec<u8>, FileFault> {
        // Room for the name comes first, so that a fault that was met is told.
        let Ok(held) = Name::of(alloc, name) else {
            return Err(FileFault::OutOfMemory);
        };
        if self.failed.reserve(1).is_err() {
            return Err(FileFault::OutOfMemory);
        }
        match fetch(&self.system, alloc, name, &mut self.taken) {
            Ok(bytes) => Ok(bytes),
            Err(FileFault::OutOfMemory) => Err(FileFault::OutOfMemory),
            Err(fault) => match self.failed.push((held, fault)) {
                Ok(()) => Err(fault),
                Err(_) => Err(FileFault::OutOfMemory),
            },
        }
    }
}
