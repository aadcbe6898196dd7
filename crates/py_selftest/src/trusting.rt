//! What of a process may tell numbers: its types, if the table of `type` itself confirms where these have their words,
//! and the table of 3.13, if it has its cookie and this version's form.
ghost use Rattle.std.specs.Prelude.{◌≡◌};
ghost use Rattle.process_memory.specs.Seen.{Reads, read_fault};
ghost use Rattle.py_selftest.specs.Trusting.{address_if, build_of, has_form, is_confirmed};
ghost use Rattle.py_selftest.specs.Trusting.{is_described, is_doubted, other_of};
ghost use Rattle.py_selftest.specs.Trusting.{is_free, is_wide, release_by};
ghost use Rattle.py_selftest.specs.Trusting.{own_from, own_place_at, table_at, table_by, trusted};

use crate::telling::{Release, Types, is_before};
use process_memory::{ProcessMemory, ReadFault, word_past};

/// Where the type of an object stands in its record: in the usual builds, and where two words more stand before it.
const USUAL: u32 = 8;

const WIDE: u32 = 24;

/// The first 8 bytes of the table: `xdebugpy`.
const COOKIE: u64 = 0x7970_6775_6265_6478;

/// Where the table's version and whether the build has no lock stand.
const VERSION_AT: u64 = 8;

const FREE_AT: u64 = 16;

/// A build whose records are others.
#[derive(Clone, Copy, Debug, Drop, PartialEq, Eq)]
pub enum Build {
    /// Without the interpreter lock: from 3.13 on.
    FreeThreaded,
    /// With lists of all objects (`Py_TRACE_REFS`): up to 3.12.
    TraceRefs,
}

/// A table at the front of the runtime record.
#[derive(Clone, Copy)]
pub(crate) struct Table {
    /// Whether its form is known: that of 3.13.
    pub(crate) is_known: bool,
    /// The version that it says.
    pub(crate) version: u64,
    pub(crate) free_threaded: bool,
}

/// Whether it is known of a version what its types tell: of 2.7, and of 3.6 to 3.13.
#[tactic(auto, unfolding(crate::specs::Trusting::is_described))]
pub(crate) fn is_described(release: Release) -> bool
    ensures { result ≡ is_described release }
{
    if release.major == 2 {
        return release.minor == 7;
    }
    release.major == 3 && 6 <= release.minor && release.minor <= 13
}

/// Where `type` names its own type, which is itself. At most 2 reads.
pub(crate) fn own_place<P: ProcessMemory>(
    process: &mut P,
    metatype: Option<u64>,
) -> Result<Option<u32>, ReadFault>
    ensures { Reads read_fault 2 (P.seen process.old) (P.seen process.new)
        (λ m. own_place_at m metatype) result }
{
    match metatype {
        None => Ok(None),
        Some(metatype) => {
            let usual = word_past(process, metatype, USUAL as u64)?;
            let wide = word_past(process, metatype, WIDE as u64)?;
            Ok(own_from(metatype, usual, wide))
        }
    }
}

/// Where it does, by the two words.
fn own_from(metatype: u64, usual: u64, wide: u64) -> Option<u32>
    ensures { result ≡ own_from metatype usual wide }
{
    if usual == metatype {
        Some(USUAL)
    } else if wide == metatype {
        Some(WIDE)
    } else {
        None
    }
}

/// Whether `type` says that its word of a size stands where it is read.
fn is_confirmed(own: Option<u32>, size: Option<u64>) -> bool
    ensures { result ≡ is_confirmed own size }
{
    match own {
        None => false,
        Some(own) => match size {
            None => false,
            Some(size) => size == own as u64 + 24,
        },
    }
}

/// Whether it says that this stands elsewhere.
pub(crate) fn is_doubted(own: Option<u32>, size: Option<u64>) -> bool
    ensures { result ≡ is_doubted own size }
{
    size.is_some() && !is_confirmed(own, size)
}

/// The types that tell: all, or none where `type` confirms nothing.
pub(crate) fn trusted(types: &Types, own: Option<u32>, size: Option<u64>) -> Types
    ensures { result ≡ trusted types.now own size }
{
    if is_confirmed(own, size) {
        *types
    } else {
        Types {
            metatype: None,
            code: None,
            frame: None,
            text: None,
            tuple: None,
            bytes: None,
            long: None,
        }
    }
}

/// Whether a table of this version word is that of 3.13.
fn has_form(release: Release, version: u64) -> bool
    ensures { result ≡ has_form release version }
{
    release.major == 3 && release.minor == 13 && version / 65536 == 0x030d
}

/// A table, by its words.
fn table_by(release: Release, cookie: u64, version: u64, free: u64) -> Option<Table>
    ensures { result ≡ table_by release cookie version free }
{
    if cookie != COOKIE {
        return None;
    }
    Some(Table {
        is_known: has_form(release, version),
        version,
        free_threaded: free == 1,
    })
}

/// The table at the front of the runtime record, where there is one: it has the cookie. At most 3 reads.
pub(crate) fn read_table<P: ProcessMemory>(
    process: &mut P,
    release: Release,
    runtime: Option<u64>,
) -> Result<Option<Table>, ReadFault>
    ensures { Reads read_fault 3 (P.seen process.old) (P.seen process.new)
        (λ m. table_at m release runtime) result }
{
    match runtime {
        None => Ok(None),
        Some(runtime) => {
            let cookie = word_past(process, runtime, 0)?;
            let version = word_past(process, runtime, VERSION_AT)?;
            let free = word_past(process, runtime, FREE_AT)?;
            Ok(table_by(release, cookie, version, free))
        }
    }
}

/// The table's address, where its form is known.
pub(crate) fn address_if(table: Option<Table>, runtime: Option<u64>) -> Option<u64>
    ensures { result ≡ address_if table runtime }
{
    match table {
        Some(table) => { if table.is_known { runtime } else { None } }
        None => None,
    }
}

/// The first two numbers of a version word (`PY_VERSION_HEX`).
fn release_by(version: u64) -> Release
    ensures { result ≡ release_by version }
{
    Release {
        major: version / 0x100_0000,
        minor: version / 0x1_0000 % 0x100,
    }
}

/// Of which version a table says that it is, where its form is not known.
pub(crate) fn other_of(table: Option<Table>) -> Option<Release>
    ensures { result ≡ other_of table }
{
    match table {
        Some(table) => {
            if table.is_known {
                None
            } else {
                Some(release_by(table.version))
            }
        }
        None => None,
    }
}

/// Whether a table says that the build has no lock.
fn is_free(table: Option<Table>) -> bool
    ensures { result ≡ is_free table }
{
    match table {
        Some(table) => table.free_threaded,
        None => false,
    }
}

/// Whether a type names its own type two words behind the usual place.
fn is_wide(own: Option<u32>) -> bool
    ensures { result ≡ is_wide own }
{
    match own {
        Some(own) => own == WIDE,
        None => false,
    }
}

/// The build, where it is none of the usual ones.
pub(crate) fn build_of(release: Release, own: Option<u32>, table: Option<Table>) -> Option<Build>
    ensures { result ≡ build_of release own table }
{
    if is_free(table) {
        return Some(Build::FreeThreaded);
    }
    if !is_wide(own) {
        return None;
    }
    if is_before(release, 13) {
        Some(Build::TraceRefs)
    } else {
        Some(Build::FreeThreaded)
    }
}
