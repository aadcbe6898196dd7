//! Whether a layout is that of the process.
ghost use Rattle.std.specs.Prelude.{◌≡◌, ◌+◌, ◌*◌, ◌++◌, ◌∷◌, [], IfErr, IfOk, OnOk, length, map};
ghost use Rattle.std.specs.List.{list_any};
ghost use Rattle.process_memory.specs.Seen.{Reads, read_fault};
ghost use Rattle.process_memory.specs.declared.memory.ReadFault.TheVariants.{OutOfMemory};
ghost use Rattle.py_fields.specs.Sound.{IsSound};
ghost use Rattle.py_selftest.specs.Contents.{add_contents};
ghost use Rattle.py_selftest.specs.Checking.{Says, are_other, check_at, check_if, check_of, check_result, check_shown};
ghost use Rattle.py_selftest.specs.Checking.{described_at, differs, key_shown, key_told};
ghost use Rattle.py_selftest.specs.Checking.{keys_from, keys_result, lacks};
ghost use Rattle.py_selftest.specs.Checking.{trust_at, trust_of, unconfirmed, undescribed};
ghost use Rattle.py_selftest.specs.Checking.{undescribed_at, untried, verdict_of};
ghost use Rattle.py_selftest.specs.Rows.{row_of};

use crate::contents::{ContentsTold, add_contents, first_contents};
use crate::keys::{Key, key_name, number_in};
use crate::questions::{Answer, has_no_right_frame};
use crate::rows::{BuiltIn, Row, rows};
use crate::telling::{Release, Telling, Types, applies, kept, member_told, row_told};
use crate::trusting::{
    Build, Table, address_if, build_of, is_described, is_doubted, other_of, own_place, read_table,
    trusted,
};
use crate::walking::{ThreadPlace, meet};
use process_memory::{ProcessMemory, ReadFault};
use py_fields::Layout;
use std::alloc::Global;

/// How wide the number is that says how many bytes an instance has.
const SIZE_WIDTH: u64 = 8;

/// A number of a layout, beside what the process says.
#[derive(Drop)]
pub struct KeyTold {
    /// Its key.
    pub(crate) key: Key,
    /// The layout's number; none where the layout has no such key.
    pub layout: Option<u32>,
    /// The process's number; none where nothing tells it.
    pub process: Option<u64>,
    /// Whether a layout is confirmed only where this is told.
    pub needed: bool,
}

/// What is said of a layout.
#[derive(Clone, Copy, Debug, Drop, PartialEq, Eq)]
pub enum Verdict {
    /// Each number that is told is the layout's, and the needed ones are told.
    Agrees,
    /// One that is told is another one.
    Differs,
    /// None of at least eight frames that were met has a known answer that is right; or needed numbers are not told,
    /// and `type` says of itself what can't be.
    Doubtful,
    /// Needed numbers are not told.
    Silent,
    /// It is not known of this version what its types tell.
    NotDescribed,
}

/// A layout, beside what the process says.
#[derive(Drop)]
pub struct LayoutCheck {
    pub verdict: Verdict,
    /// The build, where it is none of the usual ones.
    pub build: Option<Build>,
    /// Of which version the process's own table says that it is, where that is none whose form is known.
    pub other_table: Option<Release>,
    /// How many frames were met whose code names a file, 8 at most.
    pub(crate) frames: u64,
    /// The known answers that were found, and which are right.
    pub(crate) known: Vec<Answer>,
    /// All numbers of a layout but sizes, in the order of a layout file.
    pub keys: Vec<KeyTold>,
}

impl KeyTold {
    /// Its key, as in a layout file: `frame.locals`.
    pub fn name(&self) -> &'static str
        ensures { result.now ≡ (key_shown self.now).name }
    {
        key_name(self.key)
    }
}

/// A row's number, beside what the process says.
fn key_told(layout: &Layout, release: Release, row: &Row, process: Option<u64>) -> KeyTold
    ensures { key_shown result ≡ key_told layout.now release (row_of row.now) process }
{
    KeyTold {
        key: row.key,
        layout: number_in(layout, row.key),
        process,
        needed: applies(row.needed, release),
    }
}

/// Adds a number.
fn add_key(keys: &mut Vec<KeyTold>, key: KeyTold) -> Result<(), ReadFault>
    ensures added { OnOk result (map key_shown keys.new.items ≡ map key_shown keys.old.items ++ key_shown key ∷ []) }
    ensures memory { IfErr result (λ error. error ≡ OutOfMemory) }
{
    match keys.push(key) {
        Ok(()) => Ok(()),
        Err(_) => Err(ReadFault::OutOfMemory),
    }
}

/// The numbers of some rows, beside what the process says. At most 1027 reads for each.
fn keys_told<P: ProcessMemory>(
    alloc: Global,
    process: &mut P,
    layout: &Layout,
    telling: &Telling,
    rows: &'static [Row],
) -> Result<Vec<KeyTold>, ReadFault>
    ensures { Reads read_fault (1027 * length rows.now) (P.seen process.old) (P.seen process.new)
        (λ m. keys_from m layout.now telling.now (map row_of rows.now)) (keys_result result) }
{
    let mut keys = Vec::new(alloc);
    for row in rows {
        let process_number = row_told(alloc, process, telling, row)?;
        add_key(
            &mut keys,
            key_told(layout, telling.release, row, process_number),
        )?;
    }
    Ok(keys)
}

/// Whether both are told, and are two numbers.
fn are_other(layout: Option<u32>, process: Option<u64>) -> bool
    ensures { result ≡ are_other layout process }
{
    match layout {
        None => false,
        Some(layout) => match process {
            None => false,
            Some(process) => layout as u64 != process,
        },
    }
}

/// Whether the process says another number than the layout.
pub(crate) fn differs(key: &KeyTold) -> bool
    ensures { result ≡ differs (key_shown key.now) }
{
    are_other(key.layout, key.process)
}

/// Whether it is needed and not told.
fn lacks(key: &KeyTold) -> bool
    ensures { result ≡ lacks (key_shown key.now) }
{
    key.needed && (key.layout.is_none() || key.process.is_none())
}

/// Whether the process says another number of some key.
fn any_differs(keys: &[KeyTold]) -> bool
    ensures { result ≡ list_any (λ key. differs (key_shown key)) keys.now }
{
    keys.iter().any(|key| differs(key))
}

/// Whether some key is needed and not told.
fn any_lacks(keys: &[KeyTold]) -> bool
    ensures { result ≡ list_any (λ key. lacks (key_shown key)) keys.now }
{
    keys.iter().any(|key| lacks(key))
}

/// What is said of a layout of which needed numbers are not told.
fn unconfirmed(doubted: bool) -> Verdict
    ensures { result ≡ unconfirmed doubted }
{
    if doubted {
        Verdict::Doubtful
    } else {
        Verdict::Silent
    }
}

/// What is said of a layout by its numbers, how many frames were met, and the known answers. `doubted` is whether
/// `type` says of itself what can't be.
fn verdict_of(doubted: bool, frames: u64, known: &[Answer], keys: &[KeyTold]) -> Verdict
    ensures { result ≡ verdict_of doubted frames known.now (map key_shown keys.now) }
{
    let differing = any_differs(keys);
    if differing {
        return Verdict::Differs;
    }
    let no_right = has_no_right_frame(frames, known);
    if no_right {
        return Verdict::Doubtful;
    }
    let lacking = any_lacks(keys);
    if lacking {
        return unconfirmed(doubted);
    }
    Verdict::Agrees
}

/// What tells the numbers of a process.
#[derive(Clone, Copy)]
struct Trust {
    telling: Telling,
    build: Option<Build>,
    other_table: Option<Release>,
    doubted: bool,
}

/// The types that may tell, before any of them has told something.
fn untried(types: &Types, release: Release, own: Option<u32>) -> Telling
    ensures { result ≡ untried types.now release own }
{
    Telling {
        types: *types,
        own,
        table: None,
        release,
    }
}

/// What tells the numbers, by what was read of `type` and of the table.
fn trust_of(
    types: &Types,
    runtime: Option<u64>,
    release: Release,
    own: Option<u32>,
    size: Option<u64>,
    table: Option<Table>,
) -> Trust
    ensures { result ≡ trust_of types.now runtime release own size table }
{
    Trust {
        telling: Telling {
            types: trusted(types, own, size),
            own,
            table: address_if(table, runtime),
            release,
        },
        build: build_of(release, own, table),
        other_table: other_of(table),
        doubted: is_doubted(own, size),
    }
}

/// What tells the numbers. At most 1030 reads.
fn read_trust<P: ProcessMemory>(
    alloc: Global,
    process: &mut P,
    types: &Types,
    runtime: Option<u64>,
    release: Release,
) -> Result<Trust, ReadFault>
    ensures { Reads read_fault 1030 (P.seen process.old) (P.seen process.new)
        (λ m. trust_at m types.now runtime release) result }
{
    let own = kept(own_place(process, types.metatype))?;
    let telling = untried(types, release, own);
    let size = kept(member_told(
        alloc,
        process,
        &telling,
        BuiltIn::Metatype,
        "__basicsize__",
        SIZE_WIDTH,
    ))?;
    let table = kept(read_table(process, release, runtime))?;
    Ok(trust_of(types, runtime, release, own, size, table))
}

/// A layout beside what is told, by the numbers, how many frames were met, and the known answers.
fn check_of(trust: &Trust, frames: u64, known: Vec<Answer>, keys: Vec<KeyTold>) -> LayoutCheck
    ensures { check_shown result ≡ check_of trust.now frames known.items (map key_shown keys.items) }
{
    LayoutCheck {
        verdict: verdict_of(trust.doubted, frames, &known, &keys),
        build: trust.build,
        other_table: trust.other_table,
        frames,
        known,
        keys,
    }
}

/// Some answers, and those of what modules have.
fn with_contents(known: Vec<Answer>, contents: &ContentsTold) -> Result<Vec<Answer>, ReadFault>
    ensures added { IfOk result (λ all. all.items ≡ add_contents known.items contents.now) }
    ensures memory { IfErr result (λ error. error ≡ OutOfMemory) }
{
    let mut all = known;
    add_contents(&mut all, contents)?;
    Ok(all)
}

/// A layout beside what a process of a version tells that is known. At most 129679 reads.
fn described_check<P: ProcessMemory>(
    alloc: Global,
    process: &mut P,
    layout: &Layout,
    types: &Types,
    runtime: Option<u64>,
    release: Release,
    pointers: &[u64],
    threads: &[ThreadPlace],
) -> Result<LayoutCheck, ReadFault>
    requires sound { IsSound layout.now }
    ensures { Reads read_fault 129679 (P.seen process.old) (P.seen process.new)
        (λ m. described_at m layout.now types.now runtime release pointers.now threads.now) (check_result result) }
{
    let met = meet(alloc, process, layout, release, types, pointers, threads)?;
    let contents = first_contents(alloc, process, layout, threads)?;
    let trust = read_trust(alloc, process, &met.types, runtime, release)?;
    let keys = keys_told(alloc, process, layout, &trust.telling, rows())?;
    let known = with_contents(met.answers, &contents)?;
    Ok(check_of(&trust, met.frames, known, keys))
}

/// What is told of a version of which it is not known what its types tell.
fn undescribed(alloc: Global, table: Option<Table>) -> LayoutCheck
    ensures { check_shown result ≡ undescribed table }
{
    LayoutCheck {
        verdict: Verdict::NotDescribed,
        build: None,
        other_table: other_of(table),
        frames: 0,
        known: Vec::new(alloc),
        keys: Vec::new(alloc),
    }
}

/// The same, where that is all that is read. At most 3 reads.
fn undescribed_check<P: ProcessMemory>(
    alloc: Global,
    process: &mut P,
    runtime: Option<u64>,
    release: Release,
) -> Result<LayoutCheck, ReadFault>
    ensures { Reads read_fault 3 (P.seen process.old) (P.seen process.new)
        (λ m. undescribed_at m runtime release) (check_result result) }
{
    let table = kept(read_table(process, release, runtime))?;
    Ok(undescribed(alloc, table))
}

/// The one or the other. At most 129679 reads.
fn check_if<P: ProcessMemory>(
    alloc: Global,
    process: &mut P,
    layout: &Layout,
    types: &Types,
    runtime: Option<u64>,
    release: Release,
    pointers: &[u64],
    threads: &[ThreadPlace],
    described: bool,
) -> Result<LayoutCheck, ReadFault>
    requires sound { IsSound layout.now }
    ensures { Reads read_fault 129679 (P.seen process.old) (P.seen process.new)
        (λ m. check_if m layout.now types.now runtime release pointers.now threads.now described)
        (check_result result) }
{
    if described {
        return described_check(
            alloc, process, layout, types, runtime, release, pointers, threads,
        );
    }
    undescribed_check(alloc, process, runtime, release)
}

/// A layout, beside what its process says of itself: of each number whether the process tells it, and which; and how
/// many known answers are right of those to which the layout's numbers lead.
///
/// `types` are the addresses of built-in types and `runtime` that of the runtime record (`_PyRuntime`), as the symbols
/// of the images have them; `release` is the version of the Python that ran; `pointers` are the thread pointers among
/// the registers, where they are known; `threads` are the threads of its interpreters, as the layout leads to them, of
/// which the first 64 are asked, and of each one's frames the newest 16.
///
/// A type tells where its members stand, and how many bytes an instance has, by the words at its own place
/// (`tp_members`, `tp_basicsize`); the types tell only where `type` names itself, 8 or 24 bytes from its address, and
/// says by its own member `__basicsize__` that this word stands where it is read. Types that no symbol names are the
/// classes of a frame, its code and what that holds, each by its own name alone. The table of 3.13 at the front of the
/// runtime record tells with its cookie and its version alone; another one with the cookie is told by the version that
/// it says, and nothing is read by it. A member of another width than the layout's reader reads tells nothing.
///
/// `Differs` comes where a number that is told is not the layout's; else `Doubtful` where at least eight frames were
/// met whose code names a file, and none has a right answer; else `Agrees` where the needed ones are told: those of
/// code, and before 3.11 those of frames; else `Doubtful` where `type` says that its word of a size stands elsewhere,
/// and `Silent` where not. `NotDescribed` comes for other versions than 2.7 and 3.6 to 3.13, with no numbers. Known
/// answers decide nothing else: a broken process fails some.
///
/// What is not in memory tells nothing and answers nothing: that is no error. The one error is out of memory. At most
/// 129679 reads.
pub fn check_layout<P: ProcessMemory>(
    alloc: Global,
    process: &mut P,
    layout: &Layout,
    types: &Types,
    runtime: Option<u64>,
    release: Release,
    pointers: &[u64],
    threads: &[ThreadPlace],
) -> Result<LayoutCheck, ReadFault>
    requires sound { IsSound layout.now }
    // each number that is told is the one that the words of the process's own types or of its own table name, and each
    // known answer is what the words say to which the layout leads
    ensures right { Reads read_fault 129679 (P.seen process.old) (P.seen process.new)
        (λ m. check_at m layout.now types.now runtime release pointers.now threads.now) (check_result result) }

    // where the answer is Agrees, each number of the layout that is told is the one in memory, the needed ones are
    // told, and of eight frames that were met one has an answer that is right; where it is Differs, the memory has
    // another number than the layout
    ensures says { IfOk result (λ check. Says (check_shown check)) }
{
    let described = is_described(release);
    check_if(
        alloc, process, layout, types, runtime, release, pointers, threads, described,
    )
}
