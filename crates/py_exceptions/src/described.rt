//! Where the parts of exceptions stand, by a layout and the records beside it.
ghost use Rattle.std.specs.Prelude.{◌≡◌, ◌+◌, ◌≤◌, ◌↔◌, IfSome, IsTrue};
ghost use Rattle.py_exceptions.specs.Described.{AreDescribed, AreWith, class_of, fields_of, inner_of};
ghost use Rattle.py_exceptions.specs.Described.{raised_traceback_of, traceback_of, with_thread};
ghost use Rattle.py_exceptions.specs.Places.{IsSoundTraceback};
ghost use Rattle.py_exceptions.specs.Sound.{IsDescribed};

use crate::entry::TracebackPlaces;
use crate::name::ClassPlaces;
use crate::rule::FieldPlaces;
use py_fields::Layout;
use py_records::{
    ExceptionRecords, FrameObjectRecord, HeapTypeRecord, KlassRecord, RaisedPartsRecord, Records,
    TracebackRecord,
};
use thread_exceptions::{Places, places_of as thread_places_of};

/// All that is known beforehand of where exceptions stand.
#[derive(Clone, Copy)]
pub struct Described {
    /// Where the parts of threads, items and exceptions stand.
    pub thread: Places,
    pub class: ClassPlaces,
    pub fields: FieldPlaces,
    pub traceback: TracebackPlaces,
    /// Where a thread names the traceback of what is raised, up to 3.11.
    pub raised_traceback: Option<u32>,
}

/// Where the parts of a class stand, by a layout and the records of classes.
pub fn class_of(layout: &Layout, klass: &KlassRecord, heap: &HeapTypeRecord) -> ClassPlaces
    ensures { result ≡ class_of layout.now klass.now heap.now }
{
    ClassPlaces {
        flags: layout.klass.flags,
        name: layout.klass.name,
        dict: klass.dict,
        qualname: heap.qualname,
        base: klass.base,
        to_str: klass.to_str,
    }
}

/// Where an object of a frame names the frame.
fn inner_of(at: Option<FrameObjectRecord>) -> Option<u32>
    ensures { result ≡ inner_of at }
{
    match at {
        Some(at) => Some(at.frame),
        None => None,
    }
}

/// Where the parts of a traceback's entry stand.
fn traceback_of(at: &TracebackRecord, inner: Option<u32>) -> TracebackPlaces
    ensures { result ≡ traceback_of at.now inner }
{
    TracebackPlaces {
        size: at.size,
        next: at.next,
        frame: at.frame,
        lasti: at.lasti,
        line: at.line,
        inner,
    }
}

/// Where a thread names a traceback.
fn raised_traceback_of(at: Option<RaisedPartsRecord>) -> Option<u32>
    ensures { result ≡ raised_traceback_of at }
{
    match at {
        Some(at) => Some(at.traceback),
        None => None,
    }
}

/// Where exceptions of some classes have fields of their own; none where one of these is not described.
fn fields_of(records: &ExceptionRecords) -> Option<FieldPlaces>
    ensures { result ≡ fields_of records.now }
{
    let system = records.os_error?;
    let import = records.import_error?;
    let syntax = records.syntax_error?;
    Some(FieldPlaces {
        system,
        import,
        syntax,
        group: records.exception_group,
        unicode: records.unicode_error,
    })
}

/// Whether so many bytes at a place lie in a record.
fn lies(place: u32, len: u32, size: u32) -> bool
    ensures { IsTrue result ↔ place + len ≤ size }
{
    place as u64 + len as u64 <= size as u64
}

/// Whether what is read of the record of a traceback's entry lies inside it, and it has fewer than 65536 bytes.
fn is_sound_traceback(at: &TracebackPlaces) -> bool
    ensures { IsTrue result ↔ IsSoundTraceback at.now }
{
    at.size < 65536
        && lies(at.frame, 8, at.size)
        && lies(at.lasti, 4, at.size)
        && lies(at.line, 4, at.size)
}

/// The places as they are described, with those of threads.
#[tactic(auto, unfolding(crate::specs::Described::with_thread))]
fn with_thread(layout: &Layout, records: &Records, thread: &Places) -> Option<Described>
    ensures is { result ≡ with_thread layout.now records.now thread.now }
    ensures thread { IfSome result (λ places. places.thread ≡ thread.now) }
{
    let klass = records.types.klass?;
    let heap = records.types.heap_type?;
    let traceback = records.frames.traceback?;
    let fields = fields_of(&records.exceptions)?;
    Some(Described {
        thread: *thread,
        class: class_of(layout, &klass, &heap),
        fields,
        traceback: traceback_of(&traceback, inner_of(records.frames.frame_object)),
        raised_traceback: raised_traceback_of(records.exceptions.raised_parts),
    })
}

/// The same, where what is read of a traceback's entry lies inside its record.
fn sound_with(layout: &Layout, records: &Records, thread: &Places) -> Option<Described>
    ensures are { AreWith layout.now records.now thread.now result }
    ensures thread { IfSome result (λ places. places.thread ≡ thread.now) }
{
    let places = with_thread(layout, records, thread)?;
    let is = is_sound_traceback(&places.traceback);
    if is { Some(places) } else { None }
}

/// Where the parts of exceptions stand, by a layout and the records of its version; none where a group that is needed
/// is not described, or what is read of a record would not lie inside it.
///
/// The groups are those of `thread_exceptions::places_of`, and `heap_type`, `traceback`, `os_error`, `import_error` and
/// `syntax_error`; from 3.11 on `frame_object`. With `exception_group` what groups say is told, and with
/// `unicode_error` what the errors of Unicode's say.
pub fn places_of(layout: &Layout, records: &Records) -> Option<Described>
    ensures are { AreDescribed layout.now records.now result }
    ensures sound { IfSome result IsDescribed }
{
    let thread = thread_places_of(layout, records)?;
    sound_with(layout, records, &thread)
}
