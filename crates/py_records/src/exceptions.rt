//! Exceptions, and where they are raised and handled.
ghost use Rattle.std.specs.Prelude.{◌≡◌, ◌↔◌, IsTrue, IfSome, option_map, codes, Some, None};
ghost use Rattle.toml.specs.View.{table_view};
ghost use Rattle.py_layout.specs.Values.{group_at};
ghost use Rattle.py_records.specs.Exceptions.{exception_places, IsSoundException, exception_in, os_error_places};
ghost use Rattle.py_records.specs.Exceptions.{IsSoundOsError, os_error_in, syntax_error_places, IsSoundSyntaxError};
ghost use Rattle.py_records.specs.Exceptions.{syntax_error_in, unicode_error_places, IsSoundUnicodeError};
ghost use Rattle.py_records.specs.Exceptions.{unicode_error_in, import_error_places, IsSoundImportError};
ghost use Rattle.py_records.specs.Exceptions.{import_error_in, exception_group_places, IsSoundExceptionGroup};
ghost use Rattle.py_records.specs.Exceptions.{exception_group_in, item_places, IsSoundItem, item_in};
ghost use Rattle.py_records.specs.Exceptions.{IsSoundItemParts, item_parts_in, IsSoundRaisedParts, raised_parts_in};
ghost use Rattle.py_records.specs.Exceptions.{IsSoundRaised, raised_in, IsSoundHandled, handled_in, exceptions_from};
ghost use Rattle.py_records.specs.Exceptions.{AreSoundExceptions, joined_exceptions, share_exceptions, no_exceptions};

use crate::places::{Place, any_both, are_plain, is_record};
use crate::values::{group_at, number_in};
use toml::Table;

/// An exception (`PyBaseExceptionObject`, Include/pyerrors.h).
#[derive(Clone, Copy)]
pub struct ExceptionRecord {
    /// Where the fields of a type begin that is based on it.
    pub size: u32,
    /// The address of its dict.
    pub dict: u32,
    /// The address of the tuple of its arguments.
    pub args: u32,
    /// The address of the first entry of its traceback.
    pub traceback: u32,
    /// The address of the exception that was handled when it was raised.
    pub context: u32,
    /// The address of the exception that it was raised from.
    pub cause: u32,
    /// Whether the context is not to be shown. It has 1 byte.
    pub suppress_context: u32,
}

/// An `OSError` (`PyOSErrorObject`, Include/pyerrors.h).
#[derive(Clone, Copy)]
pub struct OsErrorRecord {
    /// The basic size that its type states.
    pub size: u32,
    /// The address of the number.
    pub errno: u32,
    /// The address of the text.
    pub strerror: u32,
    /// The address of the first file's name.
    pub filename: u32,
    /// The address of the second file's name.
    pub filename2: u32,
}

/// A `SyntaxError` (`PySyntaxErrorObject`, Include/pyerrors.h).
#[derive(Clone, Copy)]
pub struct SyntaxErrorRecord {
    /// The basic size that its type states.
    pub size: u32,
    /// The address of the message.
    pub msg: u32,
    /// The address of the file's name.
    pub filename: u32,
    /// The address of the line's number.
    pub line: u32,
}

/// A `UnicodeError` (`PyUnicodeErrorObject`, Include/pyerrors.h).
#[derive(Clone, Copy)]
pub struct UnicodeErrorRecord {
    /// The basic size that its type states.
    pub size: u32,
    /// The address of the coding's name.
    pub encoding: u32,
    /// The address of what is coded.
    pub object: u32,
    /// Where the fault begins, a number.
    pub start: u32,
    /// Where it ends, a number.
    pub end: u32,
    /// The address of the reason.
    pub reason: u32,
}

/// An `ImportError` (`PyImportErrorObject`, Include/pyerrors.h).
#[derive(Clone, Copy)]
pub struct ImportErrorRecord {
    /// The basic size that its type states.
    pub size: u32,
    /// The address of the message.
    pub msg: u32,
    /// The address of the module's name.
    pub name: u32,
}

/// An `ExceptionGroup` (`PyBaseExceptionGroupObject`, Include/cpython/pyerrors.h).
#[derive(Clone, Copy)]
pub struct ExceptionGroupRecord {
    /// The basic size that its type states.
    pub size: u32,
    /// The address of the message.
    pub msg: u32,
    /// The address of the tuple of exceptions.
    pub excs: u32,
}

/// An exception that is handled (`_PyErr_StackItem`, Include/cpython/pystate.h).
#[derive(Clone, Copy)]
pub struct ItemRecord {
    pub size: u32,
    /// The address of the exception.
    pub value: u32,
    /// The address of the item before.
    pub previous: u32,
}

/// The same from 3.7 to 3.10 (`_PyErr_StackItem`, Include/pystate.h).
#[derive(Clone, Copy)]
pub struct ItemPartsRecord {
    /// The address of the exception's type.
    pub klass: u32,
    /// The address of its traceback.
    pub traceback: u32,
}

/// A thread up to 3.11 (`PyThreadState`, Include/pystate.h).
#[derive(Clone, Copy)]
pub struct RaisedPartsRecord {
    /// The address of the type of the exception that is raised.
    pub klass: u32,
    /// The address of its value.
    pub value: u32,
    /// The address of its traceback.
    pub traceback: u32,
}

/// A thread from 3.12 on (`PyThreadState`, Include/cpython/pystate.h).
#[derive(Clone, Copy)]
pub struct RaisedRecord {
    /// The address of the exception that is raised.
    pub exception: u32,
}

/// A thread from 3.7 on (`PyThreadState`, Include/pystate.h).
#[derive(Clone, Copy)]
pub struct HandledRecord {
    /// The address of the newest item.
    pub newest: u32,
    /// Where the oldest item begins, which stands inside.
    pub oldest: u32,
}

/// Exceptions, and where they are raised and handled. Each group is there or not.
#[derive(Clone, Copy)]
pub struct ExceptionRecords {
    pub exception: Option<ExceptionRecord>,
    pub os_error: Option<OsErrorRecord>,
    pub syntax_error: Option<SyntaxErrorRecord>,
    pub unicode_error: Option<UnicodeErrorRecord>,
    pub import_error: Option<ImportErrorRecord>,
    pub exception_group: Option<ExceptionGroupRecord>,
    pub item: Option<ItemRecord>,
    pub item_parts: Option<ItemPartsRecord>,
    pub raised_parts: Option<RaisedPartsRecord>,
    pub raised: Option<RaisedRecord>,
    pub handled: Option<HandledRecord>,
}

fn exception_from(table: &Table) -> Option<ExceptionRecord>
    ensures { result ≡ option_map exception_in (group_at (table_view table.now) (codes "exception")) }
{
    match group_at(table, "exception") {
        Some(group) => Some(ExceptionRecord {
            size: number_in(group, "size"),
            dict: number_in(group, "dict"),
            args: number_in(group, "args"),
            traceback: number_in(group, "traceback"),
            context: number_in(group, "context"),
            cause: number_in(group, "cause"),
            suppress_context: number_in(group, "suppress_context"),
        }),
        None => None,
    }
}

#[tactic(auto, unfolding(crate::specs::Exceptions::exception_places))]
fn exception_places(at: &ExceptionRecord) -> [Place; 6]
    ensures { result ≡ exception_places at.now }
{
    [
        (at.dict, 8),
        (at.args, 8),
        (at.traceback, 8),
        (at.context, 8),
        (at.cause, 8),
        (at.suppress_context, 1),
    ]
}

fn is_sound_exception(at: Option<ExceptionRecord>) -> bool
    ensures { IsTrue result ↔ IfSome at IsSoundException }
{
    match at {
        Some(at) => is_record(at.size, &exception_places(&at)),
        None => true,
    }
}

fn os_error_from(table: &Table) -> Option<OsErrorRecord>
    ensures { result ≡ option_map os_error_in (group_at (table_view table.now) (codes "os_error")) }
{
    match group_at(table, "os_error") {
        Some(group) => Some(OsErrorRecord {
            size: number_in(group, "size"),
            errno: number_in(group, "errno"),
            strerror: number_in(group, "strerror"),
            filename: number_in(group, "filename"),
            filename2: number_in(group, "filename2"),
        }),
        None => None,
    }
}

#[tactic(auto, unfolding(crate::specs::Exceptions::os_error_places))]
fn is_sound_os_error(at: Option<OsErrorRecord>) -> bool
    ensures { IsTrue result ↔ IfSome at IsSoundOsError }
{
    match at {
        Some(at) => is_record(
            at.size,
            &[
                (at.errno, 8),
                (at.strerror, 8),
                (at.filename, 8),
                (at.filename2, 8),
            ],
        ),
        None => true,
    }
}

fn syntax_error_from(table: &Table) -> Option<SyntaxErrorRecord>
    ensures { result ≡ option_map syntax_error_in (group_at (table_view table.now) (codes "syntax_error")) }
{
    match group_at(table, "syntax_error") {
        Some(group) => Some(SyntaxErrorRecord {
            size: number_in(group, "size"),
            msg: number_in(group, "msg"),
            filename: number_in(group, "filename"),
            line: number_in(group, "line"),
        }),
        None => None,
    }
}

#[tactic(auto, unfolding(crate::specs::Exceptions::syntax_error_places))]
fn is_sound_syntax_error(at: Option<SyntaxErrorRecord>) -> bool
    ensures { IsTrue result ↔ IfSome at IsSoundSyntaxError }
{
    match at {
        Some(at) => is_record(at.size, &[(at.msg, 8), (at.filename, 8), (at.line, 8)]),
        None => true,
    }
}

fn unicode_error_from(table: &Table) -> Option<UnicodeErrorRecord>
    ensures { result ≡ option_map unicode_error_in (group_at (table_view table.now) (codes "unicode_error")) }
{
    match group_at(table, "unicode_error") {
        Some(group) => Some(UnicodeErrorRecord {
            size: number_in(group, "size"),
            encoding: number_in(group, "encoding"),
            object: number_in(group, "object"),
            start: number_in(group, "start"),
            end: number_in(group, "end"),
            reason: number_in(group, "reason"),
        }),
        None => None,
    }
}

#[tactic(auto, unfolding(crate::specs::Exceptions::unicode_error_places))]
fn is_sound_unicode_error(at: Option<UnicodeErrorRecord>) -> bool
    ensures { IsTrue result ↔ IfSome at IsSoundUnicodeError }
{
    match at {
        Some(at) => is_record(
            at.size,
            &[
                (at.encoding, 8),
                (at.object, 8),
                (at.start, 8),
                (at.end, 8),
                (at.reason, 8),
            ],
        ),
        None => true,
    }
}

fn import_error_from(table: &Table) -> Option<ImportErrorRecord>
    ensures { result ≡ option_map import_error_in (group_at (table_view table.now) (codes "import_error")) }
{
    match group_at(table, "import_error") {
        Some(group) => Some(ImportErrorRecord {
            size: number_in(group, "size"),
            msg: number_in(group, "msg"),
            name: number_in(group, "name"),
        }),
        None => None,
    }
}

#[tactic(auto, unfolding(crate::specs::Exceptions::import_error_places))]
fn is_sound_import_error(at: Option<ImportErrorRecord>) -> bool
    ensures { IsTrue result ↔ IfSome at IsSoundImportError }
{
    match at {
        Some(at) => is_record(at.size, &[(at.msg, 8), (at.name, 8)]),
        None => true,
    }
}

fn exception_group_from(table: &Table) -> Option<ExceptionGroupRecord>
    ensures { result ≡ option_map exception_group_in (group_at (table_view table.now) (codes "exception_group")) }
{
    match group_at(table, "exception_group") {
        Some(group) => Some(ExceptionGroupRecord {
            size: number_in(group, "size"),
            msg: number_in(group, "msg"),
            excs: number_in(group, "excs"),
        }),
        None => None,
    }
}

#[tactic(auto, unfolding(crate::specs::Exceptions::exception_group_places))]
fn is_sound_exception_group(at: Option<ExceptionGroupRecord>) -> bool
    ensures { IsTrue result ↔ IfSome at IsSoundExceptionGroup }
{
    match at {
        Some(at) => is_record(at.size, &[(at.msg, 8), (at.excs, 8)]),
        None => true,
    }
}

fn item_from(table: &Table) -> Option<ItemRecord>
    ensures { result ≡ option_map item_in (group_at (table_view table.now) (codes "item")) }
{
    match group_at(table, "item") {
        Some(group) => Some(ItemRecord {
            size: number_in(group, "size"),
            value: number_in(group, "value"),
            previous: number_in(group, "previous"),
        }),
        None => None,
    }
}

#[tactic(auto, unfolding(crate::specs::Exceptions::item_places))]
fn is_sound_item(at: Option<ItemRecord>) -> bool
    ensures { IsTrue result ↔ IfSome at IsSoundItem }
{
    match at {
        Some(at) => is_record(at.size, &[(at.value, 8), (at.previous, 8)]),
        None => true,
    }
}

fn item_parts_from(table: &Table) -> Option<ItemPartsRecord>
    ensures { result ≡ option_map item_parts_in (group_at (table_view table.now) (codes "item_parts")) }
{
    match group_at(table, "item_parts") {
        Some(group) => Some(ItemPartsRecord {
            klass: number_in(group, "type"),
            traceback: number_in(group, "traceback"),
        }),
        None => None,
    }
}

fn is_sound_item_parts(at: Option<ItemPartsRecord>) -> bool
    ensures { IsTrue result ↔ IfSome at IsSoundItemParts }
{
    match at {
        Some(at) => are_plain(&[at.klass, at.traceback]),
        None => true,
    }
}

fn raised_parts_from(table: &Table) -> Option<RaisedPartsRecord>
    ensures { result ≡ option_map raised_parts_in (group_at (table_view table.now) (codes "raised_parts")) }
{
    match group_at(table, "raised_parts") {
        Some(group) => Some(RaisedPartsRecord {
            klass: number_in(group, "type"),
            value: number_in(group, "value"),
            traceback: number_in(group, "traceback"),
        }),
        None => None,
    }
}

fn is_sound_raised_parts(at: Option<RaisedPartsRecord>) -> bool
    ensures { IsTrue result ↔ IfSome at IsSoundRaisedParts }
{
    match at {
        Some(at) => are_plain(&[at.klass, at.value, at.traceback]),
        None => true,
    }
}

fn raised_from(table: &Table) -> Option<RaisedRecord>
    ensures { result ≡ option_map raised_in (group_at (table_view table.now) (codes "raised")) }
{
    match group_at(table, "raised") {
        Some(group) => Some(RaisedRecord {
            exception: number_in(group, "exception"),
        }),
        None => None,
    }
}

fn is_sound_raised(at: Option<RaisedRecord>) -> bool
    ensures { IsTrue result ↔ IfSome at IsSoundRaised }
{
    match at {
        Some(at) => are_plain(&[at.exception]),
        None => true,
    }
}

fn handled_from(table: &Table) -> Option<HandledRecord>
    ensures { result ≡ option_map handled_in (group_at (table_view table.now) (codes "handled")) }
{
    match group_at(table, "handled") {
        Some(group) => Some(HandledRecord {
            newest: number_in(group, "newest"),
            oldest: number_in(group, "oldest"),
        }),
        None => None,
    }
}

fn is_sound_handled(at: Option<HandledRecord>) -> bool
    ensures { IsTrue result ↔ IfSome at IsSoundHandled }
{
    match at {
        Some(at) => are_plain(&[at.newest, at.oldest]),
        None => true,
    }
}

/// The groups that a table says.
#[tactic(auto, unfolding(crate::specs::Exceptions::exceptions_from))]
pub fn exceptions_from(table: &Table) -> ExceptionRecords
    ensures { result ≡ exceptions_from (table_view table.now) }
{
    ExceptionRecords {
        exception: exception_from(table),
        os_error: os_error_from(table),
        syntax_error: syntax_error_from(table),
        unicode_error: unicode_error_from(table),
        import_error: import_error_from(table),
        exception_group: exception_group_from(table),
        item: item_from(table),
        item_parts: item_parts_from(table),
        raised_parts: raised_parts_from(table),
        raised: raised_from(table),
        handled: handled_from(table),
    }
}

/// Whether each group that is there is sound.
pub fn are_sound_exceptions(records: &ExceptionRecords) -> bool
    ensures { IsTrue result ↔ AreSoundExceptions records.now }
{
    is_sound_exception(records.exception)
        && is_sound_os_error(records.os_error)
        && is_sound_syntax_error(records.syntax_error)
        && is_sound_unicode_error(records.unicode_error)
        && is_sound_import_error(records.import_error)
        && is_sound_exception_group(records.exception_group)
        && is_sound_item(records.item)
        && is_sound_item_parts(records.item_parts)
        && is_sound_raised_parts(records.raised_parts)
        && is_sound_raised(records.raised)
        && is_sound_handled(records.handled)
}

/// No group is there.
pub fn no_exceptions() -> ExceptionRecords
    ensures { result ≡ no_exceptions }
{
    ExceptionRecords {
        exception: None,
        os_error: None,
        syntax_error: None,
        unicode_error: None,
        import_error: None,
        exception_group: None,
        item: None,
        item_parts: None,
        raised_parts: None,
        raised: None,
        handled: None,
    }
}

/// Each group of the first that is there, and else of the second.
#[tactic(auto, unfolding(crate::specs::Exceptions::joined_exceptions))]
pub fn joined_exceptions(one: &ExceptionRecords, other: &ExceptionRecords) -> ExceptionRecords
    ensures { result ≡ joined_exceptions one.now other.now }
{
    ExceptionRecords {
        exception: one.exception.or(other.exception),
        os_error: one.os_error.or(other.os_error),
        syntax_error: one.syntax_error.or(other.syntax_error),
        unicode_error: one.unicode_error.or(other.unicode_error),
        import_error: one.import_error.or(other.import_error),
        exception_group: one.exception_group.or(other.exception_group),
        item: one.item.or(other.item),
        item_parts: one.item_parts.or(other.item_parts),
        raised_parts: one.raised_parts.or(other.raised_parts),
        raised: one.raised.or(other.raised),
        handled: one.handled.or(other.handled),
    }
}

/// Whether a group is there in both.
#[tactic(auto, unfolding(crate::specs::Exceptions::share_exceptions))]
pub fn share_exceptions(one: &ExceptionRecords, other: &ExceptionRecords) -> bool
    ensures { result ≡ share_exceptions one.now other.now }
{
    any_both(
        &[
            one.exception.is_some(),
            one.os_error.is_some(),
            one.syntax_error.is_some(),
            one.unicode_error.is_some(),
            one.import_error.is_some(),
            one.exception_group.is_some(),
            one.item.is_some(),
            one.item_parts.is_some(),
            one.raised_parts.is_some(),
            one.raised.is_some(),
            one.handled.is_some(),
        ],
        &[
            other.exception.is_some(),
            other.os_error.is_some(),
            other.syntax_error.is_some(),
            other.unicode_error.is_some(),
            other.import_error.is_some(),
            other.exception_group.is_some(),
            other.item.is_some(),
            other.item_parts.is_some(),
            other.raised_parts.is_some(),
            other.raised.is_some(),
            other.handled.is_some(),
        ],
    )
}
