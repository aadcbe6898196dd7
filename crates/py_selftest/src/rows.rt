//! Which numbers of a layout a process tells itself, and where.
ghost use Rattle.std.specs.Prelude.{◌≡◌, map};
ghost use Rattle.py_selftest.specs.Rows.{row_of, the_rows};

use crate::keys::{FreeKey, Key, ObjectKey, RecordKey};

/// A built-in type.
#[derive(Clone, Copy)]
pub(crate) enum BuiltIn {
    Metatype,
    Code,
    Frame,
    Tuple,
    Bytes,
    Long,
}

/// At which versions something is told, or has to be.
#[derive(Clone, Copy)]
pub(crate) enum When {
    Never,
    Always,
    /// Before 3.11.
    BeforeEleven,
    /// From 3.11 on.
    FromEleven,
}

/// What of the types tells a number.
#[derive(Clone, Copy)]
pub(crate) enum Source {
    Nothing,
    /// Where the member of this name stands, by the type's own members.
    Member(BuiltIn, &'static str),
    /// Where the member of code stands that is its line table.
    LineTable,
    /// How many bytes an instance has, less so many.
    BasicSize(BuiltIn, u64, When),
    /// Where the type of a type stands in its record.
    OwnPlace,
}

/// What of the table of 3.13 tells a number (`_Py_DebugOffsets`): where its word stands, in bytes.
#[derive(Clone, Copy)]
pub(crate) enum Entry {
    Absent,
    At(u64),
    /// The word, less that of another one: the table counts both from the same record.
    Behind(u64, u64),
}

/// A number of a layout, and what tells it.
#[derive(Drop)]
pub(crate) struct Row {
    pub(crate) key: Key,
    /// How many bytes a layout's reader reads there, where that is known.
    pub(crate) width: u64,
    /// The table's word, which comes first.
    pub(crate) entry: Entry,
    pub(crate) source: Source,
    /// At which versions it has to be told, so that a layout is confirmed.
    pub(crate) needed: When,
}

use BuiltIn::{Bytes, Code, Frame, Long, Metatype, Tuple};
use Entry::{Absent, At, Behind};
use Key::{Free, Object, Record};
use Source::{BasicSize, LineTable, Member, Nothing, OwnPlace};
use When::{Always, BeforeEleven, FromEleven, Never};

/// A list of rows: in each line the key, its width, the table's word, the source, and when it is needed.
macro_rules! rows {
    ($($key:expr, $width:expr, $entry:expr, $source:expr, $needed:expr;)*) => {
        [$(Row {
            key: $key,
            width: $width,
            entry: $entry,
            source: $source,
            needed: $needed,
        }),*]
    };
}

/// All numbers of a layout but sizes, in the order of a layout file.
static ROWS: [Row; 56] = rows! {
    Record(RecordKey::InterpreterThreads), 8, At(72), Nothing, Never;
    Record(RecordKey::InterpreterModules), 8, At(88), Nothing, Never;
    Record(RecordKey::InterpreterGil), 8, At(112), Nothing, Never;
    Record(RecordKey::ThreadNext), 8, At(168), Nothing, Never;
    Record(RecordKey::ThreadInterp), 8, At(176), Nothing, Never;
    Record(RecordKey::ThreadId), 8, At(192), Nothing, Never;
    Record(RecordKey::ThreadFrame), 8, At(184), Nothing, Never;
    Record(RecordKey::ThreadNativeId), 8, At(200), Nothing, Never;
    Free(FreeKey::CframeCurrent), 8, Absent, Nothing, Never;
    Record(RecordKey::FrameCode), 8, At(240), Member(Frame, "f_code"), BeforeEleven;
    Record(RecordKey::FrameBack), 8, At(232), Member(Frame, "f_back"), BeforeEleven;
    Record(RecordKey::FrameInstr), 4, At(248), Member(Frame, "f_lasti"), Never;
    Record(RecordKey::FrameEntry), 8, Absent, Nothing, Never;
    Record(RecordKey::FrameLocals), 8, At(256), BasicSize(Frame, 8, BeforeEleven), BeforeEleven;
    Record(RecordKey::FrameCodeTagBits), 8, Absent, Nothing, Never;
    Record(RecordKey::CodeArgcount), 4, At(320), Member(Code, "co_argcount"), Always;
    Record(RecordKey::CodeNlocals), 4, Absent, Member(Code, "co_nlocals"), Always;
    Record(RecordKey::CodeFirstLine), 4, At(312), Member(Code, "co_firstlineno"), Always;
    Record(RecordKey::CodeFilename), 8, At(280), Member(Code, "co_filename"), Always;
    Record(RecordKey::CodeName), 8, At(288), Member(Code, "co_name"), Always;
    Record(RecordKey::CodeTable), 8, At(304), LineTable, Always;
    Record(RecordKey::CodeVarnames), 8, At(328), Member(Code, "co_varnames"), Never;
    Record(RecordKey::CodeStart), 8, At(344), BasicSize(Code, 0, FromEleven), Never;
    Object(ObjectKey::StringLength), 8, At(552), Nothing, Never;
    Object(ObjectKey::StringState), 8, At(544), Nothing, Never;
    Object(ObjectKey::StringPointer), 8, Absent, Nothing, Never;
    Object(ObjectKey::StringShortAt), 8, At(560), Nothing, Never;
    Object(ObjectKey::StringLongAt), 8, Absent, Nothing, Never;
    Object(ObjectKey::StringKindShift), 8, Absent, Nothing, Never;
    Object(ObjectKey::StringCompactBit), 8, Absent, Nothing, Never;
    Object(ObjectKey::StringAsciiBit), 8, Absent, Nothing, Never;
    Object(ObjectKey::BytesLength), 8, At(520), Nothing, Never;
    Object(ObjectKey::BytesAt), 8, At(528), BasicSize(Bytes, 1, Always), Never;
    Object(ObjectKey::TupleCount), 8, At(416), Nothing, Never;
    Object(ObjectKey::TupleAt), 8, At(408), BasicSize(Tuple, 0, Always), Never;
    Object(ObjectKey::ListCount), 8, At(440), Nothing, Never;
    Object(ObjectKey::ListItems), 8, At(432), Nothing, Never;
    Object(ObjectKey::ObjectKlass), 8, At(360), OwnPlace, Never;
    Object(ObjectKey::KlassName), 8, At(376), Nothing, Never;
    Object(ObjectKey::KlassFlags), 8, At(392), Member(Metatype, "__flags__"), Never;
    Object(ObjectKey::KlassDictOffset), 8, Absent, Member(Metatype, "__dictoffset__"), Never;
    Object(ObjectKey::LongCount), 8, At(496), Nothing, Never;
    Object(ObjectKey::LongDigits), 8, At(504), BasicSize(Long, 0, Always), Never;
    Object(ObjectKey::SmallValue), 8, Absent, Nothing, Never;
    Object(ObjectKey::FloatValue), 8, At(480), Nothing, Never;
    Free(FreeKey::DictKeys), 8, At(456), Nothing, Never;
    Free(FreeKey::DictValues), 8, At(464), Nothing, Never;
    Free(FreeKey::KeysUsed), 8, Absent, Nothing, Never;
    Free(FreeKey::KeysSlots), 8, Absent, Nothing, Never;
    Free(FreeKey::KeysLog2), 8, Absent, Nothing, Never;
    Free(FreeKey::KeysKind), 8, Absent, Nothing, Never;
    Free(FreeKey::HeapCachedKeys), 8, Absent, Nothing, Never;
    Free(FreeKey::HeapInline), 8, Absent, Nothing, Never;
    Free(FreeKey::GilLocked), 8, Behind(136, 120), Nothing, Never;
    Free(FreeKey::GilHolder), 8, Behind(144, 120), Nothing, Never;
    Free(FreeKey::OffsetsHead), 8, Absent, Nothing, Never;
};

/// All numbers of a layout but sizes, in the order of a layout file.
#[tactic(auto, unfolding(crate::specs::Rows::the_rows))]
pub(crate) fn rows() -> &'static [Row]
    ensures { map row_of result.now ≡ the_rows }
{
    &ROWS
}
