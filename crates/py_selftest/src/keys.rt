//! The numbers of a layout, by their keys. Sizes are none of them: they are made of the others.
ghost use Rattle.std.specs.Prelude.{◌≡◌};
ghost use Rattle.py_selftest.specs.Keys.{free_name, free_number, key_name, number_in, object_name, object_number};
ghost use Rattle.py_selftest.specs.Keys.{record_name, record_number};

use py_fields::Layout;

/// A number of the interpreter's records, of a frame or of code.
#[derive(Clone, Copy)]
pub(crate) enum RecordKey {
    InterpreterThreads,
    InterpreterModules,
    InterpreterGil,
    ThreadNext,
    ThreadInterp,
    ThreadId,
    ThreadFrame,
    ThreadNativeId,
    FrameCode,
    FrameBack,
    FrameInstr,
    FrameEntry,
    FrameLocals,
    FrameCodeTagBits,
    CodeArgcount,
    CodeNlocals,
    CodeFirstLine,
    CodeFilename,
    CodeName,
    CodeTable,
    CodeVarnames,
    CodeStart,
}

/// A number of an object.
#[derive(Clone, Copy)]
pub(crate) enum ObjectKey {
    StringLength,
    StringState,
    StringPointer,
    StringShortAt,
    StringLongAt,
    StringKindShift,
    StringCompactBit,
    StringAsciiBit,
    BytesLength,
    BytesAt,
    TupleCount,
    TupleAt,
    ListCount,
    ListItems,
    ObjectKlass,
    KlassName,
    KlassFlags,
    KlassDictOffset,
    LongCount,
    LongDigits,
    SmallValue,
    FloatValue,
}

/// A number of a record that not each layout has.
#[derive(Clone, Copy)]
pub(crate) enum FreeKey {
    CframeCurrent,
    DictKeys,
    DictValues,
    KeysUsed,
    KeysLog2,
    KeysKind,
    KeysSlots,
    HeapCachedKeys,
    HeapInline,
    GilLocked,
    GilHolder,
    OffsetsHead,
}

/// A number of a layout.
#[derive(Clone, Copy)]
pub(crate) enum Key {
    Record(RecordKey),
    Object(ObjectKey),
    Free(FreeKey),
}

fn record_number(layout: &Layout, key: RecordKey) -> Option<u32>
    ensures { result ≡ record_number layout.now key }
{
    match key {
        RecordKey::InterpreterThreads => Some(layout.interpreter.threads),
        RecordKey::InterpreterModules => Some(layout.interpreter.modules),
        RecordKey::InterpreterGil => layout.interpreter.gil,
        RecordKey::ThreadNext => Some(layout.thread.next),
        RecordKey::ThreadInterp => Some(layout.thread.interp),
        RecordKey::ThreadId => Some(layout.thread.id),
        RecordKey::ThreadFrame => Some(layout.thread.frame),
        RecordKey::ThreadNativeId => layout.thread.native_id,
        RecordKey::FrameCode => Some(layout.frame.code),
        RecordKey::FrameBack => Some(layout.frame.back),
        RecordKey::FrameInstr => Some(layout.frame.instr),
        RecordKey::FrameEntry => layout.frame.entry,
        RecordKey::FrameLocals => Some(layout.frame.locals),
        RecordKey::FrameCodeTagBits => Some(layout.frame.code_tag_bits),
        RecordKey::CodeArgcount => Some(layout.code.argcount),
        RecordKey::CodeNlocals => Some(layout.code.nlocals),
        RecordKey::CodeFirstLine => Some(layout.code.first_line),
        RecordKey::CodeFilename => Some(layout.code.filename),
        RecordKey::CodeName => Some(layout.code.name),
        RecordKey::CodeTable => Some(layout.code.table),
        RecordKey::CodeVarnames => Some(layout.code.varnames),
        RecordKey::CodeStart => layout.code.start,
    }
}

fn object_number(layout: &Layout, key: ObjectKey) -> Option<u32>
    ensures { result ≡ object_number layout.now key }
{
    match key {
        ObjectKey::StringLength => Some(layout.string.length),
        ObjectKey::StringState => layout.string.state,
        ObjectKey::StringPointer => layout.string.pointer,
        ObjectKey::StringShortAt => Some(layout.string.short_at),
        ObjectKey::StringLongAt => layout.string.long_at,
        ObjectKey::StringKindShift => layout.string.kind_shift,
        ObjectKey::StringCompactBit => layout.string.compact_bit,
        ObjectKey::StringAsciiBit => layout.string.ascii_bit,
        ObjectKey::BytesLength => Some(layout.bytes.length),
        ObjectKey::BytesAt => Some(layout.bytes.at),
        ObjectKey::TupleCount => Some(layout.tuple.count),
        ObjectKey::TupleAt => Some(layout.tuple.at),
        ObjectKey::ListCount => Some(layout.list.count),
        ObjectKey::ListItems => Some(layout.list.items),
        ObjectKey::ObjectKlass => Some(layout.object.klass),
        ObjectKey::KlassName => Some(layout.klass.name),
        ObjectKey::KlassFlags => Some(layout.klass.flags),
        ObjectKey::KlassDictOffset => Some(layout.klass.dict_offset),
        ObjectKey::LongCount => Some(layout.long.count),
        ObjectKey::LongDigits => Some(layout.long.digits),
        ObjectKey::SmallValue => Some(layout.small.value),
        ObjectKey::FloatValue => Some(layout.float.value),
    }
}

/// A number of a record, where a layout has that.
macro_rules! part {
    ($record:expr, $field:ident) => {
        match $record {
            Some(at) => Some(at.$field),
            None => None,
        }
    };
}

/// The same of a number that is not always there.
macro_rules! part_in {
    ($record:expr, $field:ident) => {
        match $record {
            Some(at) => at.$field,
            None => None,
        }
    };
}

fn free_number(layout: &Layout, key: FreeKey) -> Option<u32>
    ensures { result ≡ free_number layout.now key }
{
    match key {
        FreeKey::CframeCurrent => part!(layout.cframe, current),
        FreeKey::DictKeys => part!(layout.dict, keys),
        FreeKey::DictValues => part!(layout.dict, values),
        FreeKey::KeysUsed => part!(layout.keys, used),
        FreeKey::KeysLog2 => part_in!(layout.keys, log2),
        FreeKey::KeysKind => part_in!(layout.keys, kind),
        FreeKey::KeysSlots => part_in!(layout.keys, slots),
        FreeKey::HeapCachedKeys => part!(layout.heap, cached_keys),
        FreeKey::HeapInline => part!(layout.heap, inline),
        FreeKey::GilLocked => part!(layout.gil, locked),
        FreeKey::GilHolder => part!(layout.gil, holder),
        FreeKey::OffsetsHead => part!(layout.offsets, head),
    }
}

/// The number that a layout has for a key; none where the layout has no such key.
pub(crate) fn number_in(layout: &Layout, key: Key) -> Option<u32>
    ensures { result ≡ number_in layout.now key }
{
    match key {
        Key::Record(key) => record_number(layout, key),
        Key::Object(key) => object_number(layout, key),
        Key::Free(key) => free_number(layout, key),
    }
}

/// Its name in a layout file.
fn record_name(key: RecordKey) -> &'static str
    ensures { result.now ≡ record_name key }
{
    match key {
        RecordKey::InterpreterThreads => "interpreter.threads",
        RecordKey::InterpreterModules => "interpreter.modules",
        RecordKey::InterpreterGil => "interpreter.gil",
        RecordKey::ThreadNext => "thread.next",
        RecordKey::ThreadInterp => "thread.interp",
        RecordKey::ThreadId => "thread.id",
        RecordKey::ThreadFrame => "thread.frame",
        RecordKey::ThreadNativeId => "thread.native_id",
        RecordKey::FrameCode => "frame.code",
        RecordKey::FrameBack => "frame.back",
        RecordKey::FrameInstr => "frame.instr",
        RecordKey::FrameEntry => "frame.entry",
        RecordKey::FrameLocals => "frame.locals",
        RecordKey::FrameCodeTagBits => "frame.code_tag_bits",
        RecordKey::CodeArgcount => "code.argcount",
        RecordKey::CodeNlocals => "code.nlocals",
        RecordKey::CodeFirstLine => "code.first_line",
        RecordKey::CodeFilename => "code.filename",
        RecordKey::CodeName => "code.name",
        RecordKey::CodeTable => "code.table",
        RecordKey::CodeVarnames => "code.varnames",
        RecordKey::CodeStart => "code.start",
    }
}

/// Its name in a layout file.
fn object_name(key: ObjectKey) -> &'static str
    ensures { result.now ≡ object_name key }
{
    match key {
        ObjectKey::StringLength => "string.length",
        ObjectKey::StringState => "string.state",
        ObjectKey::StringPointer => "string.pointer",
        ObjectKey::StringShortAt => "string.short_at",
        ObjectKey::StringLongAt => "string.long_at",
        ObjectKey::StringKindShift => "string.kind_shift",
        ObjectKey::StringCompactBit => "string.compact_bit",
        ObjectKey::StringAsciiBit => "string.ascii_bit",
        ObjectKey::BytesLength => "bytes.length",
        ObjectKey::BytesAt => "bytes.at",
        ObjectKey::TupleCount => "tuple.count",
        ObjectKey::TupleAt => "tuple.at",
        ObjectKey::ListCount => "list.count",
        ObjectKey::ListItems => "list.items",
        ObjectKey::ObjectKlass => "object.klass",
        ObjectKey::KlassName => "klass.name",
        ObjectKey::KlassFlags => "klass.flags",
        ObjectKey::KlassDictOffset => "klass.dict_offset",
        ObjectKey::LongCount => "long.count",
        ObjectKey::LongDigits => "long.digits",
        ObjectKey::SmallValue => "small.value",
        ObjectKey::FloatValue => "float.value",
    }
}

/// Its name in a layout file.
fn free_name(key: FreeKey) -> &'static str
    ensures { result.now ≡ free_name key }
{
    match key {
        FreeKey::CframeCurrent => "cframe.current",
        FreeKey::DictKeys => "dict.keys",
        FreeKey::DictValues => "dict.values",
        FreeKey::KeysUsed => "keys.used",
        FreeKey::KeysSlots => "keys.slots",
        FreeKey::KeysLog2 => "keys.log2",
        FreeKey::KeysKind => "keys.kind",
        FreeKey::HeapCachedKeys => "heap.cached_keys",
        FreeKey::HeapInline => "heap.inline",
        FreeKey::GilLocked => "gil.locked",
        FreeKey::GilHolder => "gil.holder",
        FreeKey::OffsetsHead => "offsets.head",
    }
}

/// The name of a number in a layout file: `frame.locals`.
pub(crate) fn key_name(key: Key) -> &'static str
    ensures { result.now ≡ key_name key }
{
    match key {
        Key::Record(key) => record_name(key),
        Key::Object(key) => object_name(key),
        Key::Free(key) => free_name(key),
    }
}
