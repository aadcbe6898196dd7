//! The layout that a table without flaw says.
ghost use Rattle.std.specs.Prelude.{◌≡◌, cond, is_some, Some, None, codes};
ghost use Rattle.toml.specs.View.{table_view};
ghost use Rattle.py_layout.specs.Reading.{interpreter_from, thread_from, cframe_from, frame_from, code_from};
ghost use Rattle.py_layout.specs.Reading.{string_from, bytes_from, tuple_from, list_from, object_from, klass_from};
ghost use Rattle.py_layout.specs.Reading.{long_from, value_from, dict_from, keys_from, heap_from, gil_from};
ghost use Rattle.py_layout.specs.Reading.{offsets_from, has_group, layout_from};
ghost use Rattle.py_layout.specs.Words.{families_of};

use crate::families::families_of;
use crate::values::{group_at, number_at, optional_at, truth_at};
use py_fields::{
    BytesAt, CframeAt, CodeAt, DictAt, FrameAt, GilAt, HeapAt, InterpreterAt, KeysAt, KlassAt,
    Layout, ListAt, LongAt, ObjectAt, OffsetsAt, StringAt, ThreadAt, TupleAt, ValueAt,
};
use toml::Table;

fn interpreter_from(table: &Table) -> InterpreterAt
    ensures { result ≡ interpreter_from (table_view table.now) }
{
    InterpreterAt {
        threads: number_at(table, Some("interpreter"), "threads"),
        modules: number_at(table, Some("interpreter"), "modules"),
        gil: optional_at(table, Some("interpreter"), "gil"),
    }
}

fn thread_from(table: &Table) -> ThreadAt
    ensures { result ≡ thread_from (table_view table.now) }
{
    ThreadAt {
        size: number_at(table, Some("thread"), "size"),
        next: number_at(table, Some("thread"), "next"),
        interp: number_at(table, Some("thread"), "interp"),
        id: number_at(table, Some("thread"), "id"),
        frame: number_at(table, Some("thread"), "frame"),
        native_id: optional_at(table, Some("thread"), "native_id"),
    }
}

fn cframe_from(table: &Table) -> CframeAt
    ensures { result ≡ cframe_from (table_view table.now) }
{
    CframeAt {
        current: number_at(table, Some("cframe"), "current"),
    }
}

fn frame_from(table: &Table) -> FrameAt
    ensures { result ≡ frame_from (table_view table.now) }
{
    FrameAt {
        size: number_at(table, Some("frame"), "size"),
        code: number_at(table, Some("frame"), "code"),
        back: number_at(table, Some("frame"), "back"),
        instr: number_at(table, Some("frame"), "instr"),
        entry: optional_at(table, Some("frame"), "entry"),
        locals: number_at(table, Some("frame"), "locals"),
        code_tag_bits: number_at(table, Some("frame"), "code_tag_bits"),
    }
}

fn code_from(table: &Table) -> CodeAt
    ensures { result ≡ code_from (table_view table.now) }
{
    CodeAt {
        size: number_at(table, Some("code"), "size"),
        argcount: number_at(table, Some("code"), "argcount"),
        nlocals: number_at(table, Some("code"), "nlocals"),
        first_line: number_at(table, Some("code"), "first_line"),
        filename: number_at(table, Some("code"), "filename"),
        name: number_at(table, Some("code"), "name"),
        table: number_at(table, Some("code"), "table"),
        varnames: number_at(table, Some("code"), "varnames"),
        start: optional_at(table, Some("code"), "start"),
    }
}

fn string_from(table: &Table) -> StringAt
    ensures { result ≡ string_from (table_view table.now) }
{
    StringAt {
        size: number_at(table, Some("string"), "size"),
        length: number_at(table, Some("string"), "length"),
        state: optional_at(table, Some("string"), "state"),
        pointer: optional_at(table, Some("string"), "pointer"),
        short_at: number_at(table, Some("string"), "short_at"),
        long_at: optional_at(table, Some("string"), "long_at"),
        kind_shift: optional_at(table, Some("string"), "kind_shift"),
        compact_bit: optional_at(table, Some("string"), "compact_bit"),
        ascii_bit: optional_at(table, Some("string"), "ascii_bit"),
    }
}

fn bytes_from(table: &Table) -> BytesAt
    ensures { result ≡ bytes_from (table_view table.now) }
{
    BytesAt {
        size: number_at(table, Some("bytes"), "size"),
        length: number_at(table, Some("bytes"), "length"),
        at: number_at(table, Some("bytes"), "at"),
    }
}

fn tuple_from(table: &Table) -> TupleAt
    ensures { result ≡ tuple_from (table_view table.now) }
{
    TupleAt {
        size: number_at(table, Some("tuple"), "size"),
        count: number_at(table, Some("tuple"), "count"),
        at: number_at(table, Some("tuple"), "at"),
    }
}

fn list_from(table: &Table) -> ListAt
    ensures { result ≡ list_from (table_view table.now) }
{
    ListAt {
        size: number_at(table, Some("list"), "size"),
        count: number_at(table, Some("list"), "count"),
        items: number_at(table, Some("list"), "items"),
    }
}

fn object_from(table: &Table) -> ObjectAt
    ensures { result ≡ object_from (table_view table.now) }
{
    ObjectAt {
        size: number_at(table, Some("object"), "size"),
        klass: number_at(table, Some("object"), "klass"),
    }
}

fn klass_from(table: &Table) -> KlassAt
    ensures { result ≡ klass_from (table_view table.now) }
{
    KlassAt {
        size: number_at(table, Some("klass"), "size"),
        name: number_at(table, Some("klass"), "name"),
        flags: number_at(table, Some("klass"), "flags"),
        dict_offset: number_at(table, Some("klass"), "dict_offset"),
    }
}

fn long_from(table: &Table) -> LongAt
    ensures { result ≡ long_from (table_view table.now) }
{
    LongAt {
        size: number_at(table, Some("long"), "size"),
        count: number_at(table, Some("long"), "count"),
        digits: number_at(table, Some("long"), "digits"),
    }
}

fn value_from(table: &Table, group: &str) -> ValueAt
    ensures { result ≡ value_from (table_view table.now) group.now }
{
    ValueAt {
        size: number_at(table, Some(group), "size"),
        value: number_at(table, Some(group), "value"),
    }
}

fn dict_from(table: &Table) -> DictAt
    ensures { result ≡ dict_from (table_view table.now) }
{
    DictAt {
        size: number_at(table, Some("dict"), "size"),
        keys: number_at(table, Some("dict"), "keys"),
        values: number_at(table, Some("dict"), "values"),
    }
}

fn keys_from(table: &Table) -> KeysAt
    ensures { result ≡ keys_from (table_view table.now) }
{
    KeysAt {
        size: number_at(table, Some("keys"), "size"),
        used: number_at(table, Some("keys"), "used"),
        slots: optional_at(table, Some("keys"), "slots"),
        log2: optional_at(table, Some("keys"), "log2"),
        kind: optional_at(table, Some("keys"), "kind"),
    }
}

fn heap_from(table: &Table) -> HeapAt
    ensures { result ≡ heap_from (table_view table.now) }
{
    HeapAt {
        size: number_at(table, Some("heap"), "size"),
        cached_keys: number_at(table, Some("heap"), "cached_keys"),
        inline: number_at(table, Some("heap"), "inline"),
    }
}

fn gil_from(table: &Table) -> GilAt
    ensures { result ≡ gil_from (table_view table.now) }
{
    GilAt {
        size: number_at(table, Some("gil"), "size"),
        locked: number_at(table, Some("gil"), "locked"),
        holder: number_at(table, Some("gil"), "holder"),
    }
}

fn offsets_from(table: &Table) -> OffsetsAt
    ensures { result ≡ offsets_from (table_view table.now) }
{
    OffsetsAt {
        size: number_at(table, Some("offsets"), "size"),
        head: number_at(table, Some("offsets"), "head"),
    }
}

/// Whether a group is there.
fn has_group(table: &Table, name: &str) -> bool
    ensures { result ≡ has_group (table_view table.now) name.now }
{
    group_at(table, name).is_some()
}

fn cframe_if_there(table: &Table) -> Option<CframeAt>
    ensures { result ≡ cond (has_group (table_view table.now) (codes "cframe"))
        (Some (cframe_from (table_view table.now))) None }
{
    if has_group(table, "cframe") {
        Some(cframe_from(table))
    } else {
        None
    }
}

fn dict_if_there(table: &Table) -> Option<DictAt>
    ensures { result ≡ cond (has_group (table_view table.now) (codes "dict"))
        (Some (dict_from (table_view table.now))) None }
{
    if has_group(table, "dict") {
        Some(dict_from(table))
    } else {
        None
    }
}

fn keys_if_there(table: &Table) -> Option<KeysAt>
    ensures { result ≡ cond (has_group (table_view table.now) (codes "keys"))
        (Some (keys_from (table_view table.now))) None }
{
    if has_group(table, "keys") {
        Some(keys_from(table))
    } else {
        None
    }
}

fn heap_if_there(table: &Table) -> Option<HeapAt>
    ensures { result ≡ cond (has_group (table_view table.now) (codes "heap"))
        (Some (heap_from (table_view table.now))) None }
{
    if has_group(table, "heap") {
        Some(heap_from(table))
    } else {
        None
    }
}

fn gil_if_there(table: &Table) -> Option<GilAt>
    ensures { result ≡ cond (has_group (table_view table.now) (codes "gil"))
        (Some (gil_from (table_view table.now))) None }
{
    if has_group(table, "gil") {
        Some(gil_from(table))
    } else {
        None
    }
}

fn offsets_if_there(table: &Table) -> Option<OffsetsAt>
    ensures { result ≡ cond (has_group (table_view table.now) (codes "offsets"))
        (Some (offsets_from (table_view table.now))) None }
{
    if has_group(table, "offsets") {
        Some(offsets_from(table))
    } else {
        None
    }
}

/// The layout that a table says; of a table with a flaw, one with zeros for what is not there.
#[tactic(auto, unfolding(crate::specs::Reading::layout_from))]
pub fn layout_from(table: &Table) -> Layout
    ensures { result ≡ layout_from (table_view table.now) }
{
    let families = families_of(table);
    Layout {
        major: number_at(table, None, "major"),
        first_minor: number_at(table, None, "first_minor"),
        last_minor: number_at(table, None, "last_minor"),
        bytes_text: truth_at(table, "bytes_text"),
        head: families.head,
        lock: families.lock,
        frames: families.frames,
        lasti: families.lasti,
        lines: families.lines,
        strings: families.strings,
        integers: families.integers,
        dicts: families.dicts,
        managed: families.managed,
        interpreter: interpreter_from(table),
        thread: thread_from(table),
        cframe: cframe_if_there(table),
        frame: frame_from(table),
        code: code_from(table),
        string: string_from(table),
        bytes: bytes_from(table),
        tuple: tuple_from(table),
        list: list_from(table),
        object: object_from(table),
        klass: klass_from(table),
        long: long_from(table),
        small: value_from(table, "small"),
        float: value_from(table, "float"),
        dict: dict_if_there(table),
        keys: keys_if_there(table),
        heap: heap_if_there(table),
        gil: gil_if_there(table),
        offsets: offsets_if_there(table),
    }
}
