//! What the public types of all crates can do beside their calls: a derive that is missing doesn't compile here.
use core_texts::PrintError;
use core_words::ArgsError;
use elf64_core::{ElfError, Machine, Name, SymbolKind, Text};
use image_builder::BuildError;
use image_memory::{CoreMapRange, DumpError, Mmap, elf_prpsinfo, elf_prstatus};
use maps_text::{EntryPath, MapsEntry, MapsError, PathName, Perm};
use native_merge::{MergeError, SourceFault, SourceMapError, SymbolFault};
use normalize_core::{
    BpfProg, BpfTag, Btf, Builder, Elf, NormalizeError, NormalizeOpts, Normalizer, Reason, Unknown,
    UserMeta, UserOutput, bpf_line_info, btf_header,
};
use outside::{FileFault, SinkFault};
use process_memory::ReadFault;
use py_builtins::ObjectError;
use py_fields::{
    BytesAt, CframeAt, CodeAt, DictAt, Dicts, FrameAt, Frames, GilAt, Head, HeapAt, Integers,
    InterpreterAt, KeysAt, KlassAt, Lasti, Layout, Lines, ListAt, Lock, LongAt, Managed, ObjectAt,
    OffsetsAt, ScanError, StringAt, Strings, ThreadAt, TupleAt, ValueAt, Version,
};
use py_layout::LayoutError;
use py_lines::{EncodeError, LineFamily};
use py_process::{BinaryError, CoreError, LockError, SearchError, VersionError};
use py_stacks::{
    Addresses, Config, Frame, LineNo, LocalVariable, NamesError, StackError, StackTrace,
};
use std::fmt::Debug;
use std::hash::Hash;

fn is_debug<T: Debug>() {}

fn is_copied<T: Debug + Copy>() {}

fn is_cloned<T: Debug + Clone + Default>() {}

fn is_default<T: Debug + Default>() {}

fn is_compared<T: Debug + PartialEq>() {}

fn is_equal<T: Debug + Eq>() {}

fn is_hashed<T: Debug + Eq + Hash>() {}

fn is_ordered<T: Debug + Eq + Ord + Hash>() {}

fn is_lent<T: AsRef<T>>() {}

#[test]
fn values_are_compared() {
    is_ordered::<Name>();
    is_ordered::<Text>();
    is_ordered::<Frame>();
    is_ordered::<LocalVariable>();
    is_hashed::<EntryPath>();
    is_hashed::<PathName>();
    is_hashed::<Reason>();
    is_hashed::<BpfTag>();
    is_equal::<LineNo>();
    is_equal::<Unknown>();
    is_equal::<LineFamily>();
    is_equal::<Machine>();
    is_equal::<SymbolKind>();
    is_equal::<Version>();
    is_compared::<MapsEntry>();
    is_lent::<MapsEntry>();
    is_compared::<Perm>();
    is_compared::<Elf>();
    is_compared::<UserMeta>();
    is_compared::<Config>();
}

#[test]
fn errors_are_compared() {
    is_equal::<FileFault>();
    is_equal::<SinkFault>();
    is_equal::<ElfError>();
    is_equal::<ReadFault>();
    is_equal::<DumpError>();
    is_equal::<MapsError>();
    is_equal::<NormalizeError>();
    is_equal::<ScanError>();
    is_equal::<LayoutError>();
    is_equal::<ObjectError>();
    is_equal::<EncodeError>();
    is_equal::<StackError>();
    is_equal::<NamesError>();
    is_equal::<BinaryError>();
    is_equal::<VersionError>();
    is_equal::<SearchError>();
    is_equal::<LockError>();
    is_equal::<SymbolFault>();
    is_equal::<SourceFault>();
    is_equal::<MergeError>();
    is_equal::<SourceMapError>();
    is_equal::<BuildError>();
    is_equal::<PrintError>();
    is_equal::<ArgsError>();
    is_equal::<CoreError>();
}

#[test]
fn values_are_copied_or_have_a_default() {
    is_copied::<Perm>();
    is_default::<Perm>();
    is_copied::<Reason>();
    is_copied::<BpfTag>();
    is_copied::<LineNo>();
    is_copied::<Unknown>();
    is_copied::<LineFamily>();
    is_copied::<Machine>();
    is_copied::<SymbolKind>();
    is_cloned::<NormalizeOpts>();
    is_cloned::<Builder>();
    is_default::<Normalizer>();
    is_cloned::<Config>();
    is_copied::<bpf_line_info>();
    is_default::<bpf_line_info>();
    is_copied::<btf_header>();
    is_copied::<elf_prstatus>();
    is_copied::<elf_prpsinfo>();
    is_copied::<Addresses>();
    is_debug::<UserOutput>();
    is_debug::<CoreMapRange>();
    is_debug::<StackTrace>();
    is_debug::<Mmap>();
    is_debug::<BpfProg>();
    is_debug::<Btf<'static>>();
}

#[test]
fn layouts_are_copied() {
    is_copied::<Layout>();
    is_copied::<Head>();
    is_copied::<Lock>();
    is_copied::<Frames>();
    is_copied::<Lasti>();
    is_copied::<Lines>();
    is_copied::<Strings>();
    is_copied::<Integers>();
    is_copied::<Dicts>();
    is_copied::<Managed>();
    is_copied::<InterpreterAt>();
    is_copied::<ThreadAt>();
    is_copied::<FrameAt>();
    is_copied::<CframeAt>();
    is_copied::<CodeAt>();
    is_copied::<GilAt>();
    is_copied::<OffsetsAt>();
    is_copied::<StringAt>();
    is_copied::<BytesAt>();
    is_copied::<TupleAt>();
    is_copied::<ListAt>();
    is_copied::<ObjectAt>();
    is_copied::<KlassAt>();
    is_copied::<HeapAt>();
    is_copied::<LongAt>();
    is_copied::<ValueAt>();
    is_copied::<DictAt>();
    is_copied::<KeysAt>();
}
