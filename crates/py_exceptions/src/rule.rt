//! By which rule an exception is told as a text, and what that tells.
ghost use Rattle.std.specs.Prelude.{◌≡◌, IfOk, Some};
ghost use Rattle.process_memory.specs.Seen.{Reading};
ghost use Rattle.py_fields.specs.Sound.{IsSound};
ghost use Rattle.py_exceptions.specs.Rules.{decode_at, encode_at, group_at, import_at, kind_named, kind_of, rule_at};
ghost use Rattle.py_exceptions.specs.Rules.{rule_by_class, rule_by_kind, rule_by_owner, syntax_at, system_at};
ghost use Rattle.py_exceptions.specs.Rules.{translate_at};

use crate::name::{ClassName, ClassPlaces, read_class};
use crate::owner::read_owner;
use crate::unicode::{InvalidData, read_invalid};
use crate::unit::Units;
use crate::value::{Value, read_field};
use elf64_core::Text;
use process_memory::ProcessMemory;
use py_fields::Layout;
use py_records::{
    ExceptionGroupRecord, ImportErrorRecord, OsErrorRecord, SyntaxErrorRecord, UnicodeErrorRecord,
};
use std::alloc::Global;
use thread_exceptions::ExceptionsError;

/// By which rule an exception is told as a text, which is what `str` gives.
#[derive(Debug, Drop)]
pub enum Rule {
    /// `BaseException`'s: without an argument the text is empty, one argument is told by its `str`, more are told by
    /// the `repr` of their tuple.
    Plain,
    /// `KeyError`'s: one argument is told by its `repr`; else as `Plain`.
    Key,
    /// `OSError`'s: `[Errno n] text`; with a file `[Errno n] text: 'file'`, and with a second one ` -> 'second'` behind
    /// it, the files by their `repr`, and `None` for a number or a text that is `Absent`. As `Plain` where the file and
    /// one of these two are.
    System {
        errno: Option<Value>,
        text: Option<Value>,
        file: Option<Value>,
        second: Option<Value>,
    },
    /// `ImportError`'s: its text; as `Plain` where that is no text.
    Import {
        text: Option<Value>,
    },
    /// `SyntaxError`'s: `text (file, line n)`, with the last part of the file's path, and without a file that is no
    /// text or a line that is no number; `None` for a text that is `Absent`.
    Syntax {
        text: Option<Value>,
        file: Option<Value>,
        line: Option<Value>,
    },
    /// `BaseExceptionGroup`'s: `text (n sub-exceptions)`; how many is told by its members.
    Group {
        text: Option<Value>,
    },
    /// `UnicodeEncodeError`'s: which characters the coding of this name has no bytes for.
    Encode {
        encoding: Option<Value>,
        invalid: InvalidData,
    },
    /// `UnicodeDecodeError`'s: which bytes are no characters in the coding of this name.
    Decode {
        encoding: Option<Value>,
        invalid: InvalidData,
    },
    /// `UnicodeTranslateError`'s: which characters can't be translated.
    Translate {
        invalid: InvalidData,
    },
    /// Another one, of the class of this name: a `__str__` of a program's own, or one of C that is not told here. The
    /// arguments are shown in place of the text, said to be these.
    Own {
        class: ClassName,
    },
    /// Whose it is can't be told, as something on the way is not in memory. The same.
    Unreadable,
}

/// Where exceptions of some classes have fields of their own.
#[derive(Clone, Copy)]
pub struct FieldPlaces {
    pub system: OsErrorRecord,
    pub import: ImportErrorRecord,
    pub syntax: SyntaxErrorRecord,
    /// None where the version has no groups.
    pub group: Option<ExceptionGroupRecord>,
    /// None where the records don't describe these.
    pub unicode: Option<UnicodeErrorRecord>,
}

/// A rule that is told here, or another one.
#[derive(Clone, Copy)]
enum Kind {
    Plain,
    Key,
    System,
    Import,
    Syntax,
    Group,
    Encode,
    Decode,
    Translate,
    Own,
}

/// The rule that a class of C's of a name owns.
#[tactic(auto, unfolding(crate::specs::Rules::kind_named))]
fn kind_named(name: &Text) -> Kind
    ensures { result ≡ kind_named name.now }
{
    if name.as_str() == "BaseException" {
        return Kind::Plain;
    }
    if name.as_str() == "KeyError" {
        return Kind::Key;
    }
    if name.as_str() == "OSError" {
        return Kind::System;
    }
    if name.as_str() == "ImportError" {
        return Kind::Import;
    }
    if name.as_str() == "SyntaxError" {
        return Kind::Syntax;
    }
    if name.as_str() == "BaseExceptionGroup" {
        return Kind::Group;
    }
    if name.as_str() == "UnicodeEncodeError" {
        return Kind::Encode;
    }
    if name.as_str() == "UnicodeDecodeError" {
        return Kind::Decode;
    }
    if name.as_str() == "UnicodeTranslateError" {
        return Kind::Translate;
    }
    Kind::Own
}

/// The rule that a class owns.
fn kind_of(class: &ClassName) -> Kind
    ensures { result ≡ kind_of class.now }
{
    match class {
        ClassName::Whole(name) => kind_named(name),
        ClassName::Parts { .. } => Kind::Own,
    }
}

/// What an `OSError` tells. At most 24 reads.
fn read_system<P: ProcessMemory>(
    alloc: Global,
    process: &mut P,
    layout: &Layout,
    places: &OsErrorRecord,
    at: u64,
) -> Result<Rule, ExceptionsError>
    requires sound { IsSound layout.now }
    ensures { Reading 24 (P.seen process.old) (P.seen process.new)
        (λ m. IfOk result (λ rule. rule ≡ system_at layout.now places.now m at)) }
{
    let errno = read_field(alloc, process, layout, at, places.errno)?;
    let text = read_field(alloc, process, layout, at, places.strerror)?;
    let file = read_field(alloc, process, layout, at, places.filename)?;
    let second = read_field(alloc, process, layout, at, places.filename2)?;
    Ok(Rule::System {
        errno,
        text,
        file,
        second,
    })
}

/// What an `ImportError` tells. At most 6 reads.
fn read_import<P: ProcessMemory>(
    alloc: Global,
    process: &mut P,
    layout: &Layout,
    places: &ImportErrorRecord,
    at: u64,
) -> Result<Rule, ExceptionsError>
    requires sound { IsSound layout.now }
    ensures { Reading 6 (P.seen process.old) (P.seen process.new)
        (λ m. IfOk result (λ rule. rule ≡ import_at layout.now places.now m at)) }
{
    let text = read_field(alloc, process, layout, at, places.msg)?;
    Ok(Rule::Import { text })
}

/// What a `SyntaxError` tells. At most 18 reads.
fn read_syntax<P: ProcessMemory>(
    alloc: Global,
    process: &mut P,
    layout: &Layout,
    places: &SyntaxErrorRecord,
    at: u64,
) -> Result<Rule, ExceptionsError>
    requires sound { IsSound layout.now }
    ensures { Reading 18 (P.seen process.old) (P.seen process.new)
        (λ m. IfOk result (λ rule. rule ≡ syntax_at layout.now places.now m at)) }
{
    let text = read_field(alloc, process, layout, at, places.msg)?;
    let file = read_field(alloc, process, layout, at, places.filename)?;
    let line = read_field(alloc, process, layout, at, places.line)?;
    Ok(Rule::Syntax { text, file, line })
}

/// What a group tells, where the version has groups. At most 6 reads.
fn read_group<P: ProcessMemory>(
    alloc: Global,
    process: &mut P,
    layout: &Layout,
    places: Option<ExceptionGroupRecord>,
    class: ClassName,
    at: u64,
) -> Result<Rule, ExceptionsError>
    requires sound { IsSound layout.now }
    ensures { Reading 6 (P.seen process.old) (P.seen process.new)
        (λ m. IfOk result (λ rule. rule ≡ group_at layout.now places m class at)) }
{
    match places {
        None => Ok(Rule::Own { class }),
        Some(places) => {
            let text = read_field(alloc, process, layout, at, places.msg)?;
            Ok(Rule::Group { text })
        }
    }
}

/// What a `UnicodeEncodeError` tells, where it is described. At most 19 reads.
fn read_encode<P: ProcessMemory>(
    alloc: Global,
    process: &mut P,
    layout: &Layout,
    places: Option<UnicodeErrorRecord>,
    class: ClassName,
    at: u64,
) -> Result<Rule, ExceptionsError>
    requires sound { IsSound layout.now }
    ensures { Reading 19 (P.seen process.old) (P.seen process.new)
        (λ m. IfOk result (λ rule. rule ≡ encode_at layout.now places m class at)) }
{
    match places {
        None => Ok(Rule::Own { class }),
        Some(places) => {
            let encoding = read_field(alloc, process, layout, at, places.encoding)?;
            let invalid = read_invalid(alloc, process, layout, &places, Units::Characters, at)?;
            Ok(Rule::Encode { encoding, invalid })
        }
    }
}

/// What a `UnicodeDecodeError` tells, where it is described. At most 19 reads.
fn read_decode<P: ProcessMemory>(
    alloc: Global,
    process: &mut P,
    layout: &Layout,
    places: Option<UnicodeErrorRecord>,
    class: ClassName,
    at: u64,
) -> Result<Rule, ExceptionsError>
    requires sound { IsSound layout.now }
    ensures { Reading 19 (P.seen process.old) (P.seen process.new)
        (λ m. IfOk result (λ rule. rule ≡ decode_at layout.now places m class at)) }
{
    match places {
        None => Ok(Rule::Own { class }),
        Some(places) => {
            let encoding = read_field(alloc, process, layout, at, places.encoding)?;
            let invalid = read_invalid(alloc, process, layout, &places, Units::Bytes, at)?;
            Ok(Rule::Decode { encoding, invalid })
        }
    }
}

/// What a `UnicodeTranslateError` tells, where it is described. At most 13 reads.
fn read_translate<P: ProcessMemory>(
    alloc: Global,
    process: &mut P,
    layout: &Layout,
    places: Option<UnicodeErrorRecord>,
    class: ClassName,
    at: u64,
) -> Result<Rule, ExceptionsError>
    requires sound { IsSound layout.now }
    ensures { Reading 13 (P.seen process.old) (P.seen process.new)
        (λ m. IfOk result (λ rule. rule ≡ translate_at layout.now places m class at)) }
{
    match places {
        None => Ok(Rule::Own { class }),
        Some(places) => {
            let invalid = read_invalid(alloc, process, layout, &places, Units::Characters, at)?;
            Ok(Rule::Translate { invalid })
        }
    }
}

/// What an exception tells by a rule. At most 24 reads.
fn read_by_kind<P: ProcessMemory>(
    alloc: Global,
    process: &mut P,
    layout: &Layout,
    places: &FieldPlaces,
    kind: Kind,
    class: ClassName,
    at: u64,
) -> Result<Rule, ExceptionsError>
    requires sound { IsSound layout.now }
    ensures { Reading 24 (P.seen process.old) (P.seen process.new)
        (λ m. IfOk result (λ rule. rule ≡ rule_by_kind layout.now places.now m class at kind)) }
{
    match kind {
        Kind::Plain => Ok(Rule::Plain),
        Kind::Key => Ok(Rule::Key),
        Kind::System => read_system(alloc, process, layout, &places.system, at),
        Kind::Import => read_import(alloc, process, layout, &places.import, at),
        Kind::Syntax => read_syntax(alloc, process, layout, &places.syntax, at),
        Kind::Group => read_group(alloc, process, layout, places.group, class, at),
        Kind::Encode => read_encode(alloc, process, layout, places.unicode, class, at),
        Kind::Decode => read_decode(alloc, process, layout, places.unicode, class, at),
        Kind::Translate => read_translate(alloc, process, layout, places.unicode, class, at),
        Kind::Own => Ok(Rule::Own { class }),
    }
}

/// The same by the name of the class that owns the rule. At most 24 reads.
fn read_by_class<P: ProcessMemory>(
    alloc: Global,
    process: &mut P,
    layout: &Layout,
    places: &FieldPlaces,
    class: Option<ClassName>,
    at: u64,
) -> Result<Rule, ExceptionsError>
    requires sound { IsSound layout.now }
    ensures { Reading 24 (P.seen process.old) (P.seen process.new)
        (λ m. IfOk result (λ rule. rule ≡ rule_by_class layout.now places.now m at class)) }
{
    match class {
        None => Ok(Rule::Unreadable),
        Some(class) => {
            let kind = kind_of(&class);
            read_by_kind(alloc, process, layout, places, kind, class, at)
        }
    }
}

/// The same by the address of that class. At most 16417 reads.
fn read_by_owner<P: ProcessMemory>(
    alloc: Global,
    process: &mut P,
    layout: &Layout,
    classes: &ClassPlaces,
    places: &FieldPlaces,
    owner: Option<u64>,
    at: u64,
) -> Result<Rule, ExceptionsError>
    requires sound { IsSound layout.now }
    ensures { Reading 16417 (P.seen process.old) (P.seen process.new)
        (λ m. IfOk result (λ rule. rule ≡ rule_by_owner layout.now classes.now places.now m at owner)) }
{
    match owner {
        None => Ok(Rule::Unreadable),
        Some(owner) => {
            let class = read_class(alloc, process, layout, classes, owner)?;
            read_by_class(alloc, process, layout, places, class, at)
        }
    }
}

/// By which rule the exception of a class at an address is told as a text, and what that tells. At most 16546 reads.
pub(crate) fn read_rule<P: ProcessMemory>(
    alloc: Global,
    process: &mut P,
    layout: &Layout,
    classes: &ClassPlaces,
    places: &FieldPlaces,
    class: u64,
    at: u64,
) -> Result<Rule, ExceptionsError>
    requires sound { IsSound layout.now }
    ensures { Reading 16546 (P.seen process.old) (P.seen process.new)
        (λ m. IfOk result (λ rule. rule ≡ rule_at layout.now classes.now places.now m class at)) }
{
    let owner = read_owner(process, classes, class)?;
    read_by_owner(alloc, process, layout, classes, places, owner, at)
}
