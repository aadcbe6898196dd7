//! Questions whose answers are known, of a frame and of a thread: whether the layout's numbers lead to what they
//! should.
ghost use Rattle.std.specs.Prelude.{◌≡◌, ◌≤◌, IfErr, OnOk};
ghost use Rattle.process_memory.specs.Seen.{Reads, read_fault};
ghost use Rattle.process_memory.specs.declared.memory.ReadFault.TheVariants.{OutOfMemory};
ghost use Rattle.py_selftest.specs.Questions.{class_told, end_told, frame_told, last_told};
ghost use Rattle.py_selftest.specs.Questions.{member_class_told, text_type};
ghost use Rattle.py_selftest.specs.Questions.{add, count_known, frame_type, has_no_right_frame, is_counted, is_end};
ghost use Rattle.py_selftest.specs.Questions.{has_types, has_value, instruction_told, is_of_frame, local_told};
ghost use Rattle.py_selftest.specs.Questions.{object_told, one_if, one_more, stands_in, table_told, value_told};
ghost use Rattle.py_selftest.specs.Questions.{has_texts, text_told};

use crate::telling::{Release, Types, is_before, kept, less};
use process_memory::{ProcessMemory, ReadFault, word_past};
use py_fields::Layout;

/// How many bytes a line table has at most.
const TABLE_LIMIT: u64 = 0x100_0000;

/// How many frames have to be met before their answers make a layout doubtful.
const ENOUGH_FRAMES: u64 = 8;

/// A question.
#[derive(Clone, Copy, PartialEq, Eq)]
pub(crate) enum Question {
    /// Whether a thread of an interpreter's chain names that interpreter.
    Interpreter,
    /// Whether the id of a thread is a thread pointer among the registers.
    Pointer,
    /// Whether what an interpreter names as its modules is a dict.
    Modules,
    /// Whether `sys.maxunicode` is the largest character's number.
    Largest,
    /// Whether the first item of `sys.float_info` is the largest finite number.
    Float,
    /// Whether `True` of `builtins` is of `bool`, and 1.
    Truth,
    /// Whether the class of a frame is that of frames: up to 3.10.
    Frame,
    /// Whether the class of a frame's code is that of code.
    Code,
    /// Whether that of the code's name is that of texts.
    Name,
    /// Whether its file's name is a text: of `str`, or of a class that derives from it.
    File,
    /// Whether that of the names of its variables is that of tuples.
    Variables,
    /// Whether that of its line table is that of bytes.
    Table,
    /// Whether a byte of 0 follows the line table.
    End,
    /// Whether a frame's instruction stands in its code: from 3.11 on.
    Instruction,
    /// Whether the class of what a frame's first variable is has a class of types.
    Local,
}

/// A question that was answered, and whether the answer is right.
#[derive(Clone, Copy)]
pub(crate) struct Answer {
    pub(crate) question: Question,
    pub(crate) right: bool,
}

/// The answers of a frame; none to what is not in memory, or where the type is not known.
#[derive(Clone, Copy)]
pub(crate) struct FrameTold {
    pub(crate) frame: Option<bool>,
    pub(crate) code: Option<bool>,
    pub(crate) name: Option<bool>,
    pub(crate) file: Option<bool>,
    pub(crate) variables: Option<bool>,
    pub(crate) table: Option<bool>,
    pub(crate) end: Option<bool>,
    pub(crate) instruction: Option<bool>,
    pub(crate) local: Option<bool>,
}

/// Whether the class of an object is a type, where that is known. At most one read.
fn class_told<P: ProcessMemory>(
    process: &mut P,
    layout: &Layout,
    of: Option<u64>,
    object: u64,
) -> Result<Option<bool>, ReadFault>
    ensures { Reads read_fault 1 (P.seen process.old) (P.seen process.new)
        (λ m. class_told layout.now m of object) result }
{
    match of {
        None => Ok(None),
        Some(of) => {
            let class = word_past(process, object, layout.object.klass as u64)?;
            Ok(Some(class == of))
        }
    }
}

/// The same of the object that a word of a record names. At most 2 reads.
fn member_class_told<P: ProcessMemory>(
    process: &mut P,
    layout: &Layout,
    of: Option<u64>,
    holder: u64,
    field: u32,
) -> Result<Option<bool>, ReadFault>
    ensures { Reads read_fault 2 (P.seen process.old) (P.seen process.new)
        (λ m. member_class_told layout.now m of holder field) result }
{
    let object = word_past(process, holder, field as u64)?;
    class_told(process, layout, of, object)
}

/// Whether the flags of a class say that its objects are texts (`Py_TPFLAGS_UNICODE_SUBCLASS`, and of Python 2
/// `Py_TPFLAGS_STRING_SUBCLASS` too).
fn has_texts(release: Release, flags: u64) -> bool
    ensures { result ≡ has_texts release flags }
{
    if is_before(release, 0) {
        flags / 0x800_0000 % 4 != 0
    } else {
        flags / 0x1000_0000 % 2 == 1
    }
}

/// Whether the object that a word of a record names is a text, of whatever class. At most 3 reads.
fn text_told<P: ProcessMemory>(
    process: &mut P,
    layout: &Layout,
    release: Release,
    holder: u64,
    field: u32,
) -> Result<Option<bool>, ReadFault>
    ensures { Reads read_fault 3 (P.seen process.old) (P.seen process.new)
        (λ m. text_told layout.now m release holder field) result }
{
    let object = word_past(process, holder, field as u64)?;
    let class = word_past(process, object, layout.object.klass as u64)?;
    let flags = word_past(process, class, layout.klass.flags as u64)?;
    Ok(Some(has_texts(release, flags)))
}

/// Whether the last byte of a word is 0.
fn is_end(word: u64) -> bool
    ensures { result ≡ is_end word }
{
    word < 0x100_0000_0000_0000
}

/// Whether the byte is 0 that ends the word at an offset of bytes. At most one read.
fn last_told<P: ProcessMemory>(
    process: &mut P,
    table: u64,
    offset: Option<u64>,
) -> Result<Option<bool>, ReadFault>
    ensures { Reads read_fault 1 (P.seen process.old) (P.seen process.new)
        (λ m. last_told m table offset) result }
{
    match offset {
        None => Ok(None),
        Some(offset) => {
            let word = word_past(process, table, offset)?;
            Ok(Some(is_end(word)))
        }
    }
}

/// Whether a byte of 0 follows so many bytes; none of 2^24 and more. At most one read.
fn end_told<P: ProcessMemory>(
    process: &mut P,
    layout: &Layout,
    table: u64,
    length: u64,
) -> Result<Option<bool>, ReadFault>
    ensures { Reads read_fault 1 (P.seen process.old) (P.seen process.new)
        (λ m. end_told layout.now m table length) result }
{
    let is_long = TABLE_LIMIT <= length;
    if is_long {
        return Ok(Some(false));
    }
    let offset = less(length + layout.bytes.at as u64, 7);
    last_told(process, table, offset)
}

/// Whether a byte of 0 follows the line table of code. At most 3 reads.
fn table_told<P: ProcessMemory>(
    process: &mut P,
    layout: &Layout,
    code: u64,
) -> Result<Option<bool>, ReadFault>
    ensures { Reads read_fault 3 (P.seen process.old) (P.seen process.new)
        (λ m. table_told layout.now m code) result }
{
    let table = word_past(process, code, layout.code.table as u64)?;
    let length = word_past(process, table, layout.bytes.length as u64)?;
    end_told(process, layout, table, length)
}

/// Whether an instruction stands at most one code unit before those of code, and in the first 2^24 bytes of them.
fn stands_in(code: u64, start: u32, instruction: u64) -> bool
    ensures { result ≡ stands_in code start instruction }
{
    let begin = code as u128 + start as u128;
    let at = instruction as u128;
    begin <= at + 2 && at < begin + TABLE_LIMIT as u128
}

/// Whether a frame's instruction stands in its code, where the layout says where that begins. At most one read.
fn instruction_told<P: ProcessMemory>(
    process: &mut P,
    layout: &Layout,
    start: Option<u32>,
    frame: u64,
    code: u64,
) -> Result<Option<bool>, ReadFault>
    ensures { Reads read_fault 1 (P.seen process.old) (P.seen process.new)
        (λ m. instruction_told layout.now m start frame code) result }
{
    match start {
        None => Ok(None),
        Some(start) => {
            let at = word_past(process, frame, layout.frame.instr as u64)?;
            Ok(Some(stands_in(code, start, at)))
        }
    }
}

/// Whether the flags of a class say that its objects are types (`Py_TPFLAGS_TYPE_SUBCLASS`).
fn has_types(flags: u64) -> bool
    ensures { result ≡ has_types flags }
{
    flags / 0x8000_0000 % 2 == 1
}

/// Whether an object has a class that is a type. At most 3 reads.
fn object_told<P: ProcessMemory>(
    process: &mut P,
    layout: &Layout,
    object: u64,
) -> Result<Option<bool>, ReadFault>
    ensures { Reads read_fault 3 (P.seen process.old) (P.seen process.new)
        (λ m. object_told layout.now m object) result }
{
    let class = word_past(process, object, layout.object.klass as u64)?;
    let of_class = word_past(process, class, layout.object.klass as u64)?;
    let flags = word_past(process, of_class, layout.klass.flags as u64)?;
    Ok(Some(has_types(flags)))
}

/// The same; nothing of null. At most 3 reads.
fn value_told<P: ProcessMemory>(
    process: &mut P,
    layout: &Layout,
    object: u64,
    is: bool,
) -> Result<Option<bool>, ReadFault>
    ensures { Reads read_fault 3 (P.seen process.old) (P.seen process.new)
        (λ m. value_told layout.now m object is) result }
{
    if is {
        return object_told(process, layout, object);
    }
    Ok(None)
}

/// Whether there is a first variable, and a value of it.
fn has_value(count: u64, object: u64) -> bool
    ensures { result ≡ has_value count object }
{
    count % 0x1_0000_0000 != 0 && object != 0
}

/// Whether the first variable of a frame has a class that is a type, where its code has one, and it has a value. At
/// most 5 reads.
fn local_told<P: ProcessMemory>(
    process: &mut P,
    layout: &Layout,
    frame: u64,
    code: u64,
) -> Result<Option<bool>, ReadFault>
    ensures { Reads read_fault 5 (P.seen process.old) (P.seen process.new)
        (λ m. local_told layout.now m frame code) result }
{
    let count = word_past(process, code, layout.code.nlocals as u64)?;
    let object = word_past(process, frame, layout.frame.locals as u64)?;
    let is = has_value(count, object);
    value_told(process, layout, object, is)
}

/// The type of the name of a function.
fn text_type(types: &Types, release: Release) -> Option<u64>
    ensures { result ≡ text_type types.now release }
{
    if is_before(release, 0) {
        types.bytes
    } else {
        types.text
    }
}

/// The type of frames, where these are objects.
fn frame_type(types: &Types, release: Release) -> Option<u64>
    ensures { result ≡ frame_type types.now release }
{
    if is_before(release, 11) {
        types.frame
    } else {
        None
    }
}

/// The answers of a frame with its code. At most 20 reads.
pub(crate) fn frame_told<P: ProcessMemory>(
    process: &mut P,
    layout: &Layout,
    release: Release,
    types: &Types,
    at: u64,
    of: u64,
) -> Result<FrameTold, ReadFault>
    ensures { Reads read_fault 20 (P.seen process.old) (P.seen process.new)
        (λ m. frame_told layout.now m release types.now at of) result }
{
    let text_of = text_type(types, release);
    let frame_of = frame_type(types, release);
    let frame = kept(class_told(process, layout, frame_of, at))?;
    let code = kept(class_told(process, layout, types.code, of))?;
    let name = kept(member_class_told(process, layout, text_of, of, layout.code.name))?;
    let file = kept(text_told(process, layout, release, of, layout.code.filename))?;
    let variables = kept(member_class_told(
        process,
        layout,
        types.tuple,
        of,
        layout.code.varnames,
    ))?;
    let table = kept(member_class_told(process, layout, types.bytes, of, layout.code.table))?;
    let end = kept(table_told(process, layout, of))?;
    let instruction = kept(instruction_told(process, layout, layout.code.start, at, of))?;
    let local = kept(local_told(process, layout, at, of))?;
    Ok(FrameTold {
        frame,
        code,
        name,
        file,
        variables,
        table,
        end,
        instruction,
        local,
    })
}

/// Adds an answer, if there is one.
pub(crate) fn add_answer(
    answers: &mut Vec<Answer>,
    question: Question,
    told: Option<bool>,
) -> Result<(), ReadFault>
    ensures added { OnOk result (answers.new.items ≡ add answers.old.items question told) }
    ensures memory { IfErr result (λ error. error ≡ OutOfMemory) }
{
    match told {
        None => Ok(()),
        Some(right) => match answers.push(Answer { question, right }) {
            Ok(()) => Ok(()),
            Err(_) => Err(ReadFault::OutOfMemory),
        },
    }
}

/// Which answers are counted.
#[derive(Clone, Copy)]
pub(crate) enum Counted {
    /// Those that are right.
    Right,
    /// Those of a frame that are.
    RightOfFrames,
}

/// Whether it is one of a frame.
fn is_of_frame(question: Question) -> bool
    ensures { result ≡ is_of_frame question }
{
    match question {
        Question::Interpreter => false,
        Question::Pointer => false,
        Question::Modules => false,
        Question::Largest => false,
        Question::Float => false,
        Question::Truth => false,
        _ => true,
    }
}

/// Whether an answer is counted.
fn is_counted(answer: Answer, counted: Counted) -> bool
    ensures { result ≡ is_counted counted answer }
{
    match counted {
        Counted::Right => answer.right,
        Counted::RightOfFrames => answer.right && is_of_frame(answer.question),
    }
}

/// One for what is so, else none.
pub(crate) fn one_if(is: bool) -> u64
    ensures is { result ≡ one_if is }
    ensures most { result ≤ 1 }
{
    if is { 1 } else { 0 }
}

/// How many answers are counted.
pub(crate) fn count_known(answers: &[Answer], counted: Counted) -> u64
    ensures { result ≡ count_known counted answers.now }
{
    let mut count = 0;
    for answer in answers {
        count += one_if(is_counted(*answer, counted));
    }
    count
}

/// Whether at least eight frames were met, and none of them has an answer that is right.
pub(crate) fn has_no_right_frame(frames: u64, known: &[Answer]) -> bool
    ensures { result ≡ has_no_right_frame frames known.now }
{
    let right = count_known(known, Counted::RightOfFrames);
    ENOUGH_FRAMES <= frames && right == 0
}

/// A frame more, where fewer than eight were met: more are not counted.
pub(crate) fn one_more(frames: u64) -> u64
    ensures { result ≡ one_more frames }
{
    if frames < ENOUGH_FRAMES {
        frames + 1
    } else {
        frames
    }
}
