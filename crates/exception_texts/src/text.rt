//! The lines of exceptions.
ghost use Rattle.std.specs.Prelude.{◌≡◌, ◌++◌, OnOk, string_bytes};
ghost use Rattle.thread_exceptions.specs.Groups.{members_of};
ghost use Rattle.exception_texts.specs.Text.{arguments_lead, no_trace, own_trace, object_lead, again_line, at_end};
ghost use Rattle.exception_texts.specs.Text.{behind_colon, by_arguments, by_text, class_at, colon_text};
ghost use Rattle.exception_texts.specs.Text.{exception_lines, head_line, interpreter_text, items_end, items_on};
ghost use Rattle.exception_texts.specs.Text.{line_text, lines_text, members_end, missing_line, object_lines, own_lines};
ghost use Rattle.exception_texts.specs.Text.{own_parts, owner_line, parts_lines, says_text, sentence_line};
ghost use Rattle.exception_texts.specs.Text.{tells_arguments, thread_text, threads_text, title_text, titled_text};
ghost use Rattle.exception_texts.specs.Text.{told_class, told_lines, unknown_line, value_part};

use crate::class::push_class;
use crate::frames::{
    push_indent, push_left_out, push_lost, push_lost_line, push_notes, push_traceback,
};
use crate::plan::{Line, lines_of, place_of};
use crate::roots::roots_of;
use crate::said::push_message;
use crate::told::{ExceptionsOf, InterpreterExceptions, ThreadTold};
use crate::unicode::{coded_shown, data_shown, is_known};
use crate::values::push_str_of;
use py_exceptions::{RaisedParts, Rule, Said, ToldException, ToldThread, Traceback, Value};
use std::alloc::{AllocError, Global};
use thread_exceptions::{LinkEnd, Lost, Members, Met, Owner, What};

// ---- an exception

/// What is said behind a colon, where anything is.
fn push_colon(text: &mut String, message: &str) -> Result<(), AllocError>
    ensures { OnOk result (string_bytes text.new ≡ string_bytes text.old ++ colon_text message.now) }
{
    if message.is_empty() {
        return Ok(());
    }
    text.push_str(": ")?;
    text.push_str(message)
}

/// Whether arguments are shown in place of a text.
pub(crate) fn tells_arguments(rule: &Rule) -> bool
    ensures { result ≡ tells_arguments rule.now }
{
    match rule {
        Rule::Own { .. } => true,
        Rule::Unreadable => true,
        Rule::Plain => false,
        Rule::Key => false,
        Rule::System { .. } => false,
        Rule::Import { .. } => false,
        Rule::Syntax { .. } => false,
        Rule::Group { .. } => false,
        Rule::Encode { encoding, invalid } => !is_known(coded_shown(encoding, invalid)),
        Rule::Decode { encoding, invalid } => !is_known(coded_shown(encoding, invalid)),
        Rule::Translate { invalid } => !is_known(data_shown(invalid)),
    }
}

/// What stands in front of arguments that are shown in place of a text.
#[tactic(auto, unfolding(crate::specs::Text::arguments_lead))]
fn push_arguments_lead(text: &mut String) -> Result<(), AllocError>
    ensures { OnOk result (string_bytes text.new ≡ string_bytes text.old ++ arguments_lead) }
{
    text.push_str(" with the arguments ")
}

/// The arguments of an exception, said to be these.
fn push_by_arguments(
    alloc: Global,
    text: &mut String,
    said: &Said,
    members: &Members,
) -> Result<(), AllocError>
    ensures { OnOk result (string_bytes text.new
        ≡ string_bytes text.old ++ by_arguments said.now (members_of members.now)) }
{
    push_arguments_lead(text)?;
    push_message(alloc, text, false, said, members)
}

/// What an exception says, behind a colon.
fn push_by_text(
    alloc: Global,
    text: &mut String,
    said: &Said,
    members: &Members,
) -> Result<(), AllocError>
    ensures { OnOk result (string_bytes text.new ≡ string_bytes text.old ++ by_text said.now (members_of members.now)) }
{
    let mut message = String::new(alloc);
    push_message(alloc, &mut message, false, said, members)?;
    push_colon(text, message.as_str())
}

/// What an exception says, behind its class.
fn push_says(
    alloc: Global,
    text: &mut String,
    said: &Said,
    members: &Members,
) -> Result<(), AllocError>
    ensures { OnOk result (string_bytes text.new
        ≡ string_bytes text.old ++ says_text said.now (members_of members.now)) }
{
    if tells_arguments(&said.rule) {
        return push_by_arguments(alloc, text, said, members);
    }
    push_by_text(alloc, text, said, members)
}

/// The line of an exception.
fn push_head(
    alloc: Global,
    text: &mut String,
    depth: u64,
    told: &ToldException,
    members: &Members,
) -> Result<(), AllocError>
    ensures { OnOk result (string_bytes text.new
        ≡ string_bytes text.old ++ head_line depth told.now (members_of members.now)) }
{
    push_indent(text, depth)?;
    push_class(alloc, text, &told.class)?;
    push_says(alloc, text, &told.said, members)?;
    text.push_str("\n")
}

/// What of the members of a group is not told.
fn push_members_end(text: &mut String, depth: u64, members: &Members) -> Result<(), AllocError>
    ensures { OnOk result (string_bytes text.new ≡ string_bytes text.old ++ members_end depth members.now) }
{
    match members {
        Members::Group(group) => push_left_out(text, depth, group.left_out, " more members\n"),
        Members::NoGroup => Ok(()),
        Members::Unreadable(lost) => push_lost_line(text, depth, *lost),
    }
}

/// The lines of an exception.
fn push_exception(
    alloc: Global,
    text: &mut String,
    depth: u64,
    told: &ToldException,
    members: &Members,
) -> Result<(), AllocError>
    ensures { OnOk result (string_bytes text.new
        ≡ string_bytes text.old ++ exception_lines depth told.now members.now) }
{
    push_head(alloc, text, depth, told, members)?;
    push_notes(alloc, text, depth, &told.notes)?;
    push_traceback(alloc, text, depth, &told.traceback)?;
    push_members_end(text, depth, members)
}

// ---- lines

/// The line of a range that is not in memory.
fn push_missing(text: &mut String, depth: u64, lost: Lost) -> Result<(), AllocError>
    ensures { OnOk result (string_bytes text.new ≡ string_bytes text.old ++ missing_line depth lost) }
{
    push_indent(text, depth)?;
    text.push_str("... ")?;
    push_lost(text, lost)?;
    text.push_str("\n")
}

/// Where an object stands, in a line with an end of its own.
fn push_at_end(text: &mut String, addr: u64, end: &str) -> Result<(), AllocError>
    ensures { OnOk result (string_bytes text.new ≡ string_bytes text.old ++ at_end addr end.now) }
{
    write!(text, " at 0x{addr:x}")?;
    text.push_str(end)
}

/// What stands in front of an object of which nothing is told.
#[tactic(auto, unfolding(crate::specs::Text::object_lead))]
fn push_object_lead(text: &mut String) -> Result<(), AllocError>
    ensures { OnOk result (string_bytes text.new ≡ string_bytes text.old ++ object_lead) }
{
    text.push_str("... the object")
}

/// The line of an object of which nothing is told, or that is no exception.
fn push_unknown(text: &mut String, depth: u64, addr: u64, end: &str) -> Result<(), AllocError>
    ensures { OnOk result (string_bytes text.new ≡ string_bytes text.old ++ unknown_line depth addr end.now) }
{
    push_indent(text, depth)?;
    push_object_lead(text)?;
    push_at_end(text, addr, end)
}

/// The lines of an exception, where it is told.
fn push_told(
    alloc: Global,
    text: &mut String,
    depth: u64,
    addr: u64,
    told: &Option<ToldException>,
    members: &Members,
) -> Result<(), AllocError>
    ensures { OnOk result (string_bytes text.new
        ≡ string_bytes text.old ++ told_lines depth addr told.now members.now) }
{
    match told {
        Some(told) => push_exception(alloc, text, depth, told, members),
        None => push_unknown(text, depth, addr, " is not told\n"),
    }
}

/// The lines of an object.
fn push_object(
    alloc: Global,
    text: &mut String,
    depth: u64,
    met: &Met,
    told: &Option<ToldException>,
) -> Result<(), AllocError>
    ensures { OnOk result (string_bytes text.new ≡ string_bytes text.old ++ object_lines depth met.now told.now) }
{
    match &met.what {
        What::Exception { members, .. } => push_told(alloc, text, depth, met.addr, told, members),
        What::Other => push_unknown(text, depth, met.addr, " is no exception\n"),
        What::Unreadable(lost) => push_missing(text, depth, *lost),
    }
}

/// The lines of the object of a number.
fn push_own(
    alloc: Global,
    text: &mut String,
    told: &ToldThread,
    depth: u64,
    number: usize,
) -> Result<(), AllocError>
    ensures { OnOk result (string_bytes text.new ≡ string_bytes text.old ++ own_lines told.now depth number) }
{
    let own: Option<&Met> = told.thread.met.get(number);
    let what: Option<&Option<ToldException>> = told.told.get(number);
    match (own, what) {
        (Some(own), Some(what)) => push_object(alloc, text, depth, own, what),
        (Some(_), None) => Ok(()),
        (None, Some(_)) => Ok(()),
        (None, None) => Ok(()),
    }
}

/// A sentence between two exceptions.
fn push_sentence(text: &mut String, depth: u64, sentence: &str) -> Result<(), AllocError>
    ensures { OnOk result (string_bytes text.new ≡ string_bytes text.old ++ sentence_line depth sentence.now) }
{
    push_indent(text, depth)?;
    text.push_str(sentence)
}

/// That what follows is handled, and where.
fn push_owner(text: &mut String, owner: Owner) -> Result<(), AllocError>
    ensures { OnOk result (string_bytes text.new ≡ string_bytes text.old ++ owner_line owner) }
{
    match owner {
        Owner::Thread => text.push_str("    Handling:\n"),
        Owner::Running { addr } => {
            text.push_str("    Handling, in the generator or coroutine")?;
            push_at_end(text, addr, ":\n")
        }
    }
}

/// The name of the class of an exception, where it is told.
fn push_told_class(
    alloc: Global,
    text: &mut String,
    told: &Option<ToldException>,
) -> Result<(), AllocError>
    ensures { OnOk result (string_bytes text.new ≡ string_bytes text.old ++ told_class told.now) }
{
    match told {
        Some(told) => push_class(alloc, text, &told.class),
        None => text.push_str("?"),
    }
}

/// That of the object of a number.
fn push_class_at(
    alloc: Global,
    text: &mut String,
    told: &ToldThread,
    number: Option<usize>,
) -> Result<(), AllocError>
    ensures { OnOk result (string_bytes text.new ≡ string_bytes text.old ++ class_at told.now number) }
{
    let Some(number) = number else {
        return text.push_str("?");
    };
    match told.told.get(number) {
        Some(told) => push_told_class(alloc, text, told),
        None => text.push_str("?"),
    }
}

/// The line of an exception that has its lines elsewhere.
fn push_again(
    alloc: Global,
    text: &mut String,
    told: &ToldThread,
    depth: u64,
    addr: u64,
) -> Result<(), AllocError>
    ensures { OnOk result (string_bytes text.new ≡ string_bytes text.old ++ again_line told.now depth addr) }
{
    push_indent(text, depth)?;
    text.push_str("... ")?;
    push_class_at(alloc, text, told, place_of(&told.thread.met, addr))?;
    push_at_end(text, addr, " again\n")
}

/// What an exception is to be made of, where it is no exception yet.
fn push_value(alloc: Global, text: &mut String, value: &Option<Value>) -> Result<(), AllocError>
    ensures { OnOk result (string_bytes text.new ≡ string_bytes text.old ++ value_part value.now) }
{
    match value {
        Some(Value::Absent) => Ok(()),
        Some(Value::Nothing) => Ok(()),
        Some(Value::Other { .. }) => Ok(()),
        Some(Value::Text(_)) => push_behind_colon(alloc, text, value),
        Some(Value::LongText { .. }) => push_behind_colon(alloc, text, value),
        Some(Value::Number(_)) => push_behind_colon(alloc, text, value),
        Some(Value::LongNumber { .. }) => push_behind_colon(alloc, text, value),
        Some(Value::Truth(_)) => push_behind_colon(alloc, text, value),
        Some(Value::Float { .. }) => push_behind_colon(alloc, text, value),
        None => push_behind_colon(alloc, text, value),
    }
}

/// A value behind a colon.
fn push_behind_colon(
    alloc: Global,
    text: &mut String,
    value: &Option<Value>,
) -> Result<(), AllocError>
    ensures { OnOk result (string_bytes text.new ≡ string_bytes text.old ++ behind_colon value.now) }
{
    text.push_str(": ")?;
    push_str_of(alloc, text, false, value)
}

/// The lines of what is raised by its type and what it is made of.
fn push_parts(alloc: Global, text: &mut String, parts: &RaisedParts) -> Result<(), AllocError>
    ensures { OnOk result (string_bytes text.new ≡ string_bytes text.old ++ parts_lines parts.now) }
{
    push_indent(text, 0)?;
    push_class(alloc, text, &parts.class)?;
    push_value(alloc, text, &parts.value)?;
    text.push_str("\n")?;
    push_own_trace(alloc, text, &parts.traceback)
}

/// The lines of a thread's traceback, or that it can't be read.
fn push_own_trace(
    alloc: Global,
    text: &mut String,
    trace: &Option<Traceback>,
) -> Result<(), AllocError>
    ensures { OnOk result (string_bytes text.new ≡ string_bytes text.old ++ own_trace trace.now) }
{
    match trace {
        Some(trace) => push_traceback(alloc, text, 0, trace),
        None => push_no_trace(text),
    }
}

/// That a traceback can't be read.
#[tactic(auto, unfolding(crate::specs::Text::no_trace))]
fn push_no_trace(text: &mut String) -> Result<(), AllocError>
    ensures { OnOk result (string_bytes text.new ≡ string_bytes text.old ++ no_trace) }
{
    text.push_str("            ... its traceback is unreadable\n")
}

/// The same, where it is told.
fn push_own_parts(
    alloc: Global,
    text: &mut String,
    parts: &Option<RaisedParts>,
) -> Result<(), AllocError>
    ensures { OnOk result (string_bytes text.new ≡ string_bytes text.old ++ own_parts parts.now) }
{
    match parts {
        Some(parts) => push_parts(alloc, text, parts),
        None => Ok(()),
    }
}

/// How the chain of items breaks off, where it does.
fn push_items_end(text: &mut String, end: LinkEnd) -> Result<(), AllocError>
    ensures { OnOk result (string_bytes text.new ≡ string_bytes text.old ++ items_end end) }
{
    match end {
        LinkEnd::Null => Ok(()),
        LinkEnd::Unreadable(lost) => {
            text.push_str("    ... what else is handled is ")?;
            push_lost(text, lost)?;
            text.push_str("\n")
        }
        LinkEnd::Cycle { addr } => push_items_on(text, addr),
        LinkEnd::Cut { addr } => push_items_on(text, addr),
    }
}

/// That more items stand from an address on, or those before again.
fn push_items_on(text: &mut String, addr: u64) -> Result<(), AllocError>
    ensures { OnOk result (string_bytes text.new ≡ string_bytes text.old ++ items_on addr) }
{
    write!(
        text,
        "    ... and what is handled by the items from 0x{addr:x} on\n"
    )
}

/// A line, or the lines of an exception.
fn push_line(
    alloc: Global,
    text: &mut String,
    told: &ToldThread,
    line: Line,
) -> Result<(), AllocError>
    ensures { OnOk result (string_bytes text.new ≡ string_bytes text.old ++ line_text told.now line) }
{
    match line {
        Line::Raised => text.push_str("    Raised:\n"),
        Line::Parts => push_own_parts(alloc, text, &told.raised),
        Line::Handled(owner) => push_owner(text, owner),
        Line::Missing(lost) => push_missing(text, 0, lost),
        Line::End(end) => push_items_end(text, end),
        Line::Cause { depth } => push_sentence(
            text,
            depth,
            "The above exception was the direct cause of the following exception:\n",
        ),
        Line::Context { depth } => push_sentence(
            text,
            depth,
            "During handling of the above exception, another exception occurred:\n",
        ),
        Line::Own { depth, number } => push_own(alloc, text, told, depth, number),
        Line::Again { depth, addr } => push_again(alloc, text, told, depth, addr),
        Line::Untold { depth, addr } => push_unknown(text, depth, addr, " is not told\n"),
        Line::More => text.push_str("    ... and more\n"),
    }
}

/// Lines, in order.
pub(crate) fn push_lines(
    alloc: Global,
    text: &mut String,
    told: &ToldThread,
    lines: &[Line],
) -> Result<(), AllocError>
    ensures { OnOk result (string_bytes text.new ≡ string_bytes text.old ++ lines_text told.now lines.now) }
{
    for line in lines {
        push_line_of(alloc, text, told, line)?;
    }
    Ok(())
}

/// The same of a line that stays.
fn push_line_of(
    alloc: Global,
    text: &mut String,
    told: &ToldThread,
    line: &Line,
) -> Result<(), AllocError>
    ensures { OnOk result (string_bytes text.new ≡ string_bytes text.old ++ line_text told.now line.now) }
{
    push_line(alloc, text, told, *line)
}

// ---- threads

/// Whose exceptions they are, where there are any.
fn push_title(text: &mut String, thread_id: u64, lines: &[Line]) -> Result<(), AllocError>
    ensures { OnOk result (string_bytes text.new ≡ string_bytes text.old ++ title_text thread_id lines.now) }
{
    if lines.is_empty() {
        return Ok(());
    }
    write!(text, "Exceptions of thread 0x{thread_id:X}:\n")
}

/// The lines of a thread, with whose they are.
fn push_titled(
    alloc: Global,
    text: &mut String,
    thread: &ThreadTold,
    lines: &[Line],
) -> Result<(), AllocError>
    ensures { OnOk result (string_bytes text.new ≡ string_bytes text.old ++ titled_text thread.now lines.now) }
{
    push_title(text, thread.thread_id, lines)?;
    push_lines(alloc, text, &thread.told, lines)
}

/// The lines of a thread; none of one that neither raises nor handles any.
fn push_thread(alloc: Global, text: &mut String, thread: &ThreadTold) -> Result<(), AllocError>
    ensures { OnOk result (string_bytes text.new ≡ string_bytes text.old ++ thread_text thread.now) }
{
    let own = &thread.told.thread;
    let roots = roots_of(alloc, own)?;
    let lines = lines_of(alloc, &own.met, roots)?;
    push_titled(alloc, text, thread, &lines)
}

/// Those of each thread, in order.
fn push_threads(alloc: Global, text: &mut String, threads: &[ThreadTold]) -> Result<(), AllocError>
    ensures { OnOk result (string_bytes text.new ≡ string_bytes text.old ++ threads_text threads.now) }
{
    for thread in threads {
        push_thread(alloc, text, thread)?;
    }
    Ok(())
}

/// Those of an interpreter's threads.
pub(crate) fn push_interpreter(
    alloc: Global,
    text: &mut String,
    told: &InterpreterExceptions,
) -> Result<(), AllocError>
    ensures { OnOk result (string_bytes text.new ≡ string_bytes text.old ++ interpreter_text told.now) }
{
    match &told.exceptions {
        ExceptionsOf::NotDescribed => text.push_str(
            "Exceptions are not told: not described for this version\n",
        ),
        ExceptionsOf::Read(threads) => push_threads(alloc, text, threads),
    }
}
