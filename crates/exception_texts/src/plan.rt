//! In which order exceptions are shown: each once, behind its cause or its context, and its members behind it.
ghost use Rattle.std.specs.Prelude.{◌≡◌, ◌++◌, [], ◌∷◌, IfOk, OnOk, map, position, reverse};
ghost use Rattle.exception_texts.specs.Plan.{Takes, after, before, context_first, deeper, expand, expand_at, finish};
ghost use Rattle.exception_texts.specs.Plan.{has};
ghost use Rattle.exception_texts.specs.Plan.{is_at, leads, lines_of, say, show, state_of, step, turn, turns};

use std::alloc::{AllocError, Global};
use thread_exceptions::{LinkEnd, Lost, Members, Met, Owner, Parts, What};

/// How many lines there are at most of a thread's exceptions, without their tracebacks and notes.
const LINE_LIMIT: usize = 65_536;

/// How deep members are indented at most.
const DEPTH_LIMIT: u64 = 16;

/// A line, or several of one exception.
#[derive(Clone, Copy)]
pub(crate) enum Line {
    /// That what follows is raised.
    Raised,
    /// What is raised, by its type and what it is made of.
    Parts,
    /// That what follows is handled, and where.
    Handled(Owner),
    /// What is raised, or what an item names, is not in memory.
    Missing(Lost),
    /// How the chain of items breaks off.
    End(LinkEnd),
    /// That what stands before is the cause of what follows.
    Cause { depth: u64 },
    /// That what follows was raised while what stands before was handled.
    Context { depth: u64 },
    /// The object of this number among those that were met.
    Own { depth: u64, number: usize },
    /// The one at an address, which has its lines elsewhere.
    Again { depth: u64, addr: u64 },
    /// The one at an address, of which nothing is told.
    Untold { depth: u64, addr: u64 },
    /// There is more.
    More,
}

/// What is to be shown.
#[derive(Clone, Copy)]
pub(crate) enum Todo {
    /// The exception at an address.
    Show { depth: u64, addr: u64 },
    /// A line.
    Say(Line),
}

/// The lines so far, what is to be shown, the next one last, and what has its lines.
#[derive(Drop)]
struct Plan {
    lines: Vec<Line>,
    todo: Vec<Todo>,
    seen: Vec<u64>,
}

/// The depth of a member.
fn deeper(depth: u64) -> u64
    ensures { result ≡ deeper depth }
{
    if depth < DEPTH_LIMIT {
        return depth + 1;
    }
    depth
}

/// What stands before an exception that has no cause: its context, where it is shown.
fn context_first(alloc: Global, depth: u64, parts: &Parts) -> Result<Vec<Todo>, AllocError>
    ensures { IfOk result (λ todo. todo.items ≡ context_first depth parts.now) }
{
    let mut todo = Vec::new(alloc);
    if parts.suppress_context || parts.context == 0 {
        return Ok(todo);
    }
    todo.push(Todo::Show {
        depth,
        addr: parts.context,
    })?;
    todo.push(Todo::Say(Line::Context { depth }))?;
    Ok(todo)
}

/// What stands before an exception: its cause, or its context.
fn before(alloc: Global, depth: u64, parts: &Parts) -> Result<Vec<Todo>, AllocError>
    ensures { IfOk result (λ todo. todo.items ≡ before depth parts.now) }
{
    if parts.cause == 0 {
        return context_first(alloc, depth, parts);
    }
    let mut todo = Vec::new(alloc);
    todo.push(Todo::Show {
        depth,
        addr: parts.cause,
    })?;
    todo.push(Todo::Say(Line::Cause { depth }))?;
    Ok(todo)
}

/// Exceptions at some addresses, all at one depth.
fn show_each(alloc: Global, depth: u64, addrs: &[u64]) -> Result<Vec<Todo>, AllocError>
    ensures { IfOk result (λ todo. todo.items ≡ map (show depth) addrs.now) }
{
    let mut todo = Vec::new(alloc);
    for addr in addrs {
        todo.push(Todo::Show { depth, addr: *addr })?;
    }
    Ok(todo)
}

/// What stands behind an exception: its members.
fn after(alloc: Global, depth: u64, members: &Members) -> Result<Vec<Todo>, AllocError>
    ensures { IfOk result (λ todo. todo.items ≡ after depth members.now) }
{
    match members {
        Members::Group(group) => show_each(alloc, deeper(depth), &group.members),
        Members::NoGroup => Ok(Vec::new(alloc)),
        Members::Unreadable(_) => Ok(Vec::new(alloc)),
    }
}

/// An exception with what stands before it and behind it.
fn leads(
    alloc: Global,
    depth: u64,
    number: usize,
    parts: &Parts,
    members: &Members,
) -> Result<Vec<Todo>, AllocError>
    ensures { IfOk result (λ todo. todo.items ≡ leads depth number parts.now members.now) }
{
    let mut todo = before(alloc, depth, parts)?;
    let behind = after(alloc, depth, members)?;
    todo.push(Todo::Say(Line::Own { depth, number }))?;
    todo.extend_from_slice(&behind)?;
    Ok(todo)
}

/// One line.
fn only(alloc: Global, line: Line) -> Result<Vec<Todo>, AllocError>
    ensures { IfOk result (λ todo. todo.items ≡ say line ∷ []) }
{
    let mut todo = Vec::new(alloc);
    todo.push(Todo::Say(line))?;
    Ok(todo)
}

/// What is shown of an object.
fn expand_at(alloc: Global, depth: u64, number: usize, what: &What) -> Result<Vec<Todo>, AllocError>
    ensures { IfOk result (λ todo. todo.items ≡ expand_at depth number what.now) }
{
    match what {
        What::Exception { parts, members } => leads(alloc, depth, number, parts, members),
        What::Other => only(alloc, Line::Own { depth, number }),
        What::Unreadable(_) => only(alloc, Line::Own { depth, number }),
    }
}

/// Whether an object stands at an address.
fn is_at(addr: u64, one: &Met) -> bool
    ensures { result ≡ is_at addr one.now }
{
    one.addr == addr
}

/// The number of the object at an address.
pub(crate) fn place_of(met: &[Met], addr: u64) -> Option<usize>
    ensures { result ≡ position (is_at addr) met.now }
{
    met.iter().position(|one| is_at(addr, one))
}

/// What is shown of the object at an address.
fn expand(alloc: Global, met: &[Met], depth: u64, addr: u64) -> Result<Vec<Todo>, AllocError>
    ensures { IfOk result (λ todo. todo.items ≡ expand met.now depth addr) }
{
    let Some(number) = place_of(met, addr) else {
        return only(alloc, Line::Untold { depth, addr });
    };
    match met.get(number) {
        Some(one) => expand_at(alloc, depth, number, &one.what),
        None => only(alloc, Line::Untold { depth, addr }),
    }
}

/// Puts what is to be shown next in front.
fn put_front(todo: &mut Vec<Todo>, mut next: Vec<Todo>) -> Result<(), AllocError>
    ensures { OnOk result (reverse todo.new.items ≡ next.items ++ reverse todo.old.items) }
{
    next.reverse();
    todo.extend_from_slice(&next)
}

/// Takes what is to be shown next.
fn take_front(todo: &mut Vec<Todo>) -> Option<Todo>
    ensures { Takes result (reverse todo.old.items) (reverse todo.new.items) }
{
    todo.pop()
}

/// Whether an exception has its lines.
fn has(seen: &[u64], addr: u64) -> bool
    ensures { result ≡ has seen.now addr }
{
    seen.iter().any(|one| *one == addr)
}

/// Shows the exception at an address, unless it has its lines.
fn show_one(
    alloc: Global,
    met: &[Met],
    plan: &mut Plan,
    depth: u64,
    addr: u64,
) -> Result<(), AllocError>
    ensures { OnOk result (state_of plan.new ≡ turn met.now (show depth addr) (state_of plan.old)) }
{
    if has(&plan.seen, addr) {
        plan.lines.push(Line::Again { depth, addr })?;
        return Ok(());
    }
    let next = expand(alloc, met, depth, addr)?;
    put_front(&mut plan.todo, next)?;
    plan.seen.push(addr)?;
    Ok(())
}

/// Does what is to be done next.
fn turn(alloc: Global, met: &[Met], plan: &mut Plan, todo: Todo) -> Result<(), AllocError>
    ensures { OnOk result (state_of plan.new ≡ turn met.now todo (state_of plan.old)) }
{
    match todo {
        Todo::Show { depth, addr } => show_one(alloc, met, plan, depth, addr),
        Todo::Say(line) => {
            plan.lines.push(line)?;
            Ok(())
        }
    }
}

/// Takes what is to be done next, and does it.
fn step(alloc: Global, met: &[Met], plan: &mut Plan) -> Result<(), AllocError>
    ensures { OnOk result (state_of plan.new ≡ step met.now (state_of plan.old)) }
{
    match take_front(&mut plan.todo) {
        Some(todo) => turn(alloc, met, plan, todo),
        None => Ok(()),
    }
}

/// So many steps.
fn steps(alloc: Global, met: &[Met], plan: &mut Plan, count: usize) -> Result<(), AllocError>
    ensures { OnOk result (state_of plan.new ≡ turns met.now count (state_of plan.old)) }
{
    for _ in 0..count {
        step(alloc, met, plan)?;
    }
    Ok(())
}

/// The lines, and whether there are more.
fn finish(mut plan: Plan) -> Result<Vec<Line>, AllocError>
    ensures { IfOk result (λ lines. lines.items ≡ finish (state_of plan)) }
{
    if let Some(_) = take_front(&mut plan.todo) {
        plan.lines.push(Line::More)?;
    }
    let Plan { lines, .. } = plan;
    Ok(lines)
}

/// The lines of what is to be shown, in order.
pub(crate) fn lines_of(
    alloc: Global,
    met: &[Met],
    roots: Vec<Todo>,
) -> Result<Vec<Line>, AllocError>
    ensures { IfOk result (λ lines. lines.items ≡ lines_of met.now roots.items) }
{
    let mut plan = Plan {
        lines: Vec::new(alloc),
        todo: Vec::new(alloc),
        seen: Vec::new(alloc),
    };
    put_front(&mut plan.todo, roots)?;
    steps(alloc, met, &mut plan, LINE_LIMIT)?;
    finish(plan)
}
