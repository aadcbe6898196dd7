//! The keys of a table of records in a file, in the order in which they are looked at.
ghost use Rattle.std.specs.Prelude.{◌≡◌, ◌++◌, map, Option, Some, None, OnOk, IfOk};
ghost use Rattle.py_records.specs.Keys.{key_of, the_keys, own_keys, types_keys, containers_keys, scalars_keys};
ghost use Rattle.py_records.specs.Keys.{callables_keys, frames_keys, stacks_keys, coroutines_keys, tasks_keys};
ghost use Rattle.py_records.specs.Keys.{locks_keys, exceptions_keys, heap_keys};

use std::alloc::{AllocError, Global};

/// What a key holds.
#[derive(Clone, Copy)]
pub enum Kind {
    /// A number of a version: an integer of 0 to 999.
    Version,
    /// An offset, a size or another number of a group: an integer of 0 to 2^32 - 1.
    Number,
    /// A group, with keys of its own.
    Group,
}

/// When a key is there.
#[derive(Clone, Copy)]
pub enum Presence {
    /// Wherever the table, or the group, is that it stands in.
    Always,
    /// As the author likes.
    Free,
}

use Kind::{Group, Number, Version};
use Presence::{Always, Free};

/// A key of a table of records.
#[derive(Clone, Copy)]
pub struct Key {
    /// The group that it stands in, or `None` for the table itself.
    pub group: Option<&'static str>,
    pub name: &'static str,
    pub kind: Kind,
    pub presence: Presence,
}

/// A list of keys: in each line the group, the name, what it holds, and when it is there.
macro_rules! keys {
    ($($group:expr, $name:expr, $kind:expr, $presence:expr;)*) => {
        [$(Key { group: $group, name: $name, kind: $kind, presence: $presence }),*]
    };
}

static OWN: [Key; 4] = keys! {
    None, "major", Version, Always;
    None, "minor", Version, Always;
    None, "first_patch", Version, Always;
    None, "last_patch", Version, Always;
};

#[tactic(auto, unfolding(crate::specs::Keys::own_keys))]
fn own_keys() -> &'static [Key]
    ensures { map key_of result.now ≡ own_keys }
{
    &OWN
}

static TYPES: [Key; 54] = keys! {
    None, "type", Group, Free;
    Some("type"), "size", Number, Always;
    Some("type"), "basicsize", Number, Always;
    Some("type"), "itemsize", Number, Always;
    Some("type"), "repr", Number, Always;
    Some("type"), "str", Number, Always;
    Some("type"), "flags", Number, Always;
    Some("type"), "weaklist", Number, Always;
    Some("type"), "methods", Number, Always;
    Some("type"), "members", Number, Always;
    Some("type"), "getset", Number, Always;
    Some("type"), "base", Number, Always;
    Some("type"), "dict", Number, Always;
    Some("type"), "dictoffset", Number, Always;
    Some("type"), "bases", Number, Always;
    Some("type"), "mro", Number, Always;
    None, "heap_type", Group, Free;
    Some("heap_type"), "size", Number, Always;
    Some("heap_type"), "qualname", Number, Always;
    Some("heap_type"), "cached_keys", Number, Always;
    None, "slots", Group, Free;
    Some("slots"), "size", Number, Always;
    Some("slots"), "owner", Number, Always;
    Some("slots"), "name", Number, Always;
    Some("slots"), "member", Number, Always;
    None, "member", Group, Free;
    Some("member"), "size", Number, Always;
    Some("member"), "name", Number, Always;
    Some("member"), "kind", Number, Always;
    Some("member"), "offset", Number, Always;
    None, "instance_split", Group, Free;
    Some("instance_split"), "dict", Number, Always;
    Some("instance_split"), "values", Number, Always;
    Some("instance_split"), "managed_bit", Number, Always;
    None, "instance_tagged", Group, Free;
    Some("instance_tagged"), "word", Number, Always;
    Some("instance_tagged"), "tag", Number, Always;
    Some("instance_tagged"), "managed_bit", Number, Always;
    Some("instance_tagged"), "weakref_bit", Number, Always;
    None, "instance_inline", Group, Free;
    Some("instance_inline"), "dict", Number, Always;
    Some("instance_inline"), "managed_bit", Number, Always;
    Some("instance_inline"), "weakref_bit", Number, Always;
    Some("instance_inline"), "inline_bit", Number, Always;
    None, "values", Group, Free;
    Some("values"), "size", Number, Always;
    Some("values"), "capacity", Number, Always;
    Some("values"), "used", Number, Always;
    Some("values"), "embedded", Number, Always;
    Some("values"), "valid", Number, Always;
    Some("values"), "items", Number, Always;
    None, "values_before", Group, Free;
    Some("values_before"), "prefix", Number, Always;
    Some("values_before"), "used", Number, Always;
};

#[tactic(auto, unfolding(crate::specs::Keys::types_keys))]
fn types_keys() -> &'static [Key]
    ensures { map key_of result.now ≡ types_keys }
{
    &TYPES
}

static CONTAINERS: [Key; 47] = keys! {
    None, "set", Group, Free;
    Some("set"), "size", Number, Always;
    Some("set"), "used", Number, Always;
    Some("set"), "mask", Number, Always;
    Some("set"), "table", Number, Always;
    Some("set"), "small_table", Number, Always;
    None, "set_entry", Group, Free;
    Some("set_entry"), "size", Number, Always;
    Some("set_entry"), "key", Number, Always;
    Some("set_entry"), "hash", Number, Always;
    None, "list", Group, Free;
    Some("list"), "size", Number, Always;
    Some("list"), "allocated", Number, Always;
    None, "dict", Group, Free;
    Some("dict"), "size", Number, Always;
    Some("dict"), "used", Number, Always;
    None, "keys", Group, Free;
    Some("keys"), "usable", Number, Always;
    None, "keys_log2", Group, Free;
    Some("keys_log2"), "slots", Number, Always;
    None, "ordered_dict", Group, Free;
    Some("ordered_dict"), "size", Number, Always;
    Some("ordered_dict"), "nodes", Number, Always;
    Some("ordered_dict"), "nodes_size", Number, Always;
    Some("ordered_dict"), "first", Number, Always;
    Some("ordered_dict"), "last", Number, Always;
    None, "ordered_node", Group, Free;
    Some("ordered_node"), "size", Number, Always;
    Some("ordered_node"), "key", Number, Always;
    Some("ordered_node"), "hash", Number, Always;
    Some("ordered_node"), "next", Number, Always;
    Some("ordered_node"), "previous", Number, Always;
    None, "default_dict", Group, Free;
    Some("default_dict"), "size", Number, Always;
    Some("default_dict"), "factory", Number, Always;
    None, "deque", Group, Free;
    Some("deque"), "size", Number, Always;
    Some("deque"), "count", Number, Always;
    Some("deque"), "left_block", Number, Always;
    Some("deque"), "right_block", Number, Always;
    Some("deque"), "left_index", Number, Always;
    Some("deque"), "right_index", Number, Always;
    None, "deque_block", Group, Free;
    Some("deque_block"), "size", Number, Always;
    Some("deque_block"), "left", Number, Always;
    Some("deque_block"), "items", Number, Always;
    Some("deque_block"), "right", Number, Always;
};

#[tactic(auto, unfolding(crate::specs::Keys::containers_keys))]
fn containers_keys() -> &'static [Key]
    ensures { map key_of result.now ≡ containers_keys }
{
    &CONTAINERS
}

static SCALARS: [Key; 48] = keys! {
    None, "bytearray", Group, Free;
    Some("bytearray"), "size", Number, Always;
    Some("bytearray"), "count", Number, Always;
    Some("bytearray"), "allocated", Number, Always;
    Some("bytearray"), "bytes", Number, Always;
    Some("bytearray"), "start", Number, Always;
    None, "complex", Group, Free;
    Some("complex"), "size", Number, Always;
    Some("complex"), "real", Number, Always;
    Some("complex"), "imag", Number, Always;
    None, "range", Group, Free;
    Some("range"), "size", Number, Always;
    Some("range"), "start", Number, Always;
    Some("range"), "stop", Number, Always;
    Some("range"), "step", Number, Always;
    Some("range"), "length", Number, Always;
    None, "slice", Group, Free;
    Some("slice"), "size", Number, Always;
    Some("slice"), "start", Number, Always;
    Some("slice"), "stop", Number, Always;
    Some("slice"), "step", Number, Always;
    None, "decimal", Group, Free;
    Some("decimal"), "size", Number, Always;
    Some("decimal"), "flags", Number, Always;
    Some("decimal"), "exponent", Number, Always;
    Some("decimal"), "digits", Number, Always;
    Some("decimal"), "words", Number, Always;
    Some("decimal"), "data", Number, Always;
    None, "date", Group, Free;
    Some("date"), "size", Number, Always;
    Some("date"), "data", Number, Always;
    None, "time", Group, Free;
    Some("time"), "size", Number, Always;
    Some("time"), "has_zone", Number, Always;
    Some("time"), "data", Number, Always;
    Some("time"), "fold", Number, Always;
    Some("time"), "zone", Number, Always;
    None, "datetime", Group, Free;
    Some("datetime"), "size", Number, Always;
    Some("datetime"), "has_zone", Number, Always;
    Some("datetime"), "data", Number, Always;
    Some("datetime"), "fold", Number, Always;
    Some("datetime"), "zone", Number, Always;
    None, "timedelta", Group, Free;
    Some("timedelta"), "size", Number, Always;
    Some("timedelta"), "days", Number, Always;
    Some("timedelta"), "seconds", Number, Always;
    Some("timedelta"), "microseconds", Number, Always;
};

#[tactic(auto, unfolding(crate::specs::Keys::scalars_keys))]
fn scalars_keys() -> &'static [Key]
    ensures { map key_of result.now ≡ scalars_keys }
{
    &SCALARS
}

static CALLABLES: [Key; 37] = keys! {
    None, "partial", Group, Free;
    Some("partial"), "size", Number, Always;
    Some("partial"), "function", Number, Always;
    Some("partial"), "args", Number, Always;
    Some("partial"), "keywords", Number, Always;
    None, "module", Group, Free;
    Some("module"), "size", Number, Always;
    Some("module"), "dict", Number, Always;
    Some("module"), "name", Number, Always;
    None, "function", Group, Free;
    Some("function"), "size", Number, Always;
    Some("function"), "code", Number, Always;
    Some("function"), "globals", Number, Always;
    Some("function"), "name", Number, Always;
    Some("function"), "qualname", Number, Always;
    Some("function"), "closure", Number, Always;
    Some("function"), "dict", Number, Always;
    Some("function"), "module", Number, Always;
    None, "method", Group, Free;
    Some("method"), "size", Number, Always;
    Some("method"), "function", Number, Always;
    Some("method"), "self", Number, Always;
    None, "builtin", Group, Free;
    Some("builtin"), "size", Number, Always;
    Some("builtin"), "def", Number, Always;
    Some("builtin"), "self", Number, Always;
    Some("builtin"), "module", Number, Always;
    None, "method_def", Group, Free;
    Some("method_def"), "size", Number, Always;
    Some("method_def"), "name", Number, Always;
    None, "cell", Group, Free;
    Some("cell"), "size", Number, Always;
    Some("cell"), "value", Number, Always;
    None, "weakref", Group, Free;
    Some("weakref"), "size", Number, Always;
    Some("weakref"), "object", Number, Always;
    Some("weakref"), "callback", Number, Always;
};

#[tactic(auto, unfolding(crate::specs::Keys::callables_keys))]
fn callables_keys() -> &'static [Key]
    ensures { map key_of result.now ≡ callables_keys }
{
    &CALLABLES
}

static FRAMES: [Key; 34] = keys! {
    None, "code", Group, Free;
    Some("code"), "size", Number, Always;
    Some("code"), "flags", Number, Always;
    Some("code"), "stack_size", Number, Always;
    None, "code_names", Group, Free;
    Some("code_names"), "bytecode", Number, Always;
    Some("code_names"), "cells", Number, Always;
    Some("code_names"), "frees", Number, Always;
    None, "code_kinds", Group, Free;
    Some("code_kinds"), "count", Number, Always;
    Some("code_kinds"), "kinds", Number, Always;
    Some("code_kinds"), "qualname", Number, Always;
    None, "frame_object", Group, Free;
    Some("frame_object"), "size", Number, Always;
    Some("frame_object"), "frame", Number, Always;
    None, "owner", Group, Free;
    Some("owner"), "place", Number, Always;
    Some("owner"), "thread", Number, Always;
    Some("owner"), "generator", Number, Always;
    Some("owner"), "frame_object", Number, Always;
    None, "shim", Group, Free;
    Some("shim"), "owner", Number, Always;
    None, "entry", Group, Free;
    Some("entry"), "place", Number, Always;
    None, "cframe", Group, Free;
    Some("cframe"), "size", Number, Always;
    Some("cframe"), "current", Number, Always;
    Some("cframe"), "previous", Number, Always;
    None, "traceback", Group, Free;
    Some("traceback"), "size", Number, Always;
    Some("traceback"), "next", Number, Always;
    Some("traceback"), "frame", Number, Always;
    Some("traceback"), "lasti", Number, Always;
    Some("traceback"), "line", Number, Always;
};

#[tactic(auto, unfolding(crate::specs::Keys::frames_keys))]
fn frames_keys() -> &'static [Key]
    ensures { map key_of result.now ≡ frames_keys }
{
    &FRAMES
}

static STACKS: [Key; 20] = keys! {
    None, "stack_pointer", Group, Free;
    Some("stack_pointer"), "bottom", Number, Always;
    Some("stack_pointer"), "top", Number, Always;
    None, "stack_depth", Group, Free;
    Some("stack_depth"), "bottom", Number, Always;
    Some("stack_depth"), "depth", Number, Always;
    Some("stack_depth"), "state", Number, Always;
    None, "stack_count", Group, Free;
    Some("stack_count"), "top", Number, Always;
    None, "states", Group, Free;
    Some("states"), "created", Number, Always;
    Some("states"), "suspended", Number, Always;
    Some("states"), "running", Number, Always;
    None, "awaiting_state", Group, Free;
    Some("awaiting_state"), "state", Number, Always;
    None, "yield_from", Group, Free;
    Some("yield_from"), "opcode", Number, Always;
    None, "resume", Group, Free;
    Some("resume"), "first", Number, Always;
    Some("resume"), "second", Number, Always;
};

#[tactic(auto, unfolding(crate::specs::Keys::stacks_keys))]
fn stacks_keys() -> &'static [Key]
    ensures { map key_of result.now ≡ stacks_keys }
{
    &STACKS
}

static COROUTINES: [Key; 33] = keys! {
    None, "generator", Group, Free;
    Some("generator"), "size", Number, Always;
    Some("generator"), "name", Number, Always;
    Some("generator"), "qualname", Number, Always;
    None, "coroutine", Group, Free;
    Some("coroutine"), "size", Number, Always;
    Some("coroutine"), "name", Number, Always;
    Some("coroutine"), "qualname", Number, Always;
    None, "async_generator", Group, Free;
    Some("async_generator"), "size", Number, Always;
    Some("async_generator"), "name", Number, Always;
    Some("async_generator"), "qualname", Number, Always;
    None, "generator_frame", Group, Free;
    Some("generator_frame"), "frame", Number, Always;
    None, "generator_running", Group, Free;
    Some("generator_running"), "running", Number, Always;
    None, "generator_inside", Group, Free;
    Some("generator_inside"), "frame", Number, Always;
    Some("generator_inside"), "state", Number, Always;
    None, "generator_handled", Group, Free;
    Some("generator_handled"), "item", Number, Always;
    None, "coroutine_wrapper", Group, Free;
    Some("coroutine_wrapper"), "size", Number, Always;
    Some("coroutine_wrapper"), "held", Number, Always;
    None, "asend", Group, Free;
    Some("asend"), "size", Number, Always;
    Some("asend"), "held", Number, Always;
    None, "athrow", Group, Free;
    Some("athrow"), "size", Number, Always;
    Some("athrow"), "held", Number, Always;
    None, "anext_awaitable", Group, Free;
    Some("anext_awaitable"), "size", Number, Always;
    Some("anext_awaitable"), "held", Number, Always;
};

#[tactic(auto, unfolding(crate::specs::Keys::coroutines_keys))]
fn coroutines_keys() -> &'static [Key]
    ensures { map key_of result.now ≡ coroutines_keys }
{
    &COROUTINES
}

static TASKS: [Key; 33] = keys! {
    None, "future", Group, Free;
    Some("future"), "size", Number, Always;
    Some("future"), "loop", Number, Always;
    Some("future"), "callback0", Number, Always;
    Some("future"), "callbacks", Number, Always;
    Some("future"), "exception", Number, Always;
    Some("future"), "result", Number, Always;
    Some("future"), "state", Number, Always;
    None, "task", Group, Free;
    Some("task"), "size", Number, Always;
    Some("task"), "waiter", Number, Always;
    Some("task"), "coro", Number, Always;
    Some("task"), "cancel", Number, Always;
    Some("task"), "cancel_bit", Number, Always;
    None, "task_name", Group, Free;
    Some("task_name"), "name", Number, Always;
    None, "future_iter", Group, Free;
    Some("future_iter"), "size", Number, Always;
    Some("future_iter"), "held", Number, Always;
    None, "task_step", Group, Free;
    Some("task_step"), "size", Number, Always;
    Some("task_step"), "held", Number, Always;
    None, "task_wakeup", Group, Free;
    Some("task_wakeup"), "size", Number, Always;
    Some("task_wakeup"), "held", Number, Always;
    None, "handle", Group, Free;
    Some("handle"), "size", Number, Always;
    Some("handle"), "args", Number, Always;
    Some("handle"), "callback", Number, Always;
    Some("handle"), "cancelled", Number, Always;
    None, "timer_handle", Group, Free;
    Some("timer_handle"), "size", Number, Always;
    Some("timer_handle"), "when", Number, Always;
};

#[tactic(auto, unfolding(crate::specs::Keys::tasks_keys))]
fn tasks_keys() -> &'static [Key]
    ensures { map key_of result.now ≡ tasks_keys }
{
    &TASKS
}

static LOCKS: [Key; 23] = keys! {
    None, "lock", Group, Free;
    Some("lock"), "size", Number, Always;
    Some("lock"), "semaphore", Number, Always;
    Some("lock"), "locked", Number, Always;
    None, "lock_mutex", Group, Free;
    Some("lock_mutex"), "size", Number, Always;
    Some("lock_mutex"), "mutex", Number, Always;
    None, "rlock", Group, Free;
    Some("rlock"), "size", Number, Always;
    Some("rlock"), "semaphore", Number, Always;
    Some("rlock"), "owner", Number, Always;
    Some("rlock"), "count", Number, Always;
    None, "simple_queue", Group, Free;
    Some("simple_queue"), "size", Number, Always;
    Some("simple_queue"), "semaphore", Number, Always;
    None, "simple_queue_parked", Group, Free;
    Some("simple_queue_parked"), "size", Number, Always;
    Some("simple_queue_parked"), "waiting", Number, Always;
    None, "runtime_lock", Group, Free;
    Some("runtime_lock"), "size", Number, Always;
    Some("runtime_lock"), "place", Number, Always;
    None, "interpreter_lock", Group, Free;
    Some("interpreter_lock"), "size", Number, Always;
};

#[tactic(auto, unfolding(crate::specs::Keys::locks_keys))]
fn locks_keys() -> &'static [Key]
    ensures { map key_of result.now ≡ locks_keys }
{
    &LOCKS
}

static EXCEPTIONS: [Key; 50] = keys! {
    None, "exception", Group, Free;
    Some("exception"), "size", Number, Always;
    Some("exception"), "dict", Number, Always;
    Some("exception"), "args", Number, Always;
    Some("exception"), "traceback", Number, Always;
    Some("exception"), "context", Number, Always;
    Some("exception"), "cause", Number, Always;
    Some("exception"), "suppress_context", Number, Always;
    None, "os_error", Group, Free;
    Some("os_error"), "size", Number, Always;
    Some("os_error"), "errno", Number, Always;
    Some("os_error"), "strerror", Number, Always;
    Some("os_error"), "filename", Number, Always;
    Some("os_error"), "filename2", Number, Always;
    None, "syntax_error", Group, Free;
    Some("syntax_error"), "size", Number, Always;
    Some("syntax_error"), "msg", Number, Always;
    Some("syntax_error"), "filename", Number, Always;
    Some("syntax_error"), "line", Number, Always;
    None, "unicode_error", Group, Free;
    Some("unicode_error"), "size", Number, Always;
    Some("unicode_error"), "encoding", Number, Always;
    Some("unicode_error"), "object", Number, Always;
    Some("unicode_error"), "start", Number, Always;
    Some("unicode_error"), "end", Number, Always;
    Some("unicode_error"), "reason", Number, Always;
    None, "import_error", Group, Free;
    Some("import_error"), "size", Number, Always;
    Some("import_error"), "msg", Number, Always;
    Some("import_error"), "name", Number, Always;
    None, "exception_group", Group, Free;
    Some("exception_group"), "size", Number, Always;
    Some("exception_group"), "msg", Number, Always;
    Some("exception_group"), "excs", Number, Always;
    None, "item", Group, Free;
    Some("item"), "size", Number, Always;
    Some("item"), "value", Number, Always;
    Some("item"), "previous", Number, Always;
    None, "item_parts", Group, Free;
    Some("item_parts"), "type", Number, Always;
    Some("item_parts"), "traceback", Number, Always;
    None, "raised_parts", Group, Free;
    Some("raised_parts"), "type", Number, Always;
    Some("raised_parts"), "value", Number, Always;
    Some("raised_parts"), "traceback", Number, Always;
    None, "raised", Group, Free;
    Some("raised"), "exception", Number, Always;
    None, "handled", Group, Free;
    Some("handled"), "newest", Number, Always;
    Some("handled"), "oldest", Number, Always;
};

#[tactic(auto, unfolding(crate::specs::Keys::exceptions_keys))]
fn exceptions_keys() -> &'static [Key]
    ensures { map key_of result.now ≡ exceptions_keys }
{
    &EXCEPTIONS
}

static HEAP: [Key; 38] = keys! {
    None, "interpreter", Group, Free;
    Some("interpreter"), "next", Number, Always;
    None, "runtime_collector", Group, Free;
    Some("runtime_collector"), "generations", Number, Always;
    Some("runtime_collector"), "permanent", Number, Always;
    Some("runtime_collector"), "collecting", Number, Always;
    None, "collector", Group, Free;
    Some("collector"), "generations", Number, Always;
    Some("collector"), "permanent", Number, Always;
    Some("collector"), "collecting", Number, Always;
    None, "generation", Group, Free;
    Some("generation"), "size", Number, Always;
    Some("generation"), "count", Number, Always;
    None, "gc_head", Group, Free;
    Some("gc_head"), "size", Number, Always;
    Some("gc_head"), "next", Number, Always;
    Some("gc_head"), "previous", Number, Always;
    Some("gc_head"), "marks", Number, Always;
    None, "arena", Group, Free;
    Some("arena"), "size", Number, Always;
    Some("arena"), "address", Number, Always;
    Some("arena"), "pool", Number, Always;
    Some("arena"), "free", Number, Always;
    Some("arena"), "pools", Number, Always;
    None, "pool", Group, Free;
    Some("pool"), "size", Number, Always;
    Some("pool"), "bytes", Number, Always;
    Some("pool"), "count", Number, Always;
    Some("pool"), "free_block", Number, Always;
    Some("pool"), "size_class", Number, Always;
    Some("pool"), "next_offset", Number, Always;
    None, "arenas_inside", Group, Free;
    Some("arenas_inside"), "arenas", Number, Always;
    Some("arenas_inside"), "count", Number, Always;
    None, "arenas_behind", Group, Free;
    Some("arenas_behind"), "state", Number, Always;
    Some("arenas_behind"), "arenas", Number, Always;
    Some("arenas_behind"), "count", Number, Always;
};

#[tactic(auto, unfolding(crate::specs::Keys::heap_keys))]
fn heap_keys() -> &'static [Key]
    ensures { map key_of result.now ≡ heap_keys }
{
    &HEAP
}

/// Puts keys behind others. The one error is out of memory.
fn push_keys(keys: &mut Vec<Key>, more: &[Key]) -> Result<(), AllocError>
    ensures { OnOk result (map key_of keys.new.items ≡ map key_of keys.old.items ++ map key_of more.now) }
{
    for key in more {
        keys.push(*key)?;
    }
    Ok(())
}

/// All keys, in the order in which they are looked at. The one error is out of memory.
pub fn keys(alloc: Global) -> Result<Vec<Key>, AllocError>
    ensures { IfOk result (λ keys. map key_of keys.items ≡ the_keys) }
{
    let mut keys = Vec::new(alloc);
    push_keys(&mut keys, own_keys())?;
    push_keys(&mut keys, types_keys())?;
    push_keys(&mut keys, containers_keys())?;
    push_keys(&mut keys, scalars_keys())?;
    push_keys(&mut keys, callables_keys())?;
    push_keys(&mut keys, frames_keys())?;
    push_keys(&mut keys, stacks_keys())?;
    push_keys(&mut keys, coroutines_keys())?;
    push_keys(&mut keys, tasks_keys())?;
    push_keys(&mut keys, locks_keys())?;
    push_keys(&mut keys, exceptions_keys())?;
    push_keys(&mut keys, heap_keys())?;
    Ok(keys)
}
