//! Where the objects are: the garbage collector and the arenas.
ghost use Rattle.std.specs.Prelude.{◌≡◌, ◌↔◌, IsTrue, IfSome, option_map, codes, Some, None};
ghost use Rattle.toml.specs.View.{table_view};
ghost use Rattle.py_layout.specs.Values.{group_at};
ghost use Rattle.py_records.specs.Heap.{IsSoundInterpreter, interpreter_in, IsSoundCollector, collector_in};
ghost use Rattle.py_records.specs.Heap.{generation_places, IsSoundGeneration, generation_in, gc_head_places};
ghost use Rattle.py_records.specs.Heap.{IsSoundGcHead, gc_head_in, arena_places, IsSoundArena, arena_in, pool_places};
ghost use Rattle.py_records.specs.Heap.{IsSoundPool, pool_in, IsSoundArenasInside, arenas_inside_in};
ghost use Rattle.py_records.specs.Heap.{IsSoundArenasBehind, arenas_behind_in, heap_from, AreSoundHeap, joined_heap};
ghost use Rattle.py_records.specs.Heap.{share_heap, no_heap};

use crate::places::{any_both, are_plain, is_record};
use crate::values::{group_at, number_in};
use toml::Table;

/// An interpreter (`PyInterpreterState`, Include/internal/pycore_interp.h).
#[derive(Clone, Copy)]
pub struct InterpreterRecord {
    /// The address of the next interpreter.
    pub next: u32,
}

/// The state of the garbage collector (`struct _gc_runtime_state`): places in the record that has it inside.
#[derive(Clone, Copy)]
pub struct CollectorRecord {
    /// Where the three generations begin.
    pub generations: u32,
    /// Where the permanent generation begins.
    pub permanent: u32,
    /// Whether it collects. It has 4 bytes.
    pub collecting: u32,
}

/// A generation (`struct gc_generation`, Include/internal/pycore_gc.h).
#[derive(Clone, Copy)]
pub struct GenerationRecord {
    /// Also the step of the generations. The head of its list is its first field.
    pub size: u32,
    /// The collector's counter. It has 4 bytes.
    pub count: u32,
}

/// What stands before an object that the collector knows (`PyGC_Head`, Include/objimpl.h).
#[derive(Clone, Copy)]
pub struct GcHeadRecord {
    /// The object begins behind it.
    pub size: u32,
    /// The address of the next head, with marks.
    pub next: u32,
    /// The address of the head before, with marks.
    pub previous: u32,
    /// How many of the lowest bits of both are marks.
    pub marks: u32,
}

/// An arena (`struct arena_object`, Objects/obmalloc.c).
#[derive(Clone, Copy)]
pub struct ArenaRecord {
    pub size: u32,
    /// The address of its memory.
    pub address: u32,
    /// The address of the first pool that was never used.
    pub pool: u32,
    /// How many pools are free. It has 4 bytes.
    pub free: u32,
    /// How many pools it has. It has 4 bytes.
    pub pools: u32,
}

/// The header of a pool (`struct pool_header`, Objects/obmalloc.c).
#[derive(Clone, Copy)]
pub struct PoolRecord {
    pub size: u32,
    /// How many bytes a pool has, with its header.
    pub bytes: u32,
    /// How many blocks are in use. It has 4 bytes.
    pub count: u32,
    /// The address of the first free block.
    pub free_block: u32,
    /// The class of its blocks' size. It has 4 bytes.
    pub size_class: u32,
    /// Where the first block is that was never used. It has 4 bytes.
    pub next_offset: u32,
}

/// The arenas of 3.12, in the interpreter (`struct _obmalloc_mgmt`, Include/internal/pycore_obmalloc.h).
#[derive(Clone, Copy)]
pub struct ArenasInsideRecord {
    /// The address of the table of arenas.
    pub arenas: u32,
    /// How many the table has room for. It has 4 bytes.
    pub count: u32,
}

/// The arenas of 3.13 (`struct _obmalloc_state`, Include/internal/pycore_obmalloc.h).
#[derive(Clone, Copy)]
pub struct ArenasBehindRecord {
    /// Where in the interpreter the address of the state stands.
    pub state: u32,
    /// Where in the state the address of the table of arenas stands.
    pub arenas: u32,
    /// Where in the state it stands how many the table has room for. It has 4 bytes.
    pub count: u32,
}

/// Where the objects are: the garbage collector and the arenas. Each group is there or not.
#[derive(Clone, Copy)]
pub struct HeapRecords {
    pub interpreter: Option<InterpreterRecord>,
    /// The collector of 3.7 and 3.8, in the runtime record (`_PyRuntimeState`,
    /// Include/internal/pycore_pystate.h).
    pub runtime_collector: Option<CollectorRecord>,
    pub collector: Option<CollectorRecord>,
    pub generation: Option<GenerationRecord>,
    pub gc_head: Option<GcHeadRecord>,
    pub arena: Option<ArenaRecord>,
    pub pool: Option<PoolRecord>,
    pub arenas_inside: Option<ArenasInsideRecord>,
    pub arenas_behind: Option<ArenasBehindRecord>,
}

fn interpreter_from(table: &Table) -> Option<InterpreterRecord>
    ensures { result ≡ option_map interpreter_in (group_at (table_view table.now) (codes "interpreter")) }
{
    match group_at(table, "interpreter") {
        Some(group) => Some(InterpreterRecord {
            next: number_in(group, "next"),
        }),
        None => None,
    }
}

fn is_sound_interpreter(at: Option<InterpreterRecord>) -> bool
    ensures { IsTrue result ↔ IfSome at IsSoundInterpreter }
{
    match at {
        Some(at) => are_plain(&[at.next]),
        None => true,
    }
}

fn collector_from(table: &Table, name: &str) -> Option<CollectorRecord>
    ensures { result ≡ option_map collector_in (group_at (table_view table.now) name.now) }
{
    match group_at(table, name) {
        Some(group) => Some(CollectorRecord {
            generations: number_in(group, "generations"),
            permanent: number_in(group, "permanent"),
            collecting: number_in(group, "collecting"),
        }),
        None => None,
    }
}

fn is_sound_collector(at: Option<CollectorRecord>) -> bool
    ensures { IsTrue result ↔ IfSome at IsSoundCollector }
{
    match at {
        Some(at) => are_plain(&[at.generations, at.permanent, at.collecting]),
        None => true,
    }
}

fn generation_from(table: &Table) -> Option<GenerationRecord>
    ensures { result ≡ option_map generation_in (group_at (table_view table.now) (codes "generation")) }
{
    match group_at(table, "generation") {
        Some(group) => Some(GenerationRecord {
            size: number_in(group, "size"),
            count: number_in(group, "count"),
        }),
        None => None,
    }
}

#[tactic(auto, unfolding(crate::specs::Heap::generation_places))]
fn is_sound_generation(at: Option<GenerationRecord>) -> bool
    ensures { IsTrue result ↔ IfSome at IsSoundGeneration }
{
    match at {
        Some(at) => is_record(at.size, &[(at.count, 4)]),
        None => true,
    }
}

fn gc_head_from(table: &Table) -> Option<GcHeadRecord>
    ensures { result ≡ option_map gc_head_in (group_at (table_view table.now) (codes "gc_head")) }
{
    match group_at(table, "gc_head") {
        Some(group) => Some(GcHeadRecord {
            size: number_in(group, "size"),
            next: number_in(group, "next"),
            previous: number_in(group, "previous"),
            marks: number_in(group, "marks"),
        }),
        None => None,
    }
}

#[tactic(auto, unfolding(crate::specs::Heap::gc_head_places))]
fn is_sound_gc_head(at: Option<GcHeadRecord>) -> bool
    ensures { IsTrue result ↔ IfSome at IsSoundGcHead }
{
    match at {
        Some(at) => is_record(at.size, &[(at.next, 8), (at.previous, 8)]) && are_plain(&[at.marks]),
        None => true,
    }
}

fn arena_from(table: &Table) -> Option<ArenaRecord>
    ensures { result ≡ option_map arena_in (group_at (table_view table.now) (codes "arena")) }
{
    match group_at(table, "arena") {
        Some(group) => Some(ArenaRecord {
            size: number_in(group, "size"),
            address: number_in(group, "address"),
            pool: number_in(group, "pool"),
            free: number_in(group, "free"),
            pools: number_in(group, "pools"),
        }),
        None => None,
    }
}

#[tactic(auto, unfolding(crate::specs::Heap::arena_places))]
fn is_sound_arena(at: Option<ArenaRecord>) -> bool
    ensures { IsTrue result ↔ IfSome at IsSoundArena }
{
    match at {
        Some(at) => is_record(
            at.size,
            &[(at.address, 8), (at.pool, 8), (at.free, 4), (at.pools, 4)],
        ),
        None => true,
    }
}

fn pool_from(table: &Table) -> Option<PoolRecord>
    ensures { result ≡ option_map pool_in (group_at (table_view table.now) (codes "pool")) }
{
    match group_at(table, "pool") {
        Some(group) => Some(PoolRecord {
            size: number_in(group, "size"),
            bytes: number_in(group, "bytes"),
            count: number_in(group, "count"),
            free_block: number_in(group, "free_block"),
            size_class: number_in(group, "size_class"),
            next_offset: number_in(group, "next_offset"),
        }),
        None => None,
    }
}

#[tactic(auto, unfolding(crate::specs::Heap::pool_places))]
fn is_sound_pool(at: Option<PoolRecord>) -> bool
    ensures { IsTrue result ↔ IfSome at IsSoundPool }
{
    match at {
        Some(at) => is_record(
            at.size,
            &[
                (at.count, 4),
                (at.free_block, 8),
                (at.size_class, 4),
                (at.next_offset, 4),
            ],
        ) && are_plain(&[at.bytes]),
        None => true,
    }
}

fn arenas_inside_from(table: &Table) -> Option<ArenasInsideRecord>
    ensures { result ≡ option_map arenas_inside_in (group_at (table_view table.now) (codes "arenas_inside")) }
{
    match group_at(table, "arenas_inside") {
        Some(group) => Some(ArenasInsideRecord {
            arenas: number_in(group, "arenas"),
            count: number_in(group, "count"),
        }),
        None => None,
    }
}

fn is_sound_arenas_inside(at: Option<ArenasInsideRecord>) -> bool
    ensures { IsTrue result ↔ IfSome at IsSoundArenasInside }
{
    match at {
        Some(at) => are_plain(&[at.arenas, at.count]),
        None => true,
    }
}

fn arenas_behind_from(table: &Table) -> Option<ArenasBehindRecord>
    ensures { result ≡ option_map arenas_behind_in (group_at (table_view table.now) (codes "arenas_behind")) }
{
    match group_at(table, "arenas_behind") {
        Some(group) => Some(ArenasBehindRecord {
            state: number_in(group, "state"),
            arenas: number_in(group, "arenas"),
            count: number_in(group, "count"),
        }),
        None => None,
    }
}

fn is_sound_arenas_behind(at: Option<ArenasBehindRecord>) -> bool
    ensures { IsTrue result ↔ IfSome at IsSoundArenasBehind }
{
    match at {
        Some(at) => are_plain(&[at.state, at.arenas, at.count]),
        None => true,
    }
}

/// The groups that a table says.
#[tactic(auto, unfolding(crate::specs::Heap::heap_from))]
pub fn heap_from(table: &Table) -> HeapRecords
    ensures { result ≡ heap_from (table_view table.now) }
{
    HeapRecords {
        interpreter: interpreter_from(table),
        runtime_collector: collector_from(table, "runtime_collector"),
        collector: collector_from(table, "collector"),
        generation: generation_from(table),
        gc_head: gc_head_from(table),
        arena: arena_from(table),
        pool: pool_from(table),
        arenas_inside: arenas_inside_from(table),
        arenas_behind: arenas_behind_from(table),
    }
}

/// Whether each group that is there is sound.
pub fn are_sound_heap(records: &HeapRecords) -> bool
    ensures { IsTrue result ↔ AreSoundHeap records.now }
{
    is_sound_interpreter(records.interpreter)
        && is_sound_collector(records.runtime_collector)
        && is_sound_collector(records.collector)
        && is_sound_generation(records.generation)
        && is_sound_gc_head(records.gc_head)
        && is_sound_arena(records.arena)
        && is_sound_pool(records.pool)
        && is_sound_arenas_inside(records.arenas_inside)
        && is_sound_arenas_behind(records.arenas_behind)
}

/// No group is there.
pub fn no_heap() -> HeapRecords
    ensures { result ≡ no_heap }
{
    HeapRecords {
        interpreter: None,
        runtime_collector: None,
        collector: None,
        generation: None,
        gc_head: None,
        arena: None,
        pool: None,
        arenas_inside: None,
        arenas_behind: None,
    }
}

/// Each group of the first that is there, and else of the second.
#[tactic(auto, unfolding(crate::specs::Heap::joined_heap))]
pub fn joined_heap(one: &HeapRecords, other: &HeapRecords) -> HeapRecords
    ensures { result ≡ joined_heap one.now other.now }
{
    HeapRecords {
        interpreter: one.interpreter.or(other.interpreter),
        runtime_collector: one.runtime_collector.or(other.runtime_collector),
        collector: one.collector.or(other.collector),
        generation: one.generation.or(other.generation),
        gc_head: one.gc_head.or(other.gc_head),
        arena: one.arena.or(other.arena),
        pool: one.pool.or(other.pool),
        arenas_inside: one.arenas_inside.or(other.arenas_inside),
        arenas_behind: one.arenas_behind.or(other.arenas_behind),
    }
}

/// Whether a group is there in both.
#[tactic(auto, unfolding(crate::specs::Heap::share_heap))]
pub fn share_heap(one: &HeapRecords, other: &HeapRecords) -> bool
    ensures { result ≡ share_heap one.now other.now }
{
    any_both(
        &[
            one.interpreter.is_some(),
            one.runtime_collector.is_some(),
            one.collector.is_some(),
            one.generation.is_some(),
            one.gc_head.is_some(),
            one.arena.is_some(),
            one.pool.is_some(),
            one.arenas_inside.is_some(),
            one.arenas_behind.is_some(),
        ],
        &[
            other.interpreter.is_some(),
            other.runtime_collector.is_some(),
            other.collector.is_some(),
            other.generation.is_some(),
            other.gc_head.is_some(),
            other.arena.is_some(),
            other.pool.is_some(),
            other.arenas_inside.is_some(),
            other.arenas_behind.is_some(),
        ],
    )
}
