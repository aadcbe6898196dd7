//! Where the parts of coroutines stand, by a layout and the records beside it.
ghost use Rattle.std.specs.Prelude.{◌≡◌, IfSome, IsNone, Some};
ghost use Rattle.py_coroutines.specs.Places.{IsSound};
ghost use Rattle.coroutine_frames.specs.Described.{HasNoPlaces, apart_by, apart_of, apart_stack_of, awaiting_of};
ghost use Rattle.coroutine_frames.specs.Described.{carried_of, class_of, code_of, covering, depth_of, family_of};
ghost use Rattle.coroutine_frames.specs.Described.{held_of, holders_of, inside_of, inside_with, running_of};
ghost use Rattle.coroutine_frames.specs.Described.{states_of, unchecked_of, yield_from_of};

use py_coroutines::{
    ApartPlaces, ApartStack, AwaitTypes, ClassPlaces, CodePlaces, Family, Held, Holders,
    InsidePlaces, Places, States, Wants, is_sound,
};
use py_fields::Layout;
use py_records::{
    AwaitingStateRecord, CarrierRecord, CodeNamesRecord, GeneratorFrameRecord,
    GeneratorInsideRecord, GeneratorRecord, GeneratorRunningRecord, HeldRecord, KlassRecord,
    Records, StackDepthRecord, StackRecords, StatesRecord, YieldFromRecord,
};

/// How a frame object tells its state and its stack, and how many bytes of it are read.
#[derive(Clone, Copy)]
struct StackRead {
    stack: ApartStack,
    size: u32,
}

/// What an object must be that holds another one.
fn held_of(at: Option<HeldRecord>, wants: Wants) -> Option<Held>
    ensures { result ≡ held_of wants at }
{
    match at {
        None => None,
        Some(at) => Some(Held {
            size: at.size,
            held: at.held,
            wants,
        }),
    }
}

/// The same of one of asyncio that holds a future.
fn carried_of(at: Option<CarrierRecord>) -> Option<Held>
    ensures { result ≡ carried_of at }
{
    match at {
        None => None,
        Some(at) => Some(Held {
            size: at.size,
            held: at.held,
            wants: Wants::Future,
        }),
    }
}

/// The objects that stand between a coroutine and what it awaits.
fn holders_of(records: &Records, types: &AwaitTypes) -> Holders
    ensures { result ≡ holders_of records.now types.now }
{
    let it = &records.coroutines;
    let (coroutine, generator) = (
        Wants::Class(types.coroutine),
        Wants::Class(types.async_generator),
    );
    Holders {
        coroutine_wrapper: held_of(it.coroutine_wrapper, coroutine),
        asend: held_of(it.asend, generator),
        athrow: held_of(it.athrow, generator),
        anext_awaitable: held_of(it.anext_awaitable, Wants::Any),
        future_iter: carried_of(records.tasks.future_iter),
    }
}

/// Where an object names its class, and what a class says.
fn class_of(layout: &Layout, klass: &KlassRecord) -> ClassPlaces
    ensures { result ≡ class_of layout.now klass.now }
{
    ClassPlaces {
        klass: layout.object.klass,
        name: layout.klass.name,
        flags: layout.klass.flags,
        basic_size: klass.basicsize,
    }
}

/// The instruction of a frame that awaits, up to 3.10: `YIELD_FROM`.
fn yield_from_of(
    layout: &Layout,
    yield_from: Option<YieldFromRecord>,
    names: Option<CodeNamesRecord>,
) -> Option<CodePlaces>
    ensures { result ≡ yield_from_of layout.now yield_from names }
{
    match yield_from {
        None => None,
        Some(at) => match names {
            None => None,
            Some(names) => Some(CodePlaces {
                bytecode: names.bytecode,
                start: layout.bytes.at,
                first: at.opcode,
                second: at.opcode,
                least: 0,
            }),
        },
    }
}

/// The same in each version; from 3.11 on it is `RESUME`.
fn code_of(layout: &Layout, records: &Records) -> Option<CodePlaces>
    ensures { result ≡ code_of layout.now records.now }
{
    match records.stacks.resume {
        None => yield_from_of(layout, records.stacks.yield_from, records.frames.code_names),
        Some(at) => Some(CodePlaces {
            bytecode: 0,
            start: 0,
            first: at.first,
            second: at.second,
            least: 2,
        }),
    }
}

fn awaiting_of(at: Option<AwaitingStateRecord>) -> Option<u32>
    ensures { result ≡ awaiting_of at }
{
    match at {
        None => None,
        Some(at) => Some(at.state),
    }
}

fn running_of(at: Option<GeneratorRunningRecord>) -> Option<u32>
    ensures { result ≡ running_of at }
{
    match at {
        None => None,
        Some(at) => Some(at.running),
    }
}

fn states_of(states: &StatesRecord, awaiting: Option<AwaitingStateRecord>) -> States
    ensures { result ≡ states_of states.now awaiting }
{
    States {
        created: states.created,
        suspended: states.suspended,
        running: states.running,
        awaiting: awaiting_of(awaiting),
    }
}

/// So many bytes, or one more than a place where that is behind them.
#[tactic(auto, unfolding(crate::specs::Described::covering))]
fn covering(size: u32, place: u32) -> u32
    ensures { result ≡ covering size place }
{
    if place < size || place > 65534 {
        return size;
    }
    place + 1
}

/// How a frame object counts the values on its stack, and how many bytes of it are read.
fn depth_of(
    size: u32,
    depth: Option<StackDepthRecord>,
    states: Option<StatesRecord>,
    awaiting: Option<AwaitingStateRecord>,
) -> Option<StackRead>
    ensures { result ≡ depth_of size depth states awaiting }
{
    match depth {
        None => None,
        Some(at) => match states {
            None => None,
            Some(states) => Some(StackRead {
                stack: ApartStack::Depth {
                    bottom: at.bottom,
                    depth: at.depth,
                    state: at.state,
                    states: states_of(&states, awaiting),
                },
                size: covering(size, at.state),
            }),
        },
    }
}

/// How a frame object tells its state and its stack, and how many bytes of it are read.
fn apart_stack_of(layout: &Layout, stacks: &StackRecords) -> Option<StackRead>
    ensures { result ≡ apart_stack_of layout.now stacks.now }
{
    let size = layout.frame.size;
    match stacks.stack_pointer {
        None => depth_of(
            size,
            stacks.stack_depth,
            stacks.states,
            stacks.awaiting_state,
        ),
        Some(at) => Some(StackRead {
            stack: ApartStack::Pointer { top: at.top },
            size,
        }),
    }
}

/// Coroutines whose frame is an object of its own, by their groups.
fn apart_by(
    layout: &Layout,
    generator: Option<GeneratorRecord>,
    frame: Option<GeneratorFrameRecord>,
    stack: Option<StackRead>,
    running: Option<u32>,
) -> Option<ApartPlaces>
    ensures { result ≡ apart_by layout.now generator frame stack running }
{
    match generator {
        None => None,
        Some(generator) => match frame {
            None => None,
            Some(frame) => match stack {
                None => None,
                Some(read) => Some(ApartPlaces {
                    size: generator.size,
                    frame: frame.frame,
                    running,
                    frame_size: read.size,
                    code: layout.frame.code,
                    last: layout.frame.instr,
                    stack: read.stack,
                }),
            },
        },
    }
}

/// Coroutines whose frame is an object of its own.
fn apart_of(layout: &Layout, records: &Records) -> Option<ApartPlaces>
    ensures { result ≡ apart_of layout.now records.now }
{
    let it = &records.coroutines;
    let stack = apart_stack_of(layout, &records.stacks);
    let running = running_of(it.generator_running);
    apart_by(layout, it.generator, it.generator_frame, stack, running)
}

/// Coroutines that have their frame inside, by the groups of their frames.
fn inside_with(
    layout: &Layout,
    generator: GeneratorRecord,
    inside: GeneratorInsideRecord,
    stacks: &StackRecords,
) -> Option<InsidePlaces>
    ensures { result ≡ inside_with layout.now generator inside stacks.now.stack_count stacks.now.states
        stacks.now.awaiting_state }
{
    match stacks.stack_count {
        None => None,
        Some(count) => match stacks.states {
            None => None,
            Some(states) => Some(InsidePlaces {
                size: generator.size,
                frame: inside.frame,
                state: inside.state,
                states: states_of(&states, stacks.awaiting_state),
                instruction: layout.frame.instr,
                depth: count.top,
                stack: layout.frame.locals,
            }),
        },
    }
}

/// How coroutines stand in memory that have their frame inside.
fn inside_of(
    layout: &Layout,
    generator: Option<GeneratorRecord>,
    inside: GeneratorInsideRecord,
    stacks: &StackRecords,
) -> Option<Family>
    ensures { result ≡ inside_of layout.now generator inside stacks.now }
{
    match generator {
        None => None,
        Some(generator) => match inside_with(layout, generator, inside, stacks) {
            None => None,
            Some(places) => Some(Family::Inside(places)),
        },
    }
}

/// How coroutines, generators and async generators stand in memory, by a layout and the records of its version; none
/// where a group that is needed is not described. What is read of a record may lie outside of it.
pub fn family_of(layout: &Layout, records: &Records) -> Option<Family>
    ensures { result ≡ family_of layout.now records.now }
{
    match records.coroutines.generator_inside {
        None => match apart_of(layout, records) {
            None => None,
            Some(places) => Some(Family::Apart(places)),
        },
        Some(inside) => inside_of(
            layout,
            records.coroutines.generator,
            inside,
            &records.stacks,
        ),
    }
}

/// The places as they are described.
fn unchecked_of(layout: &Layout, records: &Records, types: &AwaitTypes) -> Option<Places>
    ensures { result ≡ unchecked_of layout.now records.now types.now }
{
    match records.types.klass {
        None => None,
        Some(klass) => match code_of(layout, records) {
            None => None,
            Some(code) => match family_of(layout, records) {
                None => None,
                Some(family) => Some(Places {
                    types: *types,
                    class: class_of(layout, &klass),
                    holders: holders_of(records, types),
                    code,
                    family,
                }),
            },
        },
    }
}

/// Where the parts of coroutines stand by a layout and the records of its version, with the types' addresses; none
/// where a group that is needed is not described, or what is read of a record would not lie inside it.
///
/// Up to 3.10 the groups are `generator`, `generator_frame`, `yield_from`, `code_names`, and `stack_pointer` or
/// `stack_depth` with `states`; from 3.11 on `generator`, `generator_inside`, `stack_count`, `states` and `resume`;
/// in all `klass`. Of what stands between, only what is described is known.
pub fn places_of(layout: &Layout, records: &Records, types: &AwaitTypes) -> Option<Places>
    ensures described { IfSome result (λ places. unchecked_of layout.now records.now types.now ≡ Some places) }
    ensures all { IsNone result → HasNoPlaces (unchecked_of layout.now records.now types.now) }
    ensures sound { IfSome result IsSound }
{
    match unchecked_of(layout, records, types) {
        None => None,
        Some(places) => {
            let is = is_sound(&places);
            if is { Some(places) } else { None }
        }
    }
}
