//! Records of all kinds, and whether they are sound.
ghost use Rattle.std.specs.Prelude.{◌≡◌, ◌↔◌, ◌||◌, IsTrue};
ghost use Rattle.toml.specs.View.{table_view};
ghost use Rattle.py_records.specs.Records.{AreSoundRecords, records_from, joined, share_group, no_records};
ghost use Rattle.py_records.specs.Types.{AreSoundTypes};
ghost use Rattle.py_records.specs.Containers.{AreSoundContainers};
ghost use Rattle.py_records.specs.Scalars.{AreSoundScalars};
ghost use Rattle.py_records.specs.Callables.{AreSoundCallables};

use crate::callables::{
    CallableRecords, are_sound_callables, callables_from, joined_callables, no_callables,
    share_callables,
};
use crate::containers::{
    ContainerRecords, are_sound_containers, containers_from, joined_containers, no_containers,
    share_containers,
};
use crate::coroutines::{
    CoroutineRecords, are_sound_coroutines, coroutines_from, joined_coroutines, no_coroutines,
    share_coroutines,
};
use crate::exceptions::{
    ExceptionRecords, are_sound_exceptions, exceptions_from, joined_exceptions, no_exceptions,
    share_exceptions,
};
use crate::frames::{
    FrameRecords, are_sound_frames, frames_from, joined_frames, no_frames, share_frames,
};
use crate::heap::{HeapRecords, are_sound_heap, heap_from, joined_heap, no_heap, share_heap};
use crate::locks::{LockRecords, are_sound_locks, joined_locks, locks_from, no_locks, share_locks};
use crate::scalars::{
    ScalarRecords, are_sound_scalars, joined_scalars, no_scalars, scalars_from, share_scalars,
};
use crate::stacks::{
    StackRecords, are_sound_stacks, joined_stacks, no_stacks, share_stacks, stacks_from,
};
use crate::tasks::{TaskRecords, are_sound_tasks, joined_tasks, no_tasks, share_tasks, tasks_from};
use crate::types::{TypeRecords, are_sound_types, joined_types, no_types, share_types, types_from};
use toml::Table;

/// Where fields are that a layout does not tell: each group, or nothing where it is not described.
#[derive(Clone, Copy)]
pub struct Records {
    pub types: TypeRecords,
    pub containers: ContainerRecords,
    pub scalars: ScalarRecords,
    pub callables: CallableRecords,
    pub frames: FrameRecords,
    pub stacks: StackRecords,
    pub coroutines: CoroutineRecords,
    pub tasks: TaskRecords,
    pub locks: LockRecords,
    pub exceptions: ExceptionRecords,
    pub heap: HeapRecords,
}

/// The records that a table says.
#[tactic(auto, unfolding(crate::specs::Records::records_from))]
pub fn records_from(table: &Table) -> Records
    ensures { result ≡ records_from (table_view table.now) }
{
    Records {
        types: types_from(table),
        containers: containers_from(table),
        scalars: scalars_from(table),
        callables: callables_from(table),
        frames: frames_from(table),
        stacks: stacks_from(table),
        coroutines: coroutines_from(table),
        tasks: tasks_from(table),
        locks: locks_from(table),
        exceptions: exceptions_from(table),
        heap: heap_from(table),
    }
}

/// Whether the groups of types, of containers, of scalars and of callables are sound.
fn are_sound_objects(records: &Records) -> bool
    ensures { IsTrue result
        ↔ (AreSoundTypes records.now.types
        × AreSoundContainers records.now.containers
        × AreSoundScalars records.now.scalars
        × AreSoundCallables records.now.callables) }
{
    are_sound_types(&records.types)
        && are_sound_containers(&records.containers)
        && are_sound_scalars(&records.scalars)
        && are_sound_callables(&records.callables)
}

/// Whether records are sound: by this project's own rules, where all of these hold of each group that is there.
///
/// - A record with a size has 1 to 65535 bytes; its fields lie inside it, and no two of them meet. A field has 8 bytes
///   unless its doc says otherwise. What begins inside a record, as items that follow its fields do, begins at its
///   end at the latest, and not inside a field.
/// - Each number that is no place in a record with a size is at most 1048575.
pub fn is_sound(records: &Records) -> bool
    ensures { IsTrue result ↔ AreSoundRecords records.now }
{
    are_sound_objects(records)
        && are_sound_frames(&records.frames)
        && are_sound_stacks(&records.stacks)
        && are_sound_coroutines(&records.coroutines)
        && are_sound_tasks(&records.tasks)
        && are_sound_locks(&records.locks)
        && are_sound_exceptions(&records.exceptions)
        && are_sound_heap(&records.heap)
}

/// No group is there.
pub fn no_records() -> Records
    ensures { result ≡ no_records }
{
    Records {
        types: no_types(),
        containers: no_containers(),
        scalars: no_scalars(),
        callables: no_callables(),
        frames: no_frames(),
        stacks: no_stacks(),
        coroutines: no_coroutines(),
        tasks: no_tasks(),
        locks: no_locks(),
        exceptions: no_exceptions(),
        heap: no_heap(),
    }
}

/// Each group of the first that is there, and else of the second.
#[tactic(auto, unfolding(crate::specs::Records::joined))]
pub fn joined(one: &Records, other: &Records) -> Records
    ensures { result ≡ joined one.now other.now }
{
    Records {
        types: joined_types(&one.types, &other.types),
        containers: joined_containers(&one.containers, &other.containers),
        scalars: joined_scalars(&one.scalars, &other.scalars),
        callables: joined_callables(&one.callables, &other.callables),
        frames: joined_frames(&one.frames, &other.frames),
        stacks: joined_stacks(&one.stacks, &other.stacks),
        coroutines: joined_coroutines(&one.coroutines, &other.coroutines),
        tasks: joined_tasks(&one.tasks, &other.tasks),
        locks: joined_locks(&one.locks, &other.locks),
        exceptions: joined_exceptions(&one.exceptions, &other.exceptions),
        heap: joined_heap(&one.heap, &other.heap),
    }
}

/// Whether a group is there in both.
#[tactic(auto, unfolding(crate::specs::Records::share_group))]
pub fn share_group(one: &Records, other: &Records) -> bool
    ensures { result ≡ share_group one.now other.now }
{
    share_types(&one.types, &other.types)
        || share_containers(&one.containers, &other.containers)
        || share_scalars(&one.scalars, &other.scalars)
        || share_callables(&one.callables, &other.callables)
        || share_frames(&one.frames, &other.frames)
        || share_stacks(&one.stacks, &other.stacks)
        || share_coroutines(&one.coroutines, &other.coroutines)
        || share_tasks(&one.tasks, &other.tasks)
        || share_locks(&one.locks, &other.locks)
        || share_exceptions(&one.exceptions, &other.exceptions)
        || share_heap(&one.heap, &other.heap)
}
