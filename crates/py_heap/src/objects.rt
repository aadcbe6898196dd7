//! The objects of lists.
ghost use Rattle.std.specs.Prelude.{◌≡◌, ◌++◌, IfOk, OnOk, map};
ghost use Rattle.gc_lists.specs.Lists.{four_of};
ghost use Rattle.py_heap.specs.Objects.{object_at, objects_of};

use gc_lists::Lists;
use std::alloc::{AllocError, Global};

/// The object of a member: it stands behind the member's head.
fn object_at(head_size: u64, member: u64) -> u64
    ensures { result ≡ object_at head_size member }
{
    member.saturating_add(head_size)
}

/// Adds the objects of some members.
fn push_objects(objects: &mut Vec<u64>, head_size: u64, members: &[u64]) -> Result<(), AllocError>
    ensures { OnOk result (objects.new.items ≡ objects.old.items ++ map (λ a. object_at head_size a) members.now) }
{
    for member in members {
        objects.push(object_at(head_size, *member))?;
    }
    Ok(())
}

/// The objects of lists, from the youngest generation to the permanent one.
pub(crate) fn objects_of(
    alloc: Global,
    head_size: u64,
    lists: &Lists,
) -> Result<Vec<u64>, AllocError>
    ensures { IfOk result (λ objects. objects.items ≡ objects_of head_size (four_of lists.now)) }
{
    let mut objects = Vec::new(alloc);
    push_objects(&mut objects, head_size, &lists.youngest.members)?;
    push_objects(&mut objects, head_size, &lists.middle.members)?;
    push_objects(&mut objects, head_size, &lists.oldest.members)?;
    push_objects(&mut objects, head_size, &lists.permanent.members)?;
    Ok(objects)
}
