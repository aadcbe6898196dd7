//! What an object is, by the address of its class.
ghost use Rattle.std.specs.Prelude.{◌≡◌};
ghost use Rattle.py_coroutines.specs.Kinds.{is_future, kind_of};

use crate::AwaitTypes;

/// What a member is that has a frame.
#[derive(Debug, Clone, Copy, PartialEq, Eq)]
pub enum Kind {
    Coroutine,
    Generator,
    AsyncGenerator,
}

/// What an object is whose class is at this address; none for all others.
#[tactic(auto, unfolding(crate::specs::Kinds::kind_of))]
pub(crate) fn kind_of(types: &AwaitTypes, class: u64) -> Option<Kind>
    ensures { result ≡ kind_of types.now class }
{
    if class == 0 {
        return None;
    }
    if class == types.coroutine {
        return Some(Kind::Coroutine);
    }
    if class == types.generator {
        return Some(Kind::Generator);
    }
    if class == types.async_generator {
        return Some(Kind::AsyncGenerator);
    }
    None
}

/// Whether an object is a future or a task whose class is at this address.
#[tactic(auto, unfolding(crate::specs::Kinds::is_future))]
pub(crate) fn is_future(types: &AwaitTypes, class: u64) -> bool
    ensures { result ≡ is_future types.now class }
{
    class != 0 && (class == types.future || class == types.task)
}
