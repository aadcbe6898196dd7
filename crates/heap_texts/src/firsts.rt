//! The first of some classes.
ghost use Rattle.std.specs.Prelude.{◌≡◌, ◌-◌, drop, length, take};

use py_heap::HeapClass;

/// The first of some classes, at most so many.
pub(crate) fn first_of(classes: &[HeapClass], most: usize) -> &[HeapClass]
    ensures { result.now ≡ take most classes.now }
{
    if classes.len() <= most {
        return classes;
    }
    &classes[..most]
}

/// Those behind them.
pub(crate) fn rest_of(classes: &[HeapClass], most: usize) -> &[HeapClass]
    ensures { result.now ≡ drop most classes.now }
{
    if classes.len() <= most {
        return &[];
    }
    &classes[most..]
}

/// How many are behind these.
pub(crate) fn left_of(classes: &[HeapClass], most: usize) -> usize
    ensures { result ≡ length classes.now - most }
{
    if classes.len() <= most {
        return 0;
    }
    classes.len() - most
}
