//! The largest objects of a class.
ghost use Rattle.std.specs.Prelude.{◌≡◌};
ghost use Rattle.py_census.specs.Large.{comes_before, goes_before, large_of, none_large, with_large};

/// An object with all bytes that are known of it.
#[derive(Debug, Clone, Copy, Drop, PartialEq, Eq)]
pub struct LargeObject {
    /// Its address.
    pub object: u64,
    /// How many bytes its own block has, and those beside it, where they are known; 2^64 - 1 where they are more.
    pub bytes: u64,
}

/// The first three of some objects, most bytes first, then by address. Of fewer objects the last are none.
#[derive(Debug, Clone, Copy, Drop, PartialEq, Eq)]
pub struct Largest {
    /// The one with the most bytes.
    pub first: Option<LargeObject>,
    /// The next one.
    pub second: Option<LargeObject>,
    /// The one behind that.
    pub third: Option<LargeObject>,
}

/// An object by what is known of its blocks.
pub(crate) fn large_of(object: u64, size: Option<u64>, more: Option<u64>) -> LargeObject
    ensures { result ≡ large_of object size more }
{
    LargeObject {
        object,
        bytes: size.unwrap_or(0).saturating_add(more.unwrap_or(0)),
    }
}

/// Of no objects.
pub(crate) fn none_large() -> Largest
    ensures { result ≡ none_large }
{
    Largest {
        first: None,
        second: None,
        third: None,
    }
}

/// Whether an object stands before another one.
fn comes_before(one: LargeObject, other: LargeObject) -> bool
    ensures { result ≡ comes_before one other }
{
    one.bytes > other.bytes || (one.bytes == other.bytes && one.object <= other.object)
}

/// The same, where there is another one.
fn goes_before(one: LargeObject, other: Option<LargeObject>) -> bool
    ensures { result ≡ goes_before one other }
{
    match other {
        None => true,
        Some(other) => comes_before(one, other),
    }
}

/// The first three, with one more object.
pub(crate) fn with_large(largest: Largest, object: LargeObject) -> Largest
    ensures { result ≡ with_large largest object }
{
    if goes_before(object, largest.first) {
        return Largest {
            first: Some(object),
            second: largest.first,
            third: largest.second,
        };
    }
    if goes_before(object, largest.second) {
        return Largest {
            first: largest.first,
            second: Some(object),
            third: largest.second,
        };
    }
    if goes_before(object, largest.third) {
        return Largest {
            first: largest.first,
            second: largest.second,
            third: Some(object),
        };
    }
    largest
}
