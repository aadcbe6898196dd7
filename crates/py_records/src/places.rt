//! Places of fields in a record, and lists of numbers and of groups that are there.
ghost use Rattle.std.specs.Prelude.{◌≡◌, ◌+◌, ◌<◌, ◌≤◌, ◌^◌, ◌↔◌, ◌&&◌, IsTrue};
ghost use Rattle.py_fields.specs.Places.{Apart, ApartFrom, AreApart, IsGroup};
ghost use Rattle.py_fields.specs.Sound.{IsRecord};
ghost use Rattle.py_records.specs.Places.{ArePlain, any_both};

/// A place in a record: an offset, and how wide it is.
pub type Place = (u32, u32);

/// Numbers that no record's size bounds are below this.
const PLAIN_LIMIT: u32 = 1 << 20;

/// Where a place ends.
fn end_of(place: Place) -> u64
    ensures { result ≡ place.0 + place.1 }
{
    u64::from(place.0) + u64::from(place.1)
}

/// Whether two places do not meet.
fn is_apart(one: Place, other: Place) -> bool
    ensures { IsTrue result ↔ Apart one other }
{
    end_of(one) <= u64::from(other.0) || end_of(other) <= u64::from(one.0)
}

/// Whether a place meets none of the others.
fn is_apart_from(place: Place, places: &[Place]) -> bool
    ensures { IsTrue result ↔ ApartFrom place places.now }
{
    places.iter().all(|other| is_apart(place, *other))
}

/// Whether no two of the places meet.
fn are_apart(places: &[Place]) -> bool
    ensures { IsTrue result ↔ AreApart places.now }
{
    for (i, place) in places.iter().enumerate() {
        if !is_apart_from(*place, &places[i + 1..]) {
            return false;
        }
    }
    true
}

/// Whether the places lie inside `size`, and no two of them meet.
fn is_group(size: u32, places: &[Place]) -> bool
    ensures { IsTrue result ↔ IsGroup size places.now }
{
    let end = u64::from(size);
    places.iter().all(|place| end_of(*place) <= end) && are_apart(places)
}

/// Whether a record has 1 to 65535 bytes, with its fields inside it, no two of which meet.
pub fn is_record(size: u32, places: &[Place]) -> bool
    ensures { IsTrue result ↔ IsRecord size places.now }
{
    0 < size && size < 1 << 16 && is_group(size, places)
}

/// Whether each number is at most 1048575.
pub fn are_plain(numbers: &[u32]) -> bool
    ensures { IsTrue result ↔ ArePlain numbers.now }
{
    numbers.iter().all(|number| *number < PLAIN_LIMIT)
}

/// Whether at one place both lists have `true`.
pub fn any_both(one: &[bool], other: &[bool]) -> bool
    ensures { result ≡ any_both one.now other.now }
{
    one.iter()
        .zip(other.iter())
        .any(|(one, other)| *one && *other)
}
