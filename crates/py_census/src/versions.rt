//! Where the sizes of objects stand, by version.
ghost use Rattle.std.specs.Prelude.{◌≡◌};
ghost use Rattle.py_census.specs.Versions.{places_of_3, places_with, size_places};

use crate::{KeysForm, SetClasses, SizePlaces, WordsBefore};

/// With a head of the collector of so many bytes, and two words before some objects, and dicts of this form.
fn places_with(
    sets: Option<SetClasses>,
    cached_keys: u64,
    head_size: u64,
    words_before: WordsBefore,
    keys_form: KeysForm,
) -> SizePlaces
    ensures { result ≡ places_with sets cached_keys head_size words_before keys_form }
{
    SizePlaces {
        count: 16,
        allocated: 32,
        keys: 32,
        keys_form,
        cached_keys,
        mask: 32,
        table: 40,
        own_table: 64,
        sets,
        base: 256,
        basic_size: 32,
        item_size: 40,
        head_size,
        words_before,
    }
}

/// Of a minor version of 3.
fn places_of_3(sets: Option<SetClasses>, cached_keys: u64, minor: u32) -> Option<SizePlaces>
    ensures { result ≡ places_of_3 sets cached_keys minor }
{
    match minor {
        7 => Some(places_with(sets, cached_keys, 32, WordsBefore::Never, KeysForm::Slots)),
        8 | 9 | 10 => Some(places_with(sets, cached_keys, 16, WordsBefore::Never, KeysForm::Slots)),
        11 => Some(places_with(sets, cached_keys, 16, WordsBefore::Dict, KeysForm::Powers)),
        12 | 13 => Some(places_with(
            sets,
            cached_keys,
            16,
            WordsBefore::DictOrReferences,
            KeysForm::Powers,
        )),
        _ => None,
    }
}

/// Where the sizes of objects of a version stand, by the classes of sets and by where types of the heap keep the keys
/// that the dicts of their objects share: of 3.7 to 3.13, as this crate's table has them; none of any other version.
pub fn size_places(
    sets: Option<SetClasses>,
    cached_keys: u64,
    major: u32,
    minor: u32,
) -> Option<SizePlaces>
    ensures { result ≡ size_places sets cached_keys major minor }
{
    if major == 3 {
        places_of_3(sets, cached_keys, minor)
    } else {
        None
    }
}
