//! Where the lists stand, by version.
ghost use Rattle.std.specs.Prelude.{◌≡◌};
ghost use Rattle.gc_lists.specs.Versions.{in_interpreter, list_places, places_of_3, runtime_of_3_7, runtime_of_3_8};

use crate::{Home, ListPlaces};

/// All bits of a link but the two lowest.
const ALL_BUT_TWO: u64 = 0xffff_ffff_ffff_fffc;

/// Of 3.7.
fn runtime_of_3_7() -> ListPlaces
    ensures { result ≡ runtime_of_3_7 }
{
    ListPlaces {
        home: Home::Runtime,
        generations: 352,
        generation_size: 48,
        permanent: 512,
        collecting: 632,
        head_size: 32,
        mask: u64::MAX,
        heads_are_checked: false,
    }
}

/// Of 3.8.
fn runtime_of_3_8() -> ListPlaces
    ensures { result ≡ runtime_of_3_8 }
{
    ListPlaces {
        home: Home::Runtime,
        generations: 368,
        generation_size: 24,
        permanent: 448,
        collecting: 544,
        head_size: 16,
        mask: ALL_BUT_TWO,
        heads_are_checked: false,
    }
}

/// Of a version in which the interpreter has the lists: `generations` bytes behind its start. The permanent generation
/// and the word of a collection stand in one place behind them in all of these.
fn in_interpreter(generations: u32, heads_are_checked: bool) -> ListPlaces
    ensures { result ≡ in_interpreter generations heads_are_checked }
{
    let generations = u64::from(generations);
    ListPlaces {
        home: Home::Interpreter,
        generations,
        generation_size: 24,
        permanent: generations + 80,
        collecting: generations + 176,
        head_size: 16,
        mask: ALL_BUT_TWO,
        heads_are_checked,
    }
}

/// Of a minor version of 3.
fn places_of_3(minor: u32) -> Option<ListPlaces>
    ensures { result ≡ places_of_3 minor }
{
    match minor {
        7 => Some(runtime_of_3_7()),
        8 => Some(runtime_of_3_8()),
        9 | 10 => Some(in_interpreter(640, false)),
        11 => Some(in_interpreter(672, false)),
        12 => Some(in_interpreter(136, false)),
        13 => Some(in_interpreter(7424, true)),
        _ => None,
    }
}

/// Where the lists of a version stand: of 3.7 to 3.13, as this crate's table has them; none of any other version. Those
/// of 3.13 are those of 3.13.0, and to be believed where the heads' links are right.
pub fn list_places(major: u32, minor: u32) -> Option<ListPlaces>
    ensures { result ≡ list_places major minor }
{
    if major == 3 { places_of_3(minor) } else { None }
}
