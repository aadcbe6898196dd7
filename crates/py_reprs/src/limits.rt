//! How much is shown of a value.
ghost use Rattle.std.specs.Prelude.{◌≡◌, ◌≤◌, ◌*◌};
ghost use Rattle.py_reprs.specs.Limits.{limits_at, limits_by, share, shown_count, shown_entries};

/// How much is shown of a value at most.
#[derive(Debug, Clone, Copy, Drop, PartialEq, Eq)]
pub struct Limits {
    /// Of a text its first characters, and of bytes the first: so many.
    pub characters: u32,
    /// Of a container its first items, and of a dict its first entries: so many.
    pub items: u32,
    /// How many levels of containers are opened: the items of the value that is shown are one level.
    pub levels: u32,
    /// How many values are shown within the one that is shown.
    pub nodes: u32,
}

impl Limits {
    /// The limits at so many `-l`, of which there are one to five: with one 1,024 characters, 64 items, 4 levels and 4,096
    /// values, with each further one four times as many of these and four more levels. A number of `-l` below one is taken
    /// as one, and one past five as five.
    ///
    /// Levels grow by four, not four times: JSON nests twice for each, and its readers refuse more than some 128 levels.
    #[tactic(auto, unfolding(crate::specs::Limits::limits_at))]
    pub fn at(l: u32) -> Limits
        ensures { result ≡ limits_at l }
    {
        if l <= 1 {
            limits_by(1, 4)
        } else if l == 2 {
            limits_by(4, 8)
        } else if l == 3 {
            limits_by(16, 12)
        } else if l == 4 {
            limits_by(64, 16)
        } else {
            limits_by(256, 20)
        }
    }
}

fn limits_by(times: u32, levels: u32) -> Limits
    requires { times ≤ 256 }
    ensures { result ≡ limits_by times levels }
{
    Limits {
        characters: 1024 * times,
        items: 64 * times,
        levels,
        nodes: 4096 * times,
    }
}

/// What each of so many shown items has of so many nodes.
#[tactic(auto, unfolding(crate::specs::Limits::share))]
pub(crate) fn share(nodes: u32, shown: u32) -> u32
    ensures { result ≡ share nodes shown }
{
    if shown == 0 {
        return 0;
    }
    nodes.saturating_sub(shown) / shown
}

/// How many items are shown of a container that has so many.
pub(crate) fn shown_count(limits: &Limits, nodes: u32, count: u64) -> u32
    ensures value { result ≡ shown_count limits.now.items nodes count }
    ensures few { result ≤ limits.now.items }
    ensures within { result ≤ nodes }
    ensures all { result ≤ count }
{
    let most = limits.items.min(nodes);
    if count < most as u64 {
        count as u32
    } else {
        most
    }
}

/// How many entries are shown of a dict that has so many: each is two values.
pub(crate) fn shown_entries(limits: &Limits, nodes: u32, count: u64) -> u32
    ensures value { result ≡ shown_entries limits.now.items nodes count }
    ensures few { result ≤ limits.now.items }
    ensures within { 2 * result ≤ nodes }
{
    let most = limits.items.min(nodes / 2);
    if count < most as u64 {
        count as u32
    } else {
        most
    }
}
