//! Ids of threads.
ghost use Rattle.std.specs.Prelude.{◌≡◌};
ghost use Rattle.py_fronts.specs.Ids.{names_thread};

/// Whether an id that is told names the thread of this id; 0 names none.
pub(crate) fn names_thread(told: u64, id: u64) -> bool
    ensures { result ≡ names_thread told id }
{
    told != 0 && told == id
}
