//! The lists of CPython's garbage collector: which objects it tracks, by generation.
//!
//! Each object that the collector tracks has a head (`PyGC_Head`) before it, by which it is a member of the circular
//! list of its generation; the head of that list stands in a record of the runtime or of the interpreter. The back link
//! of a member names the member before it, so that no member is met twice and no list goes on for ever.
//!
//! Where the lists stand, in bytes from the start of the record on, as `list_places` has them:
//!
//! | version | record | generations | permanent | collecting | a generation | a head | bits of a link | from |
//! |---|---|---|---|---|---|---|---|---|
//! | 3.7 | `_PyRuntime` | 352 | 512 | 632 | 48 | 32 | all | internal/mem.h |
//! | 3.8 | `_PyRuntime` | 368 | 448 | 544 | 24 | 16 | all but two | internal/pycore_pymem.h |
//! | 3.9, 3.10 | interpreter | 640 | 720 | 816 | 24 | 16 | all but two | internal/pycore_gc.h |
//! | 3.11 | interpreter | 672 | 752 | 848 | 24 | 16 | all but two | internal/pycore_gc.h |
//! | 3.12 | interpreter | 136 | 216 | 312 | 24 | 16 | all but two | internal/pycore_gc.h |
//! | 3.13 | interpreter | 7424 | 7504 | 7600 | 24 | 16 | all but two | internal/pycore_gc.h |
//!
//! The headers are those of CPython's Include; a head is declared in objimpl.h up to 3.8, then beside the lists. The
//! numbers are those of builds for x86-64, by their debug information; 3.13's are 3.13.0's.
//!
//! From 3.8 on the two lowest bits of a back link say that an object's finalizer was called and that it is being
//! collected, and the lowest bit of a link on that it may be unreachable. In 3.13 patch releases moved the record, so
//! there the heads are believed only where their own links are right.
#![tactic(auto)]

mod heads;
mod links;
mod lists;
mod places;
mod standing;
mod turn;
mod versions;
mod walk;

pub use lists::{Collected, Lists, read_lists};
pub use places::{Home, ListPlaces};
pub use turn::ListEnd;
pub use versions::list_places;
pub use walk::{GcList, read_list};
