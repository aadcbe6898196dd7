//! The file that one address lies in, and where in it.
ghost use Rattle.std.specs.Prelude.{◌≡◌, true};
ghost use Rattle.normalize_core.specs.FileOffsets.{file_offset_at, file_offset_shown};
ghost use Rattle.normalize_core.specs.Order.{in_order};
ghost use Rattle.normalize_core.specs.Targets.{overflows};

use crate::query::{covering, target, value};
use maps_text::MapsEntry;

/// A place in a file of a process.
#[derive(Debug, Drop)]
pub struct FileOffset<'a> {
    /// The path that the file's entry gives, less a final ` (deleted)`.
    pub path: &'a [u8],
    /// How many bytes of the file stand before the place.
    pub offset: u64,
}

/// The file that an address lies in, by entries that ascend and are disjoint (`in_order` tests that), and the
/// address's offset there. It is what `normalize_user_addrs` reports for the address: None exactly where that
/// reports a reason in place of a file, or refuses the offset, which passes 2^64 - 1.
///
/// It takes no memory and halves the entries with each step.
pub fn file_offset<'a>(entries: &'a [MapsEntry], addr: u64) -> Option<FileOffset<'a>>
    requires { in_order entries.now ≡ true }
    ensures { file_offset_shown result ≡ file_offset_at entries.now addr }
{
    let entry = covering(entries, addr);
    let Ok(path) = target(entry, false) else {
        return None;
    };
    let offset = value(entry, addr)?;
    Some(FileOffset { path, offset })
}

/// Whether the place of an address in its file, by entries that ascend and are disjoint, passes 2^64 - 1: normalizing
/// refuses it as `OffsetOverflow` exactly then. It takes no memory and halves the entries with each step.
pub fn passes_end(entries: &[MapsEntry], addr: u64) -> bool
    requires { in_order entries.now ≡ true }
    ensures { result ≡ overflows entries.now addr }
{
    value(covering(entries, addr), addr).is_none()
}
