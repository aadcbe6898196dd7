//! What is asked of one address.
ghost use Rattle.std.specs.Prelude.{◌≡◌, ◌≤◌, ◌<◌, ◌^◌, All, Some, SomeIff, IfSome, nat_le, option_copied, true, false};
ghost use Rattle.std.specs.List.Sorted.{IsPartitionPoint};
ghost use Rattle.normalize_core.specs.Order.{in_order};
ghost use Rattle.normalize_core.specs.Targets.{covers, covering, target_in, value_in};
ghost use Rattle.normalize_core.specs.Shown.{target_shown};

use crate::Reason;
use image_memory::Images;
use maps_text::{MapsEntry, PathName};
use std::marker::Model;

/// What a call is given besides the addresses.
#[derive(Drop)]
pub(crate) struct Query<'a> {
    pub(crate) entries: &'a [MapsEntry],
    pub(crate) images: &'a Images,
    pub(crate) build_ids: bool,
    pub(crate) map_files: bool,
}

impl<'a> Model for Query<'a> {
    ghost use Rattle.normalize_core.specs.Normal.{Asked};

    ghost Value = { Asked };

    ghost view = { λ q. record {
      entries = q.entries.now;
      images = q.images.now;
      build_ids = q.build_ids;
      map_files = q.map_files;
    } };
}

/// The path of a file, or why an address lies in none.
pub(crate) type Target<'a> = Result<&'a [u8], Reason>;

/// How many entries end by an address: those in front. The entries are halved with each step.
fn ended_by(entries: &[MapsEntry], addr: u64) -> usize
    requires { in_order entries.now ≡ true }
    ensures { IsPartitionPoint (λ entry. nat_le entry.range.end addr ≡ true)
        (λ entry. nat_le entry.range.end addr ≡ false) entries.now result }
{
    entries.partition_point(|entry| entry.range.end <= addr)
}

/// The entry that covers an address, of which there is one at most; none exactly where no entry does.
pub(crate) fn covering(entries: &[MapsEntry], addr: u64) -> Option<&MapsEntry>
    requires { in_order entries.now ≡ true }
    ensures is { option_copied result ≡ covering entries.now addr }
    ensures only { All (λ entry. covers addr entry ≡ true → covering entries.now addr ≡ Some entry) entries.now }
{
    let entry = entries.get(ended_by(entries, addr))?;
    if entry.range.start <= addr {
        Some(entry)
    } else {
        None
    }
}

/// What an address is reported under that an entry covers, if one does.
pub(crate) fn target<'a>(entry: Option<&'a MapsEntry>, map_files: bool) -> Target<'a>
    ensures { target_shown result ≡ target_in map_files (option_copied entry.entry) }
{
    let Some(entry) = entry else {
        return Err(Reason::Unmapped);
    };
    match &entry.path_name {
        None => Err(Reason::MissingComponent),
        Some(PathName::Component(_)) => Err(Reason::Unsupported),
        Some(PathName::Path(path)) if map_files => Ok(path.maps_file.as_bytes()),
        Some(PathName::Path(path)) => Ok(path.symbolic_path.as_bytes()),
    }
}

/// Where an address that an entry covers lies in its file; the address itself where it lies in none, and
/// nothing where that place passes 2^64 - 1.
pub(crate) fn value(entry: Option<&MapsEntry>, addr: u64) -> Option<u64>
    requires { IfSome (option_copied entry) (λ e. e.range.start ≤ addr) }
    ensures { let place = value_in addr (option_copied entry.entry) in SomeIff result (place < 2 ^ 64) place }
{
    let Some(entry) = entry else {
        return Some(addr);
    };
    match &entry.path_name {
        Some(PathName::Path(_)) => (addr - entry.range.start).checked_add(entry.offset),
        Some(PathName::Component(_)) | None => Some(addr),
    }
}
