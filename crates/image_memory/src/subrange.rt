//! Ranges of addresses that lie in each other.
ghost use Rattle.std.specs.Prelude.{◌↔◌, IsTrue};
ghost use Rattle.image_memory.specs.Subrange.{IsSubrange};

/// Whether the range of `sub_size` bytes from `sub_start` on lies in that of `size` bytes from `start` on.
///
/// True exactly where neither is empty, neither ends past 2^64 - 1, and the one lies in the other.
pub fn is_subrange(start: u64, size: u64, sub_start: u64, sub_size: u64) -> bool
    ensures { IsTrue result ↔ IsSubrange start size sub_start sub_size }
{
    if size == 0 || sub_size == 0 {
        return false;
    }
    match (start.checked_add(size), sub_start.checked_add(sub_size)) {
        (Some(end), Some(sub_end)) => start <= sub_start && sub_end <= end,
        _ => false,
    }
}
