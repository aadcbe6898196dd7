//! Whether heads stand where they are looked for.
ghost use Rattle.std.specs.Prelude.{◌≡◌, ◌*◌, IfOk, Some, length};
ghost use Rattle.process_memory.specs.Seen.{Reading};
ghost use Rattle.gc_lists.specs.Heads.{backs, first_unheld, held_by, is_held, is_named, leads, unheld};
ghost use Rattle.gc_lists.specs.Links.{links_at};

use crate::ListPlaces;
use crate::heads::Heads;
use crate::links::{Links, read_links};
use process_memory::ProcessMemory;
use std::alloc::AllocError;

/// Whether links lead back to a head.
fn backs(links: Option<Links>, head: u64) -> bool
    ensures { result ≡ backs links head }
{
    match links {
        Some(links) => links.back == head,
        None => false,
    }
}

/// Whether links lead on to a head.
fn leads(links: Option<Links>, head: u64) -> bool
    ensures { result ≡ leads links head }
{
    match links {
        Some(links) => links.next == head,
        None => false,
    }
}

/// Whether a head is led back to, or led to.
fn is_named(after: Option<Links>, before: Option<Links>, head: u64) -> bool
    ensures { result ≡ is_named after before head }
{
    backs(after, head) || leads(before, head)
}

/// Whether an address is that of a head whose links are these. At most two reads.
fn held_by<P: ProcessMemory>(
    process: &mut P,
    mask: u64,
    own: Links,
    head: u64,
) -> Result<bool, AllocError>
    ensures { Reading 2 (P.seen process.old) (P.seen process.new)
        (λ m. IfOk result (λ held. held ≡ held_by (Some own) (links_at mask m) head)) }
{
    let after = read_links(process, mask, own.next)?;
    let before = read_links(process, mask, own.back)?;
    Ok(is_named(after, before, head))
}

/// Whether an address is that of a head. At most three reads.
fn is_held<P: ProcessMemory>(process: &mut P, mask: u64, head: u64) -> Result<bool, AllocError>
    ensures { Reading 3 (P.seen process.old) (P.seen process.new)
        (λ m. IfOk result (λ held. held ≡ is_held (links_at mask m) head)) }
{
    let links = read_links(process, mask, head)?;
    match links {
        Some(own) => held_by(process, mask, own, head),
        None => Ok(false),
    }
}

/// The first of some heads that isn't one. At most three reads of each.
fn first_unheld<P: ProcessMemory>(
    process: &mut P,
    mask: u64,
    heads: &[u64],
) -> Result<Option<u64>, AllocError>
    ensures { Reading (3 * length heads.now) (P.seen process.old) (P.seen process.new)
        (λ m. IfOk result (λ head. head ≡ first_unheld (links_at mask m) heads.now)) }
{
    for head in heads {
        let held = is_held(process, mask, *head)?;
        if !held {
            return Ok(Some(*head));
        }
    }
    Ok(None)
}

/// The first head of a record that isn't one, where the heads are checked. At most twelve reads.
pub(crate) fn unheld<P: ProcessMemory>(
    process: &mut P,
    places: &ListPlaces,
    own: Heads,
) -> Result<Option<u64>, AllocError>
    ensures { Reading 12 (P.seen process.old) (P.seen process.new)
        (λ m. IfOk result (λ head. head ≡ unheld places.now (links_at places.now.mask m) own)) }
{
    if !places.heads_are_checked {
        return Ok(None);
    }
    let heads = [own.youngest, own.middle, own.oldest, own.permanent];
    first_unheld(process, places.mask, &heads)
}
