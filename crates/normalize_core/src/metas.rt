//! What the addresses belong to, numbered as it is met.
ghost use Rattle.std.specs.Prelude.{◌≡◌, ℕ, List, [], ◌∷◌, ◌++◌, IfOk, OnOk, option_copied, true};
ghost use Rattle.normalize_core.specs.Met.{HasMet, meta_number_of};
ghost use Rattle.normalize_core.specs.Normal.{IsMetaOf};
ghost use Rattle.normalize_core.specs.Order.{in_order};
ghost use Rattle.normalize_core.specs.Shown.{target_shown};

use crate::build_ids::build_id;
use crate::numbers::Numbers;
use crate::query::{Query, Target, covering, target};
use crate::{Elf, Unknown, UserMeta};
use elf64_core::Name;
use maps_text::MapsEntry;
use std::alloc::{AllocError, Global};

/// Metas, each with its number in the order in which they were met.
#[derive(Drop)]
pub(crate) struct Metas<'a> {
    numbers: Numbers<'a>,
    list: Vec<UserMeta>,
}

/// The meta of a target by the entry that it is met by.
fn meta(
    alloc: Global,
    query: &Query<'_>,
    entry: Option<&MapsEntry>,
    target: Target<'_>,
) -> Result<UserMeta, AllocError>
    ensures { IfOk result (IsMetaOf query.now (option_copied entry.entry) (target_shown target.entry)) }
{
    match target {
        Err(reason) => Ok(UserMeta::from(Unknown { reason })),
        Ok(path) => {
            let build_id = build_id(alloc, query, entry, path)?;
            let path = Name::of(alloc, path)?;
            Ok(UserMeta::Elf(Elf { path, build_id }))
        }
    }
}

impl<'a> Metas<'a> {
    /// Nothing is met.
    fn new(alloc: Global, query: &Query<'a>) -> Metas<'a>
        ensures { HasMet query.now [] result }
    {
        Metas {
            numbers: Numbers::new(alloc),
            list: Vec::new(alloc),
        }
    }

    /// Meets one address.
    fn meet(&mut self, alloc: Global, query: &Query<'a>, addr: u64) -> Result<(), AllocError>
        requires { in_order query.now.entries ≡ true }
        ensures { OnOk result ((met : List ℕ) → HasMet query.now met self.old
            → HasMet query.now (met ++ addr ∷ []) self.new) }
    {
        let entry = covering(query.entries, addr);
        let target = target(entry, query.map_files);
        if self.numbers.get(target).is_some() {
            return Ok(());
        }
        let meta = meta(alloc, query, entry, target)?;
        self.numbers.insert(target, self.list.len())?;
        self.list.push(meta)?;
        Ok(())
    }

    /// What ascending addresses meet.
    pub(crate) fn of(
        alloc: Global,
        query: &Query<'a>,
        ascending: &[u64],
    ) -> Result<Metas<'a>, AllocError>
        requires { in_order query.now.entries ≡ true }
        ensures { IfOk result (HasMet query.now ascending.now) }
    {
        let mut metas = Metas::new(alloc, query);
        for addr in ascending {
            metas.meet(alloc, query, *addr)?;
        }
        Ok(metas)
    }

    /// The number of the meta of a target; that of the metas where it was not met.
    pub(crate) fn number(&self, target: Target<'_>) -> usize
        ensures { result ≡ meta_number_of self.now (target_shown target.entry) }
    {
        self.numbers.get(target).unwrap_or(self.list.len())
    }

    /// The metas.
    pub(crate) fn into_list(self) -> Vec<UserMeta>
        ensures { result ≡ self.entry.list }
    {
        self.list
    }
}
