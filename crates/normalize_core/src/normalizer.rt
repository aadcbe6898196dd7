//! Normalizing addresses.
ghost use Rattle.std.specs.Prelude.{◌≡◌, ◌⊎◌, ◌<◌, true, false, length, All, Result, IfOk, MatchResult, IsErrOf};
ghost use Rattle.std.specs.List.{list_any};
ghost use Rattle.normalize_core.specs.Normal.{Asked, Normal, IsNormal, IsNormalOrFault, normalizing_by};
ghost use Rattle.normalize_core.specs.Answers.{answer_of, normal_of};
ghost use Rattle.normalize_core.specs.Order.{in_order};
ghost use Rattle.normalize_core.specs.Targets.{overflows};
ghost use Rattle.normalize_core.specs.declared.error.NormalizeError.{NormalizeError};

use crate::metas::Metas;
use crate::order::{ascends, in_order};
use crate::outputs::outputs;
use crate::query::Query;
use crate::{NormalizeError, NormalizeOpts, Output, UserOutput};
use image_memory::Images;
use maps_text::MapsEntry;
use std::alloc::Global;

/// What a normalizer is to do. By default build ids are on, and caching is off.
#[derive(Clone, Debug, Drop)]
pub struct Builder {
    build_ids: bool,
    build_id_caching: bool,
}

impl Builder {
    /// Whether a file without a build id of its own entry is reported with that of its image.
    pub fn enable_build_ids(self, enable: bool) -> Builder
        ensures { result ≡ record self { build_ids = enable } }
    {
        Builder {
            build_ids: enable,
            ..self
        }
    }

    /// Whether build ids may be kept. It changes no answer: the images are handed in at each call, so nothing
    /// is kept from one call to the next, and one call reads a file once.
    pub fn enable_build_id_caching(self, enable: bool) -> Builder
        ensures { result ≡ record self { build_id_caching = enable } }
    {
        Builder {
            build_id_caching: enable,
            ..self
        }
    }

    /// The normalizer that does so.
    pub fn build(self) -> Normalizer
        ensures { result ≡ record { build_ids = self.build_ids; build_id_caching = self.build_id_caching } }
    {
        Normalizer {
            build_ids: self.build_ids,
            build_id_caching: self.build_id_caching,
        }
    }
}

/// Build ids are on, and caching is off.
impl Default for Builder {
    ghost is_default = { λ builder. builder ≡ record { build_ids = true; build_id_caching = false } };

    fn default() -> Builder {
        Builder {
            build_ids: true,
            build_id_caching: false,
        }
    }
}

/// Finds the files that addresses of a process lie in, and where in them.
#[derive(Debug, Drop)]
pub struct Normalizer {
    build_ids: bool,
    build_id_caching: bool,
}

/// The same as `new`.
impl Default for Normalizer {
    ghost is_default = { λ normalizer. normalizer ≡ record { build_ids = true; build_id_caching = false } };

    fn default() -> Normalizer {
        Normalizer::new()
    }
}

impl Normalizer {
    /// Build ids are on, and caching is off.
    pub fn new() -> Normalizer
        ensures { result ≡ record { build_ids = true; build_id_caching = false } }
    {
        Builder::default().build()
    }

    /// What a normalizer is to do, where build ids are on and caching is off.
    pub fn builder() -> Builder
        ensures { result ≡ record { build_ids = true; build_id_caching = false } }
    {
        Builder::default()
    }

    /// What addresses are normalized to, with neither option: see `normalize_user_addrs_opts`.
    pub fn normalize_user_addrs(
        &self,
        alloc: Global,
        entries: &[MapsEntry],
        images: &Images,
        addrs: &[u64],
    ) -> Result<UserOutput, NormalizeError>
        ensures right { let asked : Asked = normalizing_by self.now.build_ids entries.now images.now false in
            IsErrOf result NormalizeError.OutOfMemory ⊎ IsNormalOrFault asked false addrs.now (answer_of result) }
        ensures numbers { IfOk result (λ output. All (λ o. o.1 < length output.meta.items) output.outputs.items) }
        ensures only { let asked : Asked = normalizing_by self.now.build_ids entries.now images.now false in
            (answer : Result Normal NormalizeError) → IsNormalOrFault asked false addrs.now answer
            → IsErrOf result NormalizeError.OutOfMemory ⊎ (answer ≡ answer_of result) }
    {
        self.normalize_user_addrs_opts(alloc, entries, images, addrs, &NormalizeOpts::default())
    }

    /// What addresses of a process are normalized to, by the entries of its maps and the images of its files.
    ///
    /// There is one output for each address, in the order of the addresses. Where an entry covers it that has
    /// a path, it is the address's offset in that file, and the number of the file's meta; else it is the
    /// address as it came, and the number of the meta of the reason: `Unsupported` where the entry has a name
    /// that is no file's, `MissingComponent` where it has none, `Unmapped` where no entry covers the address.
    ///
    /// There is one meta for each path and one for each reason, in the order in which the ascending addresses
    /// first meet them. A file's build id is that of the entry by which it was first met; where that has none
    /// and build ids are on, it is that of the image under the file's path, and none where there is no such
    /// image, or it has none or is bad.
    ///
    /// The entries have to ascend and be disjoint, and are taken as they are, relevant or not. Causes come in
    /// this order:
    ///
    /// - `NoEntries` comes exactly where there are no entries, even for no addresses.
    /// - `EntriesUnsorted` comes exactly where an entry's start passes its end, or its end the next one's start.
    /// - `AddrsUnsorted` comes exactly where the addresses are said to be sorted, and one is below the one
    ///   before it.
    /// - `OffsetOverflow` comes exactly where an address's offset in its file passes 2^64 - 1.
    ///
    /// `OutOfMemory` may come in place of any other answer.
    pub fn normalize_user_addrs_opts(
        &self,
        alloc: Global,
        entries: &[MapsEntry],
        images: &Images,
        addrs: &[u64],
        opts: &NormalizeOpts,
    ) -> Result<UserOutput, NormalizeError>
        ensures right { let asked : Asked =
            normalizing_by self.now.build_ids entries.now images.now opts.now.map_files in
            IsErrOf result NormalizeError.OutOfMemory
            ⊎ IsNormalOrFault asked opts.now.sorted_addrs addrs.now (answer_of result) }
        ensures numbers { IfOk result (λ output. All (λ o. o.1 < length output.meta.items) output.outputs.items) }
        ensures only { let asked : Asked =
            normalizing_by self.now.build_ids entries.now images.now opts.now.map_files in
            (answer : Result Normal NormalizeError) → IsNormalOrFault asked opts.now.sorted_addrs addrs.now answer
            → IsErrOf result NormalizeError.OutOfMemory ⊎ (answer ≡ answer_of result) }
    {
        let query = Query {
            entries,
            images,
            build_ids: self.build_ids,
            map_files: opts.map_files,
        };
        normalized(alloc, &query, addrs, opts.sorted_addrs)
    }
}

/// What addresses are normalized to, by entries in order.
fn normal(alloc: Global, query: &Query<'_>, addrs: &[u64]) -> Result<UserOutput, NormalizeError>
    requires { in_order query.now.entries ≡ true }
    ensures { MatchResult result
        (λ output. (list_any (overflows query.now.entries) addrs.now ≡ false)
        × IsNormal query.now addrs.now (normal_of output))
        (λ error. (error ≡ NormalizeError.OutOfMemory)
        ⊎ ((error ≡ NormalizeError.OffsetOverflow) × (list_any (overflows query.now.entries) addrs.now ≡ true))) }
{
    let mut ascending = Vec::from_slice(alloc, addrs)?;
    ascending.sort()?;
    let metas = Metas::of(alloc, query, ascending.as_slice())?;
    let outputs = outputs(alloc, query, &metas, addrs)?;
    let meta = metas.into_list();
    Ok(Output { outputs, meta })
}

/// The same by any entries, and for addresses that may be said to be sorted.
fn normalized(
    alloc: Global,
    query: &Query<'_>,
    addrs: &[u64],
    sorted_addrs: bool,
) -> Result<UserOutput, NormalizeError>
    ensures { IsErrOf result NormalizeError.OutOfMemory
        ⊎ IsNormalOrFault query.now sorted_addrs addrs.now (answer_of result) }
{
    if query.entries.is_empty() {
        return Err(NormalizeError::NoEntries);
    }
    if !in_order(query.entries) {
        return Err(NormalizeError::EntriesUnsorted);
    }
    if sorted_addrs && !ascends(addrs) {
        return Err(NormalizeError::AddrsUnsorted);
    }
    normal(alloc, query, addrs)
}
