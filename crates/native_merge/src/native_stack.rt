//! The native stacks of a process, merged with its Python frames.
ghost use Rattle.std.specs.Prelude.{◌≡◌, ◌⊎◌, [], IfOk, IsErrOf};
ghost use Rattle.lru.specs.LruCache.{lru_cache};
ghost use Rattle.std.specs.FinMap as map;
ghost use Rattle.native_merge.specs.KeptMaps.{MapsStay};
ghost use Rattle.native_merge.specs.Merges.{AreAsked, EachOnce, StayTold, has_lines, is_python};
ghost use Rattle.native_merge.specs.TranslatedStacks.{IsMergedStack, frames_of_answer};
ghost use Rattle.native_merge.specs.Sources.{Stay};
ghost use Rattle.native_merge.specs.SymbolCaches.{AreKnown};
ghost use Rattle.native_merge.specs.Symbols.{SymbolsStay};

use crate::merge::merge;
use crate::symbol_cache::SymbolCache;
use crate::translation::translate_all;
use crate::{MergeError, SourceMaps, Sources, Symbolicator};
use lru::LruCache;
use py_process::BinaryInfo;
use py_stacks::Frame;
use std::alloc::{AllocError, Global};
use std::num::NonZeroUsize;

/// For so many addresses it is kept what they showed.
const CACHE_SIZE: usize = 65536;

/// What merges the native stacks of a process with its Python frames: the places of Python's binaries, what native
/// addresses show, the source files, and what is kept of them between calls.
#[derive(Drop)]
pub struct NativeStack<S, F> {
    alloc: Global,
    python: Option<BinaryInfo>,
    libpython: Option<BinaryInfo>,
    symbols: S,
    sources: F,
    cache: SymbolCache,
    maps: SourceMaps,
}

impl<S: Symbolicator + Drop, F: Sources + Drop> NativeStack<S, F> {
    /// Over the two binaries of Python, of which each may be absent. Nothing is kept yet. The one error is want of
    /// memory.
    pub fn new(
        alloc: Global,
        python: Option<BinaryInfo>,
        libpython: Option<BinaryInfo>,
        symbols: S,
        sources: F,
    ) -> Result<NativeStack<S, F>, AllocError>
        ensures python { IfOk result (λ stack. (stack.python ≡ python) × (stack.libpython ≡ libpython)) }
        ensures symbols { IfOk result (λ stack. (stack.symbols ≡ symbols) × (stack.sources ≡ sources)) }
        ensures cache { IfOk result (λ stack. (stack.cache ≡ lru_cache [] 65536) × (stack.maps ≡ map.empty)) }
    {
        let size = NonZeroUsize::new(CACHE_SIZE).unwrap();
        let cache = LruCache::sparse(alloc, size)?;
        Ok(NativeStack {
            alloc,
            python,
            libpython,
            symbols,
            sources,
            cache,
            maps: SourceMaps::new(alloc),
        })
    }

    /// The frames of a thread, the newest first, merged with its native addresses.
    ///
    /// Whatever it answers, what is kept stays right. The cache is what the addresses that were asked about leave of
    /// it: where all that it held was told, all that it holds is, and its size is the same. What is kept for a source
    /// file stays, and what is new is the map of a file, or that it has none.
    pub fn merge_native_stack(
        &mut self,
        frames: &[Frame],
        native_stack: &[u64],
    ) -> Result<Vec<Frame>, MergeError>
        ensures merges { IsErrOf result MergeError.OutOfMemory
            ⊎ IsMergedStack (S.seen self.old.symbols) (S.seen self.new.symbols) (F.seen self.old.sources)
            (F.seen self.new.sources) (is_python self.old.python self.old.libpython) frames.now native_stack.now
            self.old.cache self.new.cache self.old.maps self.new.maps (frames_of_answer result) }
        ensures once { EachOnce }
        ensures told { StayTold (S.seen self.old.symbols) (is_python self.old.python self.old.libpython) }
        ensures asked { AreAsked (S.seen self.old.symbols) (is_python self.old.python self.old.libpython)
            self.old.cache native_stack.now self.new.cache }
        ensures known { AreKnown (S.seen self.old.symbols) (has_lines (is_python self.old.python self.old.libpython))
            self.old.cache → AreKnown (S.seen self.old.symbols)
            (has_lines (is_python self.old.python self.old.libpython)) self.new.cache }
        ensures size { self.new.cache.cap ≡ self.old.cache.cap }
        ensures maps { MapsStay (F.seen self.old.sources) self.old.maps self.new.maps }
        ensures symbols { SymbolsStay (S.seen self.old.symbols) (S.seen self.new.symbols) }
        ensures sources { Stay (F.seen self.old.sources) (F.seen self.new.sources) }
        ensures python { (self.new.python ≡ self.old.python) × (self.new.libpython ≡ self.old.libpython) }
    {
        self.merged(frames, native_stack)
    }

    /// See `merge_native_stack`.
    fn merged(&mut self, frames: &[Frame], native_stack: &[u64]) -> Result<Vec<Frame>, MergeError>
        ensures merges { IsErrOf result MergeError.OutOfMemory
            ⊎ IsMergedStack (S.seen self.old.symbols) (S.seen self.new.symbols) (F.seen self.old.sources)
            (F.seen self.new.sources) (is_python self.old.python self.old.libpython) frames.now native_stack.now
            self.old.cache self.new.cache self.old.maps self.new.maps (frames_of_answer result) }
        ensures asked { AreAsked (S.seen self.old.symbols) (is_python self.old.python self.old.libpython)
            self.old.cache native_stack.now self.new.cache }
        ensures maps { MapsStay (F.seen self.old.sources) self.old.maps self.new.maps }
        ensures symbols { SymbolsStay (S.seen self.old.symbols) (S.seen self.new.symbols) }
        ensures sources { Stay (F.seen self.old.sources) (F.seen self.new.sources) }
        ensures python { (self.new.python ≡ self.old.python) × (self.new.libpython ≡ self.old.libpython) }
    {
        let answer = merge(
            self.alloc,
            &mut self.symbols,
            &mut self.sources,
            &mut self.cache,
            &self.python,
            &self.libpython,
            frames,
            native_stack,
        );
        let mut merged = match answer {
            Ok(merged) => merged,
            Err(error) => return Err(error),
        };
        translate_all(&mut self.maps, &mut self.sources, &mut merged)?;
        Ok(merged)
    }
}
