//! A cache of what native addresses show.
ghost use Rattle.std.specs.Prelude.{◌≡◌, [], ◌∷◌, nat_eq, IfOk, IfErr, IfSome, IsErrOf, None, option_map};
ghost use Rattle.std.specs.Map.{lookup};
ghost use Rattle.outside.specs.Counts.{Rose};
ghost use Rattle.native_merge.specs.SymbolCaches.{IsAfter, IsHeldAnswer, MayKeep, alone, answer_listed, frames_of};
ghost use Rattle.native_merge.specs.SymbolCaches.{IsToldAnswer};
ghost use Rattle.native_merge.specs.Symbols.{SymbolsStay};

use crate::copies::copy_native;
use crate::{NativeFrame, SymbolFault, Symbolicator};
use lru::LruCache;
use std::alloc::Global;

/// The frames that addresses showed, each address that had one alone. The newest are kept.
pub(crate) type SymbolCache = LruCache<u64, NativeFrame>;

/// A list of a copy of one frame.
fn only(alloc: Global, native: &NativeFrame) -> Result<Vec<NativeFrame>, SymbolFault>
    ensures one { IfOk result (λ natives. natives.items ≡ native.now ∷ []) }
    ensures refused { IfErr result (λ fault. fault ≡ SymbolFault.OutOfMemory) }
{
    let Ok(copy) = copy_native(native) else {
        return Err(SymbolFault::OutOfMemory);
    };
    let mut natives = Vec::new(alloc);
    if natives.push(copy).is_err() {
        return Err(SymbolFault::OutOfMemory);
    }
    Ok(natives)
}

/// Keeps a frame under its address; where there is no memory nothing is kept, and the cache stays as it was.
fn keep(cache: &mut SymbolCache, addr: u64, native: &NativeFrame)
    ensures { MayKeep cache.old cache.new addr native.now }
{
    if let Ok(copy) = copy_native(native) {
        let _kept = cache.put(addr, copy);
    }
}

/// The frame that is held for an address, as a list; none exactly where none is held.
fn held(
    alloc: Global,
    cache: &SymbolCache,
    addr: u64,
) -> Result<Option<Vec<NativeFrame>>, SymbolFault>
    ensures found { IfOk result (λ found. frames_of found ≡ option_map alone (lookup (nat_eq addr) cache.now.entries)) }
    ensures refused { IfErr result (λ fault. fault ≡ SymbolFault.OutOfMemory) }
{
    let Some(native) = cache.peek(&addr) else {
        return Ok(None);
    };
    let natives = only(alloc, native)?;
    Ok(Some(natives))
}

/// What an address shows: the frame that the cache holds for it, and then the symbolicator isn't asked; else what the
/// symbolicator answers. Its answer is kept where it is one frame, unless memory is refused for that.
pub(crate) fn ask<S: Symbolicator>(
    alloc: Global,
    symbols: &mut S,
    cache: &mut SymbolCache,
    addr: u64,
    line_info: bool,
) -> Result<Vec<NativeFrame>, SymbolFault>
    ensures no_binary { IsErrOf result SymbolFault.NoBinary → (S.seen symbols.old).lacks addr }
    ensures failed { IsErrOf result SymbolFault.Failed → Rose (S.seen symbols.old).faults (S.seen symbols.new).faults }
    ensures stay { SymbolsStay (S.seen symbols.old) (S.seen symbols.new) }
    ensures held { IfSome (lookup (nat_eq addr) cache.old.entries)
        (λ native. IsHeldAnswer native (answer_listed result)) }
    ensures after { IsAfter cache.old cache.new addr (answer_listed result) }
    ensures given { lookup (nat_eq addr) cache.old.entries ≡ None
        → IsToldAnswer (S.seen symbols.old) addr line_info (answer_listed result) }
{
    if let Some(natives) = held(alloc, cache, addr)? {
        cache.promote(&addr);
        return Ok(natives);
    }
    let natives = symbols.symbolicate(alloc, addr, line_info)?;
    if let [native] = natives.as_slice() {
        keep(cache, addr, native);
    }
    Ok(natives)
}
