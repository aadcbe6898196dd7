//! A name: any bytes.
ghost use Rattle.std.specs.Prelude.{◌≡◌, List, ℕ, refl, nat_eq, IfOk};
ghost use Rattle.std.specs.Rc.{rc_slice_items};
ghost use Rattle.std.proofs.Common.{rules};
ghost use Rattle.std.specs.Ordering.{nat_cmp, as_partial_cmp};
ghost use Rattle.std.specs.Hash as fed;
ghost use Rattle.std.specs.Cmp.{partial_order_from_own_ties};
ghost use Rattle.std.specs.Cmp.Lexicographic.{pointwise, slice_cmp};
ghost use Rattle.std.specs.Cmp.Rules.{comparing, hashing};
ghost use Rattle.bstr.specs.Utf8.{lossy_chars};

use crate::Text;
use bstr::ByteSlice;
use std::alloc::{AllocError, Global};
use std::cmp::Ordering;
use std::fmt;
use std::fmt::{Debug, Formatter, Write};
use std::hash::{Hash, Hasher};
use std::marker::Model;
use std::rc::RcSlice;

/// A name of a file or a symbol: any bytes, which need not be text. Names may share their bytes: see `share`.
///
/// Contracts see it as the list of its bytes. It is compared, ordered and hashed by them.
#[derive(Drop)]
pub struct Name {
    /// Bytes that others may share.
    shared: RcSlice<u8>,
}

impl Model for Name {
    ghost Value = { List ℕ };

    ghost view = { λ n. rc_slice_items n.shared };
}

impl Name {
    /// A copy of the bytes. The one error is out of memory.
    pub fn of(alloc: Global, bytes: &[u8]) -> Result<Name, AllocError>
        ensures { IfOk result (λ n. n ≡ bytes.now) }
    {
        let shared = RcSlice::from_slice(alloc, bytes)?;
        Ok(Name { shared })
    }

    /// The same name once more; no byte is copied. The one error is out of memory: there are too many shares.
    pub fn share(&self) -> Result<Name, AllocError>
        ensures { IfOk result (λ n. n ≡ self.now) }
    {
        let shared = self.shared.clone()?;
        Ok(Name { shared })
    }

    /// The bytes.
    pub fn as_bytes(&self) -> &[u8]
        ensures { result.now ≡ self.now }
    {
        self.shared.as_slice()
    }

    /// The name as text: its characters where it is UTF-8; U+FFFD for each longest piece that is not (The
    /// Unicode Standard, table 3-7). The one error is out of memory.
    pub fn lossy(&self, alloc: Global) -> Result<Text, AllocError>
        ensures { IfOk result (λ text. text ≡ lossy_chars self.now) }
    {
        let mut text = String::new(alloc);
        self.as_bytes().to_str_lossy_into(&mut text)?;
        let shared = Text::from_string(text)?;
        Ok(shared)
    }
}

/// Its bytes.
impl Debug for Name {
    fn fmt<W: Write>(&self, f: &mut Formatter<W>) -> fmt::Result {
        self.as_bytes().fmt(f)
    }
}

impl PartialEq for Name {
    ghost eq = { pointwise nat_eq };

    ghost laws = { Prim.search (comparing, rules) };

    fn eq(&self, other: &Name) -> bool {
        self.as_bytes() == other.as_bytes()
    }
}

impl Eq for Name {
    ghost laws = { Prim.search (comparing, rules) };
}

impl PartialOrd for Name {
    ghost partial_cmp = { as_partial_cmp (slice_cmp nat_cmp) };

    ghost laws = { partial_order_from_own_ties (Prim.search (comparing, rules)) (Prim.search (comparing, rules)) };

    fn partial_cmp(&self, other: &Name) -> Option<Ordering> {
        Some(self.cmp(other))
    }
}

impl Ord for Name {
    ghost cmp = { slice_cmp nat_cmp };

    ghost total = { Prim.search (comparing, rules) };

    ghost matches_partial_cmp = { λ x y. refl };

    ghost matches_eq = { Prim.search (comparing, rules) };

    fn cmp(&self, other: &Name) -> Ordering {
        self.as_bytes().cmp(other.as_bytes())
    }
}

impl Hash for Name {
    ghost hash_input = { fed.slice fed.u8 };

    ghost respects_eq = { Prim.search (hashing, rules) };

    fn hash<H: Hasher>(&self, state: &mut H) {
        self.as_bytes().hash(state);
    }
}
