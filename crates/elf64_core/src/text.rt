//! A text: characters.
ghost use Rattle.std.specs.Prelude.{◌≡◌, List, ℕ, refl, nat_eq, IfOk, string_bytes, encode_utf8_all};
ghost use Rattle.std.proofs.Common.{rules};
ghost use Rattle.std.specs.Ordering.{nat_cmp, on, as_partial_cmp};
ghost use Rattle.std.specs.Rc.{rc_str_bytes};
ghost use Rattle.std.specs.Str.{chars};
ghost use Rattle.std.specs.Hash as fed;
ghost use Rattle.std.specs.Cmp.{partial_order_from_own_ties};
ghost use Rattle.std.specs.Cmp.Lexicographic.{pointwise, slice_cmp};
ghost use Rattle.std.specs.Cmp.Rules.{comparing, hashing};

use std::alloc::{AllocError, Global};
use std::cmp::Ordering;
use std::fmt;
use std::fmt::{Debug, Formatter, Write};
use std::hash::{Hash, Hasher};
use std::marker::Model;
use std::rc::RcStr;

/// A text: characters, which are Unicode's scalar values. Texts may share their bytes: see `share`.
///
/// Contracts see it as the list of its characters. It is compared, ordered and hashed by its bytes in
/// UTF-8.
#[derive(Drop)]
pub struct Text {
    /// Bytes that others may share.
    shared: RcStr,
}

impl Model for Text {
    ghost Value = { List ℕ };

    ghost view = { λ t. chars (rc_str_bytes t.shared) };
}

impl Text {
    /// A copy of the characters. The one error is out of memory.
    pub fn of(alloc: Global, text: &str) -> Result<Text, AllocError>
        ensures { IfOk result (λ t. t ≡ chars text.now) }
    {
        let shared = RcStr::from_str(alloc, text)?;
        Ok(Text { shared })
    }

    /// The same characters; none is copied. The one error is out of memory.
    pub fn from_string(own: String) -> Result<Text, AllocError>
        ensures { IfOk result (λ t. t ≡ chars (string_bytes own)) }
    {
        let shared = RcStr::from_string(own)?;
        Ok(Text { shared })
    }

    /// The same text once more; no byte is copied. The one error is out of memory: there are too many shares.
    pub fn share(&self) -> Result<Text, AllocError>
        ensures { IfOk result (λ t. t ≡ self.now) }
    {
        let shared = self.shared.clone()?;
        Ok(Text { shared })
    }

    /// The text in UTF-8.
    pub fn as_str(&self) -> &str
        ensures { result.now ≡ encode_utf8_all self.now }
    {
        self.shared.as_str()
    }
}

/// Its characters alone.
impl Debug for Text {
    fn fmt<W: Write>(&self, f: &mut Formatter<W>) -> fmt::Result {
        self.as_str().fmt(f)
    }
}

impl PartialEq for Text {
    ghost eq = { on encode_utf8_all (pointwise nat_eq) };

    ghost laws = { Prim.search (comparing, rules) };

    fn eq(&self, other: &Text) -> bool {
        self.as_str().as_bytes() == other.as_str().as_bytes()
    }
}

impl Eq for Text {
    ghost laws = { Prim.search (comparing, rules) };
}

impl PartialOrd for Text {
    ghost partial_cmp = { as_partial_cmp (on encode_utf8_all (slice_cmp nat_cmp)) };

    ghost laws = { partial_order_from_own_ties (Prim.search (comparing, rules)) (Prim.search (comparing, rules)) };

    fn partial_cmp(&self, other: &Text) -> Option<Ordering> {
        Some(self.cmp(other))
    }
}

impl Ord for Text {
    ghost cmp = { on encode_utf8_all (slice_cmp nat_cmp) };

    ghost total = { Prim.search (comparing, rules) };

    ghost matches_partial_cmp = { λ x y. refl };

    ghost matches_eq = { Prim.search (comparing, rules) };

    fn cmp(&self, other: &Text) -> Ordering {
        self.as_str().as_bytes().cmp(other.as_str().as_bytes())
    }
}

impl Hash for Text {
    ghost hash_input = { λ t. fed.slice fed.u8 (encode_utf8_all t) };

    ghost respects_eq = { Prim.search (hashing, rules) };

    fn hash<H: Hasher>(&self, state: &mut H) {
        self.as_str().as_bytes().hash(state);
    }
}
