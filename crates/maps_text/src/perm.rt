//! What a map allows.
ghost use Rattle.std.specs.Prelude.{◌≡◌, true, false, bit_and, bit_or, Some, MatchOption};
ghost use Rattle.maps_text.specs.Perms.{perm_text, has_bits, is_mode, perm_of};

use std::fmt;
use std::ops::{BitAnd, BitAndAssign, BitOr, BitOrAssign};

/// What a map allows: 4 to read, 2 to write, 1 to execute, in sum. The default allows nothing.
///
/// The number may be any. Other bits mean nothing: a line sets none, `Display` looks at these three alone and
/// `filter_relevant` at 4 and 1; the operators and `==` work on all eight.
#[derive(Clone, Copy, Debug, Default, PartialEq)]
pub struct Perm(pub u8);

impl Perm {
    /// It may be read.
    pub const R: Perm = Perm(4);
    /// It may be written.
    pub const W: Perm = Perm(2);
    /// It may be executed.
    pub const X: Perm = Perm(1);

    /// Whether it allows something of what another allows.
    pub(crate) fn meets(self, other: Perm) -> bool
        ensures { result ≡ has_bits self.0 other.0 }
    {
        (self.0 & other.0) != 0
    }
}

/// What the first three bytes of a mode allow: R, W, X where they are `r`, `w`, `x`. None where it is shorter.
pub(crate) fn perm_in(mode: &[u8]) -> Option<Perm>
    ensures { MatchOption result (is_mode mode.now ≡ false) (λ perm.
        (is_mode mode.now ≡ true) × (perm ≡ perm_of mode.now)) }
{
    let [read, write, execute, ..] = mode else {
        return None;
    };
    let mut perm = Perm::default();
    if *read == b'r' {
        perm |= Perm::R;
    }
    if *write == b'w' {
        perm |= Perm::W;
    }
    if *execute == b'x' {
        perm |= Perm::X;
    }
    Some(perm)
}

/// What both allow: the bits that both have.
impl BitAnd for Perm {
    type Output = Perm;

    ghost bitand_gives = { λ a b r. r.0 ≡ bit_and a.0 b.0 };

    fn bitand(self, other: Perm) -> Perm {
        Perm(self.0 & other.0)
    }
}

impl BitAndAssign for Perm {
    ghost bitand_assign_gives = { λ a b r. r.0 ≡ bit_and a.0 b.0 };

    fn bitand_assign(&mut self, other: Perm) {
        self.0 &= other.0;
    }
}

/// What either allows: the bits that one of them has.
impl BitOr for Perm {
    type Output = Perm;

    ghost bitor_gives = { λ a b r. r.0 ≡ bit_or a.0 b.0 };

    fn bitor(self, other: Perm) -> Perm {
        Perm(self.0 | other.0)
    }
}

impl BitOrAssign for Perm {
    ghost bitor_assign_gives = { λ a b r. r.0 ≡ bit_or a.0 b.0 };

    fn bitor_assign(&mut self, other: Perm) {
        self.0 |= other.0;
    }
}

/// `rwx`, with `-` for each that is missing, whatever the other bits are.
impl fmt::Display for Perm {
    ghost output = { λ p. Some (perm_text p.0) };

    fn fmt<W: fmt::Write>(&self, f: &mut fmt::Formatter<W>) -> fmt::Result {
        let read = if self.meets(Perm::R) { 'r' } else { '-' };
        let write = if self.meets(Perm::W) { 'w' } else { '-' };
        let execute = if self.meets(Perm::X) { 'x' } else { '-' };
        write!(f, "{read}{write}{execute}")
    }
}
