//! Sets of legs.
ghost use Rattle.std.specs.Prelude.{◌≡◌, ℕ, ◌<◌, ◌≤◌, ◌↔◌, ◌∷◌, IsTrue};
ghost use Rattle.om_legs.specs.Legs.{IsLegSet, holds, size, least, set_of_one, all_legs, union, minus, complement, Meet, IsSubset};
ghost use Rattle.om_legs.specs.Walks.{without_least, subsets_down};
ghost use Rattle.om_legs.specs.declared.leg_set.TheConstants.{MOST_LEGS};

use std::marker::Model;

/// The most external legs.
pub const MOST_LEGS: u8 = 12;

/// A set of the external legs 1 to [`MOST_LEGS`], seen as the number in which leg k counts 2^(k - 1).
#[derive(Clone, Copy, PartialEq, Eq, PartialOrd, Ord, Hash, Debug)]
pub struct LegSet {
    bits: u16,
}

impl Model for LegSet {
    ghost Value = { ℕ };

    ghost view = { λ set. set.bits };

    ghost invariant = { λ set. IsLegSet set.bits };

    ghost inverse = { λ number. record { bits = number } };
}

impl LegSet {
    /// The set without legs.
    pub fn empty() -> LegSet
        ensures { result ≡ 0 }
    {
        LegSet { bits: 0 }
    }

    /// The set of one leg, 1 to [`MOST_LEGS`].
    pub fn one(leg: u8) -> LegSet
        requires some { 0 < leg }
        requires within { leg ≤ MOST_LEGS }
        ensures { result ≡ set_of_one leg }
    {
        LegSet {
            bits: 1 << (leg - 1),
        }
    }

    /// The legs 1 to n, for n from 1 to [`MOST_LEGS`].
    pub fn all(n: u8) -> LegSet
        requires some { 0 < n }
        requires within { n ≤ MOST_LEGS }
        ensures { result ≡ all_legs n }
    {
        LegSet { bits: (1 << n) - 1 }
    }

    /// The legs of either set.
    pub fn union(self, b: LegSet) -> LegSet
        ensures legs { result ≡ union self b }
        ensures valid { IsLegSet self × IsLegSet b }
    {
        LegSet {
            bits: self.bits | b.bits,
        }
    }

    /// The legs that `b` lacks.
    pub fn minus(self, b: LegSet) -> LegSet
        ensures legs { result ≡ minus self b }
        ensures valid { IsLegSet self × IsLegSet b }
    {
        LegSet {
            bits: self.bits & !b.bits,
        }
    }

    /// The legs 1 to n, for n from 1 to [`MOST_LEGS`], that are not in the set.
    pub fn complement(self, n: u8) -> LegSet
        requires some { 0 < n }
        requires within { n ≤ MOST_LEGS }
        ensures legs { result ≡ complement self n }
        ensures valid { IsLegSet self }
    {
        LegSet::all(n).minus(self)
    }

    /// Whether some leg is in both sets.
    pub fn meets(self, b: LegSet) -> bool
        ensures leg { IsTrue result ↔ Meet self b }
        ensures valid { IsLegSet self × IsLegSet b }
    {
        self.bits & b.bits != 0
    }

    /// Whether a leg, 1 to [`MOST_LEGS`], is in the set.
    pub fn holds(self, leg: u8) -> bool
        requires some { 0 < leg }
        requires within { leg ≤ MOST_LEGS }
        ensures leg { result ≡ holds self leg }
        ensures valid { IsLegSet self }
    {
        self.bits >> (leg - 1) & 1 == 1
    }

    /// The number of legs.
    pub fn size(self) -> u8
        ensures count { result ≡ size self }
        ensures valid { IsLegSet self }
    {
        self.bits.count_ones() as u8
    }

    /// The least leg, or 0 where there is none.
    pub fn least(self) -> u8
        ensures leg { result ≡ least self }
        ensures valid { IsLegSet self }
    {
        if self.bits == 0 {
            0
        } else {
            self.bits.trailing_zeros() as u8 + 1
        }
    }

    /// All legs but the least.
    pub(crate) fn without_least(self) -> LegSet
        ensures legs { result ≡ without_least self }
        ensures valid { IsLegSet self }
    {
        match self.least() {
            0 => self,
            leg => self.minus(LegSet::one(leg)),
        }
    }

    /// Of the subsets of `whole`, the one whose number comes next below that of this one.
    pub(crate) fn subset_before(self, whole: LegSet) -> LegSet
        requires some { 0 < self }
        requires subset { IsSubset self whole }
        ensures subset { IsSubset result whole }
        ensures next { subsets_down whole self ≡ self ∷ subsets_down whole result }
    {
        LegSet {
            bits: (self.bits - 1) & whole.bits,
        }
    }

    /// The set with a number below 2^[`MOST_LEGS`], in which leg k counts 2^(k - 1).
    pub fn from_number(number: u16) -> LegSet
        requires { IsLegSet number }
        ensures { result ≡ number }
    {
        LegSet { bits: number }
    }

    /// The number of the set, in which leg k counts 2^(k - 1).
    pub fn number(self) -> u16
        ensures same { result ≡ self }
        ensures valid { IsLegSet self }
    {
        self.bits
    }
}
