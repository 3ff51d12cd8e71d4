//! The laws of sets of legs. Each is the contract of a function that does nothing.
ghost use Rattle.std.specs.Prelude.{◌≡◌, ◌↔◌, IsTrue};
ghost use Rattle.std.specs.Ordering.{nat_cmp};

use crate::LegSet;

/// Sets are ordered by their numbers, and compare as equal exactly where they are the same.
pub fn sets_are_ordered_by_number(a: &LegSet, b: &LegSet)
    ensures order { ⟦<LegSet as Ord>⟧.cmp a.now b.now ≡ nat_cmp a.now b.now }
    ensures equal { IsTrue (⟦<LegSet as PartialEq>⟧.eq a.now b.now) ↔ (a.now ≡ b.now) }
{}
