//! The parity of the fermions that cross at a vertex.
ghost use Rattle.std.specs.Prelude.{◌≡◌};
ghost use Rattle.om_graph.specs.Vertices.{crossings_with, legs_in, slot_crossings};
ghost use Rattle.om_legs.specs.Crossings.{is_odd as is_odd_of};

use crate::Key;
use crate::slots::Slots;
use om_legs::{LegSet, cross_parity};

/// Whether an odd number of pairs of fermions, the one behind an earlier slot, stand with the greater leg first.
#[tactic(auto, using(crate::proofs::SlotSigns::even_without))]
pub(crate) fn is_odd(slots: &Slots, fermions: LegSet) -> bool
    ensures { result ≡ is_odd_of (slot_crossings fermions slots.now.keys) }
{
    if fermions == LegSet::empty() {
        return false;
    }
    is_odd_among(&slots.keys, fermions)
}

fn is_odd_among(slots: &[Option<Key>], fermions: LegSet) -> bool
    ensures { result ≡ is_odd_of (slot_crossings fermions slots.now) }
{
    match slots {
        [] => false,
        [first, more @ ..] => is_odd_with(legs_of(first), more, fermions)
            ^ is_odd_among(more, fermions),
    }
}

fn is_odd_with(legs: LegSet, slots: &[Option<Key>], fermions: LegSet) -> bool
    ensures { result ≡ is_odd_of (crossings_with fermions legs slots.now) }
{
    match slots {
        [] => false,
        [slot, more @ ..] => cross_parity(legs, legs_of(slot), fermions)
            ^ is_odd_with(legs, more, fermions),
    }
}

fn legs_of(key: &Option<Key>) -> LegSet
    ensures { result ≡ legs_in key.now }
{
    match key {
        Some(key) => key.legs,
        None => LegSet::empty(),
    }
}
