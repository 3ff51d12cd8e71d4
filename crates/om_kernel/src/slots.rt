//! What stands at the places of a vertex, slot by slot. Where there is nothing, which the conditions of `fuse` and
//! `close` rule out, it is 0.
ghost use Rattle.std.specs.Prelude.{◌≡◌, None};
ghost use Rattle.om_lorentz.specs.Entries.{momentum};
ghost use Rattle.om_kernel.specs.Components.{four_in, scalar_in};
ghost use Rattle.om_kernel.specs.IndexSums.{momenta_of, wave_at};
ghost use Rattle.om_kernel.specs.Slots.{filled, momentum_from, place_at, wave_from};

use crate::waves::{Place, Places, Slots, Wave};
use om_lorentz::Four;
use om_ring::ring::Ring;

// The vector 0.
#[inline(always)]
fn zero_four<R: Ring>(ring: &R) -> Four<R::E>
    ensures { let o = R.ops ring.now in result ≡ four_in o None }
{
    Four {
        t: ring.zero(),
        x: ring.zero(),
        y: ring.zero(),
        z: ring.zero(),
    }
}

/// The momentum at a place.
#[inline(always)]
pub(crate) fn momentum_of<R: Ring>(ring: &R, slots: &Slots<R::E>, place: Place) -> Four<R::E>
    ensures { let o = R.ops ring.now in result ≡ momentum_from o slots.now.momenta.now place.momentum }
{
    match slots.momenta.get(place.momentum as usize) {
        Some(momentum) => *momentum,
        None => zero_four(ring),
    }
}

/// The scalar at a place.
#[inline(always)]
pub(crate) fn scalar_of<R: Ring>(ring: &R, slots: &Slots<R::E>, place: Place) -> R::E
    ensures { let o = R.ops ring.now in result ≡ scalar_in o (wave_from o slots.now.waves.now place.wave) }
{
    match place.wave {
        Some(k) => match slots.waves.get(k as usize) {
            Some(Wave::Scalar(x)) => *x,
            _ => ring.zero(),
        },
        None => ring.zero(),
    }
}

/// The spinor or vector at a place.
#[inline(always)]
pub(crate) fn four_of<R: Ring>(ring: &R, slots: &Slots<R::E>, place: Place) -> Four<R::E>
    ensures { let o = R.ops ring.now in result ≡ four_in o (wave_from o slots.now.waves.now place.wave) }
{
    match place.wave {
        Some(k) => match slots.waves.get(k as usize) {
            Some(Wave::Row(p) | Wave::Column(p) | Wave::Vector(p)) => *p,
            _ => zero_four(ring),
        },
        None => zero_four(ring),
    }
}

/// The place of the slot with a number, counted from 1.
#[inline(always)]
pub(crate) fn place_at(places: &Places, slot: u8) -> Place
    ensures { result ≡ place_at places.now slot }
{
    match slot {
        0 | 1 => places.first,
        2 => places.second,
        3 => places.third,
        _ => places.fourth,
    }
}

/// The momentum that enters through the slot with a number.
#[inline(always)]
#[tactic(auto, using(crate::proofs::PlacedSlots::momentum_placed))]
pub(crate) fn momentum_at<R: Ring>(ring: &R, slots: &Slots<R::E>, slot: u8) -> Four<R::E>
    ensures { let o = R.ops ring.now in result ≡ momentum (momenta_of (filled o slots.now)) slot }
{
    momentum_of(ring, slots, place_at(slots.places, slot))
}

/// The scalar in the slot with a number.
#[inline(always)]
#[tactic(auto, using(crate::proofs::PlacedSlots::wave_placed))]
pub(crate) fn scalar_at<R: Ring>(ring: &R, slots: &Slots<R::E>, slot: u8) -> R::E
    ensures { let o = R.ops ring.now in result ≡ scalar_in o (wave_at (filled o slots.now) slot) }
{
    scalar_of(ring, slots, place_at(slots.places, slot))
}

/// The spinor or vector in the slot with a number.
#[inline(always)]
#[tactic(auto, using(crate::proofs::PlacedSlots::wave_placed))]
pub(crate) fn four_at<R: Ring>(ring: &R, slots: &Slots<R::E>, slot: u8) -> Four<R::E>
    ensures { let o = R.ops ring.now in result ≡ four_in o (wave_at (filled o slots.now) slot) }
{
    four_of(ring, slots, place_at(slots.places, slot))
}
