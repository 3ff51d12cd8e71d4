//! Vertices of scalars, and of a vector and two scalars.
ghost use Rattle.std.specs.Prelude.{◌≡◌, ◌+◌, ◌*◌, ◌≤◌};
ghost use Rattle.om_kernel.specs.Calls.{calls_to_fuse};
ghost use Rattle.om_kernel.specs.Components.{plain_dot, scalar_in};
ghost use Rattle.om_kernel.specs.Forms.{coupling, four_at, scalar_current, sss_form, ssss_form, vss_form};
ghost use Rattle.om_kernel.specs.Slots.{filled, wave_from};

use super::{one_scalar, two_scalars};
use crate::slots::{four_of, momentum_of, scalar_of};
use crate::vectors::{lower_difference, plain_dot, scaled};
use crate::waves::{Place, Slots, Wave};
use om_lorentz::{Factors, Structure};
use om_ring::ring::Ring;
use om_ring::steps::Steps;

/// Three scalars.
pub(super) fn sss<R: Ring<Mark = L>, L>(
    ring: &R,
    factors: &Factors<R::E>,
    slots: &Slots<R::E>,
    hole: u8,
    steps: &mut Steps<L>,
) -> Wave<R::E>
    ensures value { let o = R.ops ring.now in result ≡ sss_form o factors.now (filled o slots.now) hole }
    ensures at_most { steps.new ≤ steps.old + calls_to_fuse Structure.Sss hole * R.cost ring.now }
{
    // the slots before the hole, going round
    let (one, other) = match hole {
        3 => (slots.places.first, slots.places.second),
        1 => (slots.places.second, slots.places.third),
        _ => (slots.places.third, slots.places.first),
    };
    let s = scalar_of(ring, slots, one);
    let t = scalar_of(ring, slots, other);
    Wave::Scalar(two_scalars(ring, factors, s, t, steps))
}

/// Four scalars.
pub(super) fn ssss<R: Ring<Mark = L>, L>(
    ring: &R,
    factors: &Factors<R::E>,
    slots: &Slots<R::E>,
    hole: u8,
    steps: &mut Steps<L>,
) -> Wave<R::E>
    ensures value { let o = R.ops ring.now in result ≡ ssss_form o factors.now (filled o slots.now) hole }
    ensures at_most { steps.new ≤ steps.old + calls_to_fuse Structure.Ssss hole * R.cost ring.now }
{
    // the slots before the hole, going round
    let (one, two, three) = match hole {
        4 => (slots.places.first, slots.places.second, slots.places.third),
        1 => (slots.places.second, slots.places.third, slots.places.fourth),
        2 => (slots.places.third, slots.places.fourth, slots.places.first),
        _ => (slots.places.fourth, slots.places.first, slots.places.second),
    };
    let s = scalar_of(ring, slots, one);
    let t = scalar_of(ring, slots, two);
    let u = scalar_of(ring, slots, three);
    let product = two_scalars(ring, factors, s, t, steps);
    Wave::Scalar(ring.mul(product, u, steps))
}

// A vector and two scalars at the vector.
fn vss_vector<R: Ring<Mark = L>, L>(
    ring: &R,
    factors: &Factors<R::E>,
    slots: &Slots<R::E>,
    steps: &mut Steps<L>,
) -> Wave<R::E>
    ensures value { let o = R.ops ring.now in result ≡ vss_form o factors.now (filled o slots.now) 1 }
    ensures at_most { steps.new ≤ steps.old + 15 * R.cost ring.now }
{
    let p = momentum_of(ring, slots, slots.places.second);
    let q = momentum_of(ring, slots, slots.places.third);
    let s = scalar_of(ring, slots, slots.places.second);
    let t = scalar_of(ring, slots, slots.places.third);
    let c = two_scalars(ring, factors, s, t, steps);
    let along = lower_difference(ring, &p, &q, steps);
    Wave::Vector(scaled(ring, c, &along, steps))
}

// A vector and two scalars at a scalar, where `other` is the wave of the other one.
#[inline(always)]
fn vss_scalar<R: Ring<Mark = L>, L>(
    ring: &R,
    factors: &Factors<R::E>,
    slots: &Slots<R::E>,
    other: Place,
    steps: &mut Steps<L>,
) -> Wave<R::E>
    ensures value { let o = R.ops ring.now in let w = filled o slots.now in
        result ≡ Wave.Scalar (o.times (o.times (coupling o factors.now) (scalar_in o (wave_from o slots.now.waves.now other.wave))) (plain_dot o (scalar_current o w) (four_at o w 1))) }
    ensures at_most { steps.new ≤ steps.old + 18 * R.cost ring.now }
{
    let p = momentum_of(ring, slots, slots.places.second);
    let q = momentum_of(ring, slots, slots.places.third);
    let v = four_of(ring, slots, slots.places.first);
    let c = one_scalar(ring, factors, scalar_of(ring, slots, other), steps);
    let along = lower_difference(ring, &p, &q, steps);
    let contracted = plain_dot(ring, &along, &v, steps);
    Wave::Scalar(ring.mul(c, contracted, steps))
}

/// A vector and two scalars.
pub(super) fn vss<R: Ring<Mark = L>, L>(
    ring: &R,
    factors: &Factors<R::E>,
    slots: &Slots<R::E>,
    hole: u8,
    steps: &mut Steps<L>,
) -> Wave<R::E>
    requires low { 1 ≤ hole }
    requires high { hole ≤ 3 }
    ensures value { let o = R.ops ring.now in result ≡ vss_form o factors.now (filled o slots.now) hole }
    ensures at_most { steps.new ≤ steps.old + calls_to_fuse Structure.Vss hole * R.cost ring.now }
{
    match hole {
        1 => vss_vector(ring, factors, slots, steps),
        2 => vss_scalar(ring, factors, slots, slots.places.third, steps),
        3 => vss_scalar(ring, factors, slots, slots.places.second, steps),
        _ => unreachable!(),
    }
}
