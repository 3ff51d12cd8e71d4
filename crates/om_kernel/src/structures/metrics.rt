//! Vertices of two vectors and scalars, joined by the metric.
ghost use Rattle.std.specs.Prelude.{◌≡◌, ◌+◌, ◌*◌, ◌≤◌};
ghost use Rattle.om_kernel.specs.Calls.{calls_to_fuse};
ghost use Rattle.om_kernel.specs.Components.{dot, four_in, scalar_in, scaled_lower};
ghost use Rattle.om_kernel.specs.Forms.{coupling, four_at, one_scalar, two_scalars, vvs_form, vvss_form};
ghost use Rattle.om_kernel.specs.Slots.{filled, wave_from};

use super::{coupling, one_scalar, two_scalars};
use crate::slots::{four_of, scalar_of};
use crate::vectors::{dot, scaled_lower};
use crate::waves::{Place, Slots, Wave};
use om_lorentz::{Factors, Four, Structure};
use om_ring::ring::Ring;
use om_ring::steps::Steps;

// The product of the vectors in the slots 1 and 2, times c.
#[inline(always)]
fn joined_vectors<R: Ring<Mark = L>, L>(
    ring: &R,
    c: R::E,
    p: &Four<R::E>,
    q: &Four<R::E>,
    steps: &mut Steps<L>,
) -> Wave<R::E>
    ensures value { let o = R.ops ring.now in result ≡ Wave.Scalar (o.times c (dot o p.now q.now)) }
    ensures at_most { steps.new ≤ steps.old + 9 * R.cost ring.now }
{
    let product = dot(ring, p, q, steps);
    Wave::Scalar(ring.mul(c, product, steps))
}

// Two vectors and a scalar at a vector, where `other` is the wave of the other one.
#[inline(always)]
fn vvs_vector<R: Ring<Mark = L>, L>(
    ring: &R,
    factors: &Factors<R::E>,
    slots: &Slots<R::E>,
    other: Place,
    steps: &mut Steps<L>,
) -> Wave<R::E>
    ensures value { let o = R.ops ring.now in let w = filled o slots.now in
        result ≡ Wave.Vector (scaled_lower o (one_scalar o factors.now w 3) (four_in o (wave_from o slots.now.waves.now other.wave))) }
    ensures at_most { steps.new ≤ steps.old + 7 * R.cost ring.now }
{
    let v = four_of(ring, slots, other);
    let s = scalar_of(ring, slots, slots.places.third);
    let c = one_scalar(ring, factors, s, steps);
    Wave::Vector(scaled_lower(ring, c, &v, steps))
}

/// Two vectors and a scalar.
pub(super) fn vvs<R: Ring<Mark = L>, L>(
    ring: &R,
    factors: &Factors<R::E>,
    slots: &Slots<R::E>,
    hole: u8,
    steps: &mut Steps<L>,
) -> Wave<R::E>
    requires low { 1 ≤ hole }
    requires high { hole ≤ 3 }
    ensures value { let o = R.ops ring.now in result ≡ vvs_form o factors.now (filled o slots.now) hole }
    ensures at_most { steps.new ≤ steps.old + calls_to_fuse Structure.Vvs hole * R.cost ring.now }
{
    match hole {
        1 => vvs_vector(ring, factors, slots, slots.places.second, steps),
        2 => vvs_vector(ring, factors, slots, slots.places.first, steps),
        3 => {
            let p = four_of(ring, slots, slots.places.first);
            let q = four_of(ring, slots, slots.places.second);
            let c = coupling(ring, factors, steps);
            joined_vectors(ring, c, &p, &q, steps)
        }
        _ => unreachable!(),
    }
}

// Two vectors and two scalars at a vector, where `other` is the wave of the other one.
#[inline(always)]
fn vvss_vector<R: Ring<Mark = L>, L>(
    ring: &R,
    factors: &Factors<R::E>,
    slots: &Slots<R::E>,
    other: Place,
    steps: &mut Steps<L>,
) -> Wave<R::E>
    ensures value { let o = R.ops ring.now in let w = filled o slots.now in
        result ≡ Wave.Vector (scaled_lower o (two_scalars o factors.now w 3 4) (four_in o (wave_from o slots.now.waves.now other.wave))) }
    ensures at_most { steps.new ≤ steps.old + 8 * R.cost ring.now }
{
    let v = four_of(ring, slots, other);
    let s = scalar_of(ring, slots, slots.places.third);
    let t = scalar_of(ring, slots, slots.places.fourth);
    let c = two_scalars(ring, factors, s, t, steps);
    Wave::Vector(scaled_lower(ring, c, &v, steps))
}

// Two vectors and two scalars at a scalar, where `other` is the wave of the other one.
#[inline(always)]
fn vvss_scalar<R: Ring<Mark = L>, L>(
    ring: &R,
    factors: &Factors<R::E>,
    slots: &Slots<R::E>,
    other: Place,
    steps: &mut Steps<L>,
) -> Wave<R::E>
    ensures value { let o = R.ops ring.now in let w = filled o slots.now in
        result ≡ Wave.Scalar (o.times (o.times (coupling o factors.now) (scalar_in o (wave_from o slots.now.waves.now other.wave))) (dot o (four_at o w 1) (four_at o w 2))) }
    ensures at_most { steps.new ≤ steps.old + 11 * R.cost ring.now }
{
    let p = four_of(ring, slots, slots.places.first);
    let q = four_of(ring, slots, slots.places.second);
    let c = one_scalar(ring, factors, scalar_of(ring, slots, other), steps);
    joined_vectors(ring, c, &p, &q, steps)
}

/// Two vectors and two scalars.
pub(super) fn vvss<R: Ring<Mark = L>, L>(
    ring: &R,
    factors: &Factors<R::E>,
    slots: &Slots<R::E>,
    hole: u8,
    steps: &mut Steps<L>,
) -> Wave<R::E>
    requires low { 1 ≤ hole }
    requires high { hole ≤ 4 }
    ensures value { let o = R.ops ring.now in result ≡ vvss_form o factors.now (filled o slots.now) hole }
    ensures at_most { steps.new ≤ steps.old + calls_to_fuse Structure.Vvss hole * R.cost ring.now }
{
    match hole {
        1 => vvss_vector(ring, factors, slots, slots.places.second, steps),
        2 => vvss_vector(ring, factors, slots, slots.places.first, steps),
        3 => vvss_scalar(ring, factors, slots, slots.places.fourth, steps),
        4 => vvss_scalar(ring, factors, slots, slots.places.third, steps),
        _ => unreachable!(),
    }
}
