//! Vertices of three and of four vectors.
ghost use Rattle.std.specs.Prelude.{◌≡◌, ◌+◌, ◌*◌, ◌≤◌};
ghost use Rattle.om_lorentz.specs.Laws.{order};
ghost use Rattle.om_kernel.specs.Calls.{calls_to_fuse};
ghost use Rattle.om_kernel.specs.Forms.{entering, gluon4_pairs, pairs_form, vvv_form, vvvv_pairs};
ghost use Rattle.om_kernel.specs.Slots.{filled};

use super::coupling;
use crate::gluons::{Entering, Pairs, join_pairs, three_gluons};
use crate::orders::{three_before, two_before};
use crate::slots::{four_at, momentum_at};
use crate::waves::{Slots, Wave};
use om_lorentz::{Factors, Reading, Structure};
use om_ring::ring::Ring;
use om_ring::steps::Steps;

// The order in which four slots are written.
const FOUR: Reading = Reading {
    slots: [1, 2, 3, 4],
};

// The vector in a slot with the momentum that enters there.
#[inline(always)]
fn entering<R: Ring>(ring: &R, slots: &Slots<R::E>, slot: u8) -> Entering<R::E>
    ensures { let o = R.ops ring.now in result ≡ entering o (filled o slots.now) slot }
{
    Entering {
        wave: four_at(ring, slots, slot),
        momentum: momentum_at(ring, slots, slot),
    }
}

/// Three vectors in a reading order.
pub(super) fn vvv<R: Ring<Mark = L>, L>(
    ring: &R,
    reading: Reading,
    factors: &Factors<R::E>,
    slots: &Slots<R::E>,
    hole: u8,
    steps: &mut Steps<L>,
) -> Wave<R::E>
    ensures value { let o = R.ops ring.now in result ≡ vvv_form o factors.now (filled o slots.now) reading hole }
    ensures at_most { steps.new ≤ steps.old + calls_to_fuse Structure.Vvv hole * R.cost ring.now }
{
    let (j, k) = two_before(reading, hole);
    let p = entering(ring, slots, j);
    let q = entering(ring, slots, k);
    let there = momentum_at(ring, slots, hole);
    let c = coupling(ring, factors, steps);
    Wave::Vector(three_gluons(ring, c, &p, &q, &there, steps))
}

// Four vectors in pairs, in a reading order.
#[inline(always)]
fn paired<R: Ring<Mark = L>, L>(
    ring: &R,
    factors: &Pairs<R::E>,
    reading: Reading,
    slots: &Slots<R::E>,
    hole: u8,
    steps: &mut Steps<L>,
) -> Wave<R::E>
    ensures value { let o = R.ops ring.now in result ≡ pairs_form o (filled o slots.now) factors.now reading hole }
    ensures at_most { steps.new ≤ steps.old + 47 * R.cost ring.now }
{
    let (j, k, m) = three_before(reading, hole);
    let p = four_at(ring, slots, j);
    let q = four_at(ring, slots, k);
    let r = four_at(ring, slots, m);
    Wave::Vector(join_pairs(ring, factors, &p, &q, &r, steps))
}

// The pairs of `Vvvv`, where its slots are read on to the hole: one place on, the first and the last change places.
fn vvvv_pairs<R: Ring<Mark = L>, L>(
    ring: &R,
    factors: &Factors<R::E>,
    hole: u8,
    steps: &mut Steps<L>,
) -> Pairs<R::E>
    ensures value { result ≡ vvvv_pairs (R.ops ring.now) factors.now hole }
    ensures at_most { steps.new ≤ steps.old + 3 * R.cost ring.now }
{
    let Factors { a, b, c } = *factors;
    let a = ring.mul(ring.imag(), a, steps);
    let b = ring.mul(ring.imag(), b, steps);
    let c = ring.mul(ring.imag(), c, steps);
    match hole {
        1 | 3 => Pairs {
            next: c,
            crossed: b,
            last: a,
        },
        _ => Pairs {
            next: a,
            crossed: b,
            last: c,
        },
    }
}

/// Four vectors.
pub(super) fn vvvv<R: Ring<Mark = L>, L>(
    ring: &R,
    factors: &Factors<R::E>,
    slots: &Slots<R::E>,
    hole: u8,
    steps: &mut Steps<L>,
) -> Wave<R::E>
    ensures value { let o = R.ops ring.now in
        result ≡ pairs_form o (filled o slots.now) (vvvv_pairs o factors.now hole) (order 1 2 3 4) hole }
    ensures at_most { steps.new ≤ steps.old + calls_to_fuse Structure.Vvvv hole * R.cost ring.now }
{
    let factors = vvvv_pairs(ring, factors, hole, steps);
    paired(ring, &factors, FOUR, slots, hole, steps)
}

/// Four vectors in a reading order.
pub(super) fn gluon4<R: Ring<Mark = L>, L>(
    ring: &R,
    reading: Reading,
    factors: &Factors<R::E>,
    slots: &Slots<R::E>,
    hole: u8,
    steps: &mut Steps<L>,
) -> Wave<R::E>
    ensures value { let o = R.ops ring.now in
        result ≡ pairs_form o (filled o slots.now) (gluon4_pairs o factors.now) reading hole }
    ensures at_most { steps.new ≤ steps.old + calls_to_fuse Structure.Gluon4 hole * R.cost ring.now }
{
    let c = coupling(ring, factors, steps);
    let back = ring.neg(c, steps);
    let twice = ring.add(c, c, steps);
    let factors = Pairs {
        next: back,
        crossed: twice,
        last: back,
    };
    paired(ring, &factors, reading, slots, hole, steps)
}
