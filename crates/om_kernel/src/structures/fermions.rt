//! Vertices of an antifermion, a fermion and a scalar or a vector.
ghost use Rattle.std.specs.Prelude.{◌≡◌, ◌+◌, ◌*◌, ◌≤◌};
ghost use Rattle.om_kernel.specs.Calls.{calls_to_fuse};
ghost use Rattle.om_kernel.specs.Components.{chiral, chiral_dot, four_in};
ghost use Rattle.om_kernel.specs.Forms.{ffs_form, ffv_form, four_at, scalar_at};
ghost use Rattle.om_kernel.specs.Slots.{filled, wave_from};

use crate::slots::{four_of, scalar_of};
use crate::spinors::{chiral, chiral_dot, current, slash_column, slash_row};
use crate::waves::{Place, Slots, Wave};
use om_lorentz::{Factors, Four, Structure};
use om_ring::ring::Ring;
use om_ring::steps::Steps;

// The spinor `other` times i (a + b gamma5) and the scalar.
#[inline(always)]
fn ffs_spinor<R: Ring<Mark = L>, L>(
    ring: &R,
    factors: &Factors<R::E>,
    slots: &Slots<R::E>,
    other: Place,
    steps: &mut Steps<L>,
) -> Four<R::E>
    ensures value { let o = R.ops ring.now in let w = filled o slots.now in
        result ≡ chiral o (o.times o.imag (scalar_at o w 3)) factors.now (four_in o (wave_from o slots.now.waves.now other.wave)) }
    ensures at_most { steps.new ≤ steps.old + 10 * R.cost ring.now }
{
    let d = four_of(ring, slots, other);
    let s = scalar_of(ring, slots, slots.places.third);
    let c = ring.mul(ring.imag(), s, steps);
    chiral(ring, c, factors, &d, steps)
}

// The product of the row and the column in the slots 1 and 2 with i (a + b gamma5) between them.
fn ffs_scalar<R: Ring<Mark = L>, L>(
    ring: &R,
    factors: &Factors<R::E>,
    slots: &Slots<R::E>,
    steps: &mut Steps<L>,
) -> R::E
    ensures value { let o = R.ops ring.now in let w = filled o slots.now in
        result ≡ o.times o.imag (chiral_dot o factors.now (four_at o w 1) (four_at o w 2)) }
    ensures at_most { steps.new ≤ steps.old + 13 * R.cost ring.now }
{
    let r = four_of(ring, slots, slots.places.first);
    let d = four_of(ring, slots, slots.places.second);
    let product = chiral_dot(ring, factors, &r, &d, steps);
    ring.mul(ring.imag(), product, steps)
}

/// An antifermion, a fermion and a scalar.
pub(super) fn ffs<R: Ring<Mark = L>, L>(
    ring: &R,
    factors: &Factors<R::E>,
    slots: &Slots<R::E>,
    hole: u8,
    steps: &mut Steps<L>,
) -> Wave<R::E>
    requires low { 1 ≤ hole }
    requires high { hole ≤ 3 }
    ensures value { let o = R.ops ring.now in result ≡ ffs_form o factors.now (filled o slots.now) hole }
    ensures at_most { steps.new ≤ steps.old + calls_to_fuse Structure.Ffs hole * R.cost ring.now }
{
    match hole {
        1 => Wave::Column(ffs_spinor(ring, factors, slots, slots.places.second, steps)),
        2 => Wave::Row(ffs_spinor(ring, factors, slots, slots.places.first, steps)),
        3 => Wave::Scalar(ffs_scalar(ring, factors, slots, steps)),
        _ => unreachable!(),
    }
}

// The column in slot 2 times i gamma_mu (a + b gamma5) and the vector.
fn ffv_column<R: Ring<Mark = L>, L>(
    ring: &R,
    factors: &Factors<R::E>,
    slots: &Slots<R::E>,
    steps: &mut Steps<L>,
) -> Wave<R::E>
    ensures value { let o = R.ops ring.now in result ≡ ffv_form o factors.now (filled o slots.now) 1 }
    ensures at_most { steps.new ≤ steps.old + 30 * R.cost ring.now }
{
    let d = four_of(ring, slots, slots.places.second);
    let v = four_of(ring, slots, slots.places.third);
    let turned = chiral(ring, ring.imag(), factors, &d, steps);
    Wave::Column(slash_column(ring, &v, &turned, steps))
}

// The row in slot 1 times i gamma_mu (a + b gamma5) and the vector.
fn ffv_row<R: Ring<Mark = L>, L>(
    ring: &R,
    factors: &Factors<R::E>,
    slots: &Slots<R::E>,
    steps: &mut Steps<L>,
) -> Wave<R::E>
    ensures value { let o = R.ops ring.now in result ≡ ffv_form o factors.now (filled o slots.now) 2 }
    ensures at_most { steps.new ≤ steps.old + 30 * R.cost ring.now }
{
    let r = four_of(ring, slots, slots.places.first);
    let v = four_of(ring, slots, slots.places.third);
    let moved = slash_row(ring, &v, &r, steps);
    Wave::Row(chiral(ring, ring.imag(), factors, &moved, steps))
}

// The row in slot 1 times i gamma_mu (a + b gamma5) times the column in slot 2.
fn ffv_current<R: Ring<Mark = L>, L>(
    ring: &R,
    factors: &Factors<R::E>,
    slots: &Slots<R::E>,
    steps: &mut Steps<L>,
) -> Wave<R::E>
    ensures value { let o = R.ops ring.now in result ≡ ffv_form o factors.now (filled o slots.now) 3 }
    ensures at_most { steps.new ≤ steps.old + 31 * R.cost ring.now }
{
    let r = four_of(ring, slots, slots.places.first);
    let d = four_of(ring, slots, slots.places.second);
    let turned = chiral(ring, ring.imag(), factors, &d, steps);
    Wave::Vector(current(ring, &r, &turned, steps))
}

/// An antifermion, a fermion and a vector.
pub(super) fn ffv<R: Ring<Mark = L>, L>(
    ring: &R,
    factors: &Factors<R::E>,
    slots: &Slots<R::E>,
    hole: u8,
    steps: &mut Steps<L>,
) -> Wave<R::E>
    requires low { 1 ≤ hole }
    requires high { hole ≤ 3 }
    ensures value { let o = R.ops ring.now in result ≡ ffv_form o factors.now (filled o slots.now) hole }
    ensures at_most { steps.new ≤ steps.old + calls_to_fuse Structure.Ffv hole * R.cost ring.now }
{
    match hole {
        1 => ffv_column(ring, factors, slots, steps),
        2 => ffv_row(ring, factors, slots, steps),
        3 => ffv_current(ring, factors, slots, steps),
        _ => unreachable!(),
    }
}
