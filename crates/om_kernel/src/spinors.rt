//! Products of spinors with the gamma matrices, in the chiral basis. Each matrix is written out as swaps,
//! negations and multiplications by i.
ghost use Rattle.std.specs.Prelude.{◌≡◌, ◌+◌, ◌*◌, ◌≤◌};
ghost use Rattle.om_kernel.specs.Components.{chiral, chiral_dot, current, slash_column, slash_entries, slash_row};

use om_lorentz::{Factors, Four};
use om_ring::ring::Ring;
use om_ring::steps::Steps;

/// c (a + b gamma5) times a column, or a row times it.
#[inline(always)]
pub(crate) fn chiral<R: Ring<Mark = L>, L>(
    ring: &R,
    c: R::E,
    factors: &Factors<R::E>,
    d: &Four<R::E>,
    steps: &mut Steps<L>,
) -> Four<R::E>
    ensures value { result ≡ chiral (R.ops ring.now) c factors.now d.now }
    ensures at_most { steps.new ≤ steps.old + 9 * R.cost ring.now }
{
    let (a, b) = (factors.a, factors.b);
    let b_back = ring.neg(b, steps);
    let difference = ring.add(a, b_back, steps);
    let sum = ring.add(a, b, steps);
    let left = ring.mul(c, difference, steps);
    let right = ring.mul(c, sum, steps);
    Four {
        t: ring.mul(left, d.t, steps),
        x: ring.mul(left, d.x, steps),
        y: ring.mul(right, d.y, steps),
        z: ring.mul(right, d.z, steps),
    }
}

/// The row times a + b gamma5 times the column.
#[inline(always)]
pub(crate) fn chiral_dot<R: Ring<Mark = L>, L>(
    ring: &R,
    factors: &Factors<R::E>,
    r: &Four<R::E>,
    d: &Four<R::E>,
    steps: &mut Steps<L>,
) -> R::E
    ensures value { result ≡ chiral_dot (R.ops ring.now) factors.now r.now d.now }
    ensures at_most { steps.new ≤ steps.old + 12 * R.cost ring.now }
{
    let (a, b) = (factors.a, factors.b);
    let x = ring.mul(r.x, d.x, steps);
    let z = ring.mul(r.z, d.z, steps);
    let upper = ring.multiply_add(r.t, d.t, x, steps);
    let lower = ring.multiply_add(r.y, d.y, z, steps);
    let b_back = ring.neg(b, steps);
    let difference = ring.add(a, b_back, steps);
    let sum = ring.add(a, b, steps);
    let right = ring.mul(sum, lower, steps);
    ring.multiply_add(difference, upper, right, steps)
}

/// The row times gamma_mu times the column, with the lower index mu.
#[inline(always)]
pub(crate) fn current<R: Ring<Mark = L>, L>(
    ring: &R,
    r: &Four<R::E>,
    d: &Four<R::E>,
    steps: &mut Steps<L>,
) -> Four<R::E>
    ensures value { result ≡ current (R.ops ring.now) r.now d.now }
    ensures at_most { steps.new ≤ steps.old + 22 * R.cost ring.now }
{
    let yt = ring.mul(r.y, d.t, steps);
    let zx = ring.mul(r.z, d.x, steps);
    let tz = ring.mul(r.t, d.z, steps);
    let xy = ring.mul(r.x, d.y, steps);
    let yx = ring.mul(r.y, d.x, steps);
    let zt = ring.mul(r.z, d.t, steps);
    let outer = ring.multiply_add(r.t, d.y, zx, steps);
    let inner = ring.multiply_add(r.x, d.z, yt, steps);
    let outer_back = ring.neg(outer, steps);
    let upper = ring.add(tz, xy, steps);
    let lower = ring.add(yx, zt, steps);
    let upper_back = ring.neg(upper, steps);
    let ends = ring.add(tz, zt, steps);
    let middle = ring.add(xy, yx, steps);
    let middle_back = ring.neg(middle, steps);
    let turned = ring.add(ends, middle_back, steps);
    Four {
        t: ring.add(outer, inner, steps),
        x: ring.add(lower, upper_back, steps),
        y: ring.mul(ring.imag(), turned, steps),
        z: ring.add(inner, outer_back, steps),
    }
}

// The entries of v^mu gamma_mu, up to their signs.
#[derive(Clone, Copy)]
struct Slash<E> {
    // v0 + v3.
    high: E,
    // v0 - v3.
    low: E,
    // v1 + i v2.
    up: E,
    // v1 - i v2.
    down: E,
}

// The entries of v^mu gamma_mu.
#[inline(always)]
fn slash_entries<R: Ring<Mark = L>, L>(
    ring: &R,
    v: &Four<R::E>,
    steps: &mut Steps<L>,
) -> Slash<R::E>
    ensures value { result ≡ slash_entries (R.ops ring.now) v.now }
    ensures at_most { steps.new ≤ steps.old + 7 * R.cost ring.now }
{
    let turned = ring.mul(ring.imag(), v.y, steps);
    let turned_back = ring.neg(turned, steps);
    let z_back = ring.neg(v.z, steps);
    Slash {
        high: ring.add(v.t, v.z, steps),
        low: ring.add(v.t, z_back, steps),
        up: ring.add(v.x, turned, steps),
        down: ring.add(v.x, turned_back, steps),
    }
}

/// v^mu gamma_mu times the column.
#[inline(always)]
pub(crate) fn slash_column<R: Ring<Mark = L>, L>(
    ring: &R,
    v: &Four<R::E>,
    d: &Four<R::E>,
    steps: &mut Steps<L>,
) -> Four<R::E>
    ensures value { result ≡ slash_column (R.ops ring.now) v.now d.now }
    ensures at_most { steps.new ≤ steps.old + 21 * R.cost ring.now }
{
    let Slash {
        high,
        low,
        up,
        down,
    } = slash_entries(ring, v, steps);
    let down_z = ring.mul(down, d.z, steps);
    let down_z_back = ring.neg(down_z, steps);
    let up_y = ring.mul(up, d.y, steps);
    let up_y_back = ring.neg(up_y, steps);
    let down_x = ring.mul(down, d.x, steps);
    let low_x = ring.mul(low, d.x, steps);
    Four {
        t: ring.multiply_add(low, d.y, down_z_back, steps),
        x: ring.multiply_add(high, d.z, up_y_back, steps),
        y: ring.multiply_add(high, d.t, down_x, steps),
        z: ring.multiply_add(up, d.t, low_x, steps),
    }
}

/// The row times v^mu gamma_mu.
#[inline(always)]
pub(crate) fn slash_row<R: Ring<Mark = L>, L>(
    ring: &R,
    v: &Four<R::E>,
    r: &Four<R::E>,
    steps: &mut Steps<L>,
) -> Four<R::E>
    ensures value { result ≡ slash_row (R.ops ring.now) v.now r.now }
    ensures at_most { steps.new ≤ steps.old + 21 * R.cost ring.now }
{
    let Slash {
        high,
        low,
        up,
        down,
    } = slash_entries(ring, v, steps);
    let up_z = ring.mul(up, r.z, steps);
    let low_z = ring.mul(low, r.z, steps);
    let up_x = ring.mul(up, r.x, steps);
    let up_x_back = ring.neg(up_x, steps);
    let down_t = ring.mul(down, r.t, steps);
    let down_t_back = ring.neg(down_t, steps);
    Four {
        t: ring.multiply_add(high, r.y, up_z, steps),
        x: ring.multiply_add(down, r.y, low_z, steps),
        y: ring.multiply_add(low, r.t, up_x_back, steps),
        z: ring.multiply_add(high, r.x, down_t_back, steps),
    }
}
