//! Sums and products of vectors by components.
ghost use Rattle.std.specs.Prelude.{◌≡◌, ◌+◌, ◌*◌, ◌≤◌};
ghost use Rattle.om_kernel.specs.Components.{along, dot, lower_difference, plain_dot, plus_four, scaled, scaled_lower, turned_back};

use om_lorentz::Four;
use om_ring::ring::Ring;
use om_ring::steps::Steps;

// The sum of the products of the three space components.
#[inline(always)]
fn space_dot<R: Ring<Mark = L>, L>(
    ring: &R,
    p: &Four<R::E>,
    q: &Four<R::E>,
    steps: &mut Steps<L>,
) -> R::E
    ensures value { let o = R.ops ring.now in
        result ≡ o.plus (o.times p.now.x q.now.x) (o.plus (o.times p.now.y q.now.y) (o.times p.now.z q.now.z)) }
    ensures at_most { steps.new ≤ steps.old + 5 * R.cost ring.now }
{
    let z = ring.mul(p.z, q.z, steps);
    let yz = ring.multiply_add(p.y, q.y, z, steps);
    ring.multiply_add(p.x, q.x, yz, steps)
}

/// p0 q0 - p1 q1 - p2 q2 - p3 q3.
#[inline(always)]
pub fn dot<R: Ring<Mark = L>, L>(
    ring: &R,
    p: &Four<R::E>,
    q: &Four<R::E>,
    steps: &mut Steps<L>,
) -> R::E
    ensures value { result ≡ dot (R.ops ring.now) p.now q.now }
    ensures at_most { steps.new ≤ steps.old + 8 * R.cost ring.now }
{
    let space = space_dot(ring, p, q, steps);
    let back = ring.neg(space, steps);
    ring.multiply_add(p.t, q.t, back, steps)
}

/// The sum of the products of the components, for an index that stands above once and below once.
#[inline(always)]
pub fn plain_dot<R: Ring<Mark = L>, L>(
    ring: &R,
    p: &Four<R::E>,
    q: &Four<R::E>,
    steps: &mut Steps<L>,
) -> R::E
    ensures value { result ≡ plain_dot (R.ops ring.now) p.now q.now }
    ensures at_most { steps.new ≤ steps.old + 7 * R.cost ring.now }
{
    ring.dot4(p.t, q.t, p.x, q.x, p.y, q.y, p.z, q.z, steps)
}

/// p + q.
#[inline(always)]
pub fn plus_four<R: Ring<Mark = L>, L>(
    ring: &R,
    p: &Four<R::E>,
    q: &Four<R::E>,
    steps: &mut Steps<L>,
) -> Four<R::E>
    ensures value { result ≡ plus_four (R.ops ring.now) p.now q.now }
    ensures at_most { steps.new ≤ steps.old + 4 * R.cost ring.now }
{
    Four {
        t: ring.add(p.t, q.t, steps),
        x: ring.add(p.x, q.x, steps),
        y: ring.add(p.y, q.y, steps),
        z: ring.add(p.z, q.z, steps),
    }
}

// The difference x - y.
#[inline(always)]
fn minus<R: Ring<Mark = L>, L>(ring: &R, x: R::E, y: R::E, steps: &mut Steps<L>) -> R::E
    ensures value { let o = R.ops ring.now in result ≡ o.plus x (o.minus y) }
    ensures at_most { steps.new ≤ steps.old + 2 * R.cost ring.now }
{
    let back = ring.neg(y, steps);
    ring.add(x, back, steps)
}

/// p - q with its index lowered: the space components are turned round in place of a sign.
#[inline(always)]
pub fn lower_difference<R: Ring<Mark = L>, L>(
    ring: &R,
    p: &Four<R::E>,
    q: &Four<R::E>,
    steps: &mut Steps<L>,
) -> Four<R::E>
    ensures value { result ≡ lower_difference (R.ops ring.now) p.now q.now }
    ensures at_most { steps.new ≤ steps.old + 8 * R.cost ring.now }
{
    Four {
        t: minus(ring, p.t, q.t, steps),
        x: minus(ring, q.x, p.x, steps),
        y: minus(ring, q.y, p.y, steps),
        z: minus(ring, q.z, p.z, steps),
    }
}

/// Minus p, its index lowered or raised: the time component alone changes its sign.
#[inline(always)]
pub(crate) fn turned_back<R: Ring<Mark = L>, L>(
    ring: &R,
    p: &Four<R::E>,
    steps: &mut Steps<L>,
) -> Four<R::E>
    ensures value { result ≡ turned_back (R.ops ring.now) p.now }
    ensures at_most { steps.new ≤ steps.old + R.cost ring.now }
{
    Four {
        t: ring.neg(p.t, steps),
        x: p.x,
        y: p.y,
        z: p.z,
    }
}

/// c p.
#[inline(always)]
pub(crate) fn scaled<R: Ring<Mark = L>, L>(
    ring: &R,
    c: R::E,
    p: &Four<R::E>,
    steps: &mut Steps<L>,
) -> Four<R::E>
    ensures value { result ≡ scaled (R.ops ring.now) c p.now }
    ensures at_most { steps.new ≤ steps.old + 4 * R.cost ring.now }
{
    Four {
        t: ring.mul(c, p.t, steps),
        x: ring.mul(c, p.x, steps),
        y: ring.mul(c, p.y, steps),
        z: ring.mul(c, p.z, steps),
    }
}

/// c p with its index lowered.
#[inline(always)]
pub(crate) fn scaled_lower<R: Ring<Mark = L>, L>(
    ring: &R,
    c: R::E,
    p: &Four<R::E>,
    steps: &mut Steps<L>,
) -> Four<R::E>
    ensures value { result ≡ scaled_lower (R.ops ring.now) c p.now }
    ensures at_most { steps.new ≤ steps.old + 5 * R.cost ring.now }
{
    let back = ring.neg(c, steps);
    Four {
        t: ring.mul(c, p.t, steps),
        x: ring.mul(back, p.x, steps),
        y: ring.mul(back, p.y, steps),
        z: ring.mul(back, p.z, steps),
    }
}

/// p + c q.
#[inline(always)]
pub(crate) fn along<R: Ring<Mark = L>, L>(
    ring: &R,
    c: R::E,
    p: &Four<R::E>,
    q: &Four<R::E>,
    steps: &mut Steps<L>,
) -> Four<R::E>
    ensures value { result ≡ along (R.ops ring.now) c p.now q.now }
    ensures at_most { steps.new ≤ steps.old + 8 * R.cost ring.now }
{
    Four {
        t: ring.multiply_add(c, q.t, p.t, steps),
        x: ring.multiply_add(c, q.x, p.x, steps),
        y: ring.multiply_add(c, q.y, p.y, steps),
        z: ring.multiply_add(c, q.z, p.z, steps),
    }
}
