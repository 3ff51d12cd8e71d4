//! Vertices of vectors alone.
ghost use Rattle.std.specs.Prelude.{◌≡◌, ◌+◌, ◌*◌, ◌≤◌};
ghost use Rattle.om_kernel.specs.Components.{join_pairs, three_gluons};

use crate::vectors::{along, lower_difference, plain_dot, plus_four, scaled, turned_back};
use om_lorentz::Four;
use om_ring::ring::Ring;
use om_ring::steps::Steps;

/// The factors of the three ways to pair four slots by the metric.
#[derive(Clone, Copy)]
pub(crate) struct Pairs<E> {
    /// Of g12 g34.
    pub(crate) next: E,
    /// Of g13 g24.
    pub(crate) crossed: E,
    /// Of g14 g23.
    pub(crate) last: E,
}

/// What pairs of metrics give at slot 4, with lower index, where the vectors `p`, `q` and `r` enter through
/// the slots 1, 2 and 3.
#[inline(always)]
pub(crate) fn join_pairs<R: Ring<Mark = L>, L>(
    ring: &R,
    factors: &Pairs<R::E>,
    p: &Four<R::E>,
    q: &Four<R::E>,
    r: &Four<R::E>,
    steps: &mut Steps<L>,
) -> Four<R::E>
    ensures value { result ≡ join_pairs (R.ops ring.now) factors.now p.now q.now r.now }
    ensures at_most { steps.new ≤ steps.old + 47 * R.cost ring.now }
{
    let p_back = turned_back(ring, p, steps);
    let q_back = turned_back(ring, q, steps);
    let r_back = turned_back(ring, r, steps);
    let pq = plain_dot(ring, &p_back, q, steps);
    let pr = plain_dot(ring, &p_back, r, steps);
    let qr = plain_dot(ring, &q_back, r, steps);
    let of_r = ring.mul(factors.next, pq, steps);
    let of_q = ring.mul(factors.crossed, pr, steps);
    let of_p = ring.mul(factors.last, qr, steps);
    let one = scaled(ring, of_r, &r_back, steps);
    let two = along(ring, of_q, &one, &q_back, steps);
    along(ring, of_p, &two, &p_back, steps)
}

/// A vector and the momentum that enters with it.
#[derive(Clone, Copy)]
pub(crate) struct Entering<E> {
    pub(crate) wave: Four<E>,
    pub(crate) momentum: Four<E>,
}

/// What three vectors in cyclic order give at the last of their slots, with lower index. `c` is the factor,
/// `p` and `q` enter through the first two slots, and `hole` is the momentum that enters through the last.
#[inline(always)]
pub(crate) fn three_gluons<R: Ring<Mark = L>, L>(
    ring: &R,
    c: R::E,
    p: &Entering<R::E>,
    q: &Entering<R::E>,
    hole: &Four<R::E>,
    steps: &mut Steps<L>,
) -> Four<R::E>
    ensures value { result ≡ three_gluons (R.ops ring.now) c p.now q.now hole.now }
    ensures at_most { steps.new ≤ steps.old + 67 * R.cost ring.now }
{
    let first = lower_difference(ring, &p.momentum, &q.momentum, steps);
    let second = lower_difference(ring, &q.momentum, hole, steps);
    let both = plus_four(ring, &first, &second, steps);
    let p_back = turned_back(ring, &p.wave, steps);
    let q_back = turned_back(ring, &q.wave, steps);
    let pq = plain_dot(ring, &p_back, &q.wave, steps);
    let of_second = plain_dot(ring, &second, &p.wave, steps);
    let of_third = plain_dot(ring, &both, &q.wave, steps);
    let c_back = ring.neg(c, steps);
    let of_first = ring.mul(c_back, pq, steps);
    let of_q = ring.mul(c_back, of_second, steps);
    let of_p = ring.mul(c, of_third, steps);
    let one = scaled(ring, of_first, &first, steps);
    let two = along(ring, of_q, &one, &q_back, steps);
    along(ring, of_p, &two, &p_back, steps)
}
