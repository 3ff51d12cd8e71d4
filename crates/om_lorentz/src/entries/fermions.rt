//! The entries of the vertices of an antifermion and a fermion.
ghost use Rattle.std.specs.Prelude.{◌≡◌, ◌+◌, ◌*◌, ◌≤◌, ◌<◌};
ghost use Rattle.om_lorentz.specs.Entries.{chiral, entry};

use super::{Vertex, index};
use crate::matrices::{gamma_times, minus};
use crate::structures::{Factors, Structure};
use om_ring::ring::Ring;
use om_ring::steps::Steps;

// The entry of a + b gamma5 in a column and the same row; all others are 0.
fn chiral<R: Ring<Mark = L>, L>(
    ring: &R,
    factors: &Factors<R::E>,
    column: u8,
    steps: &mut Steps<L>,
) -> R::E
    requires { column < 4 }
    ensures value { result ≡ chiral (R.ops ring.now) factors.now column column }
    ensures at_most { steps.new ≤ steps.old + 2 * R.cost ring.now }
{
    if column < 2 {
        minus(ring, factors.a, factors.b, steps)
    } else {
        ring.add(factors.a, factors.b, steps)
    }
}

/// The entry of `Ffs`.
pub(super) fn fermions_scalar<R: Ring<Mark = L>, L>(
    ring: &R,
    vertex: &Vertex<R::E>,
    steps: &mut Steps<L>,
) -> R::E
    ensures value { let v = vertex.now in
        result ≡ entry (R.ops ring.now) Structure.Ffs v.reading v.factors v.momenta v.indices }
    ensures at_most { steps.new ≤ steps.old + 2 * R.cost ring.now }
{
    let (row, column) = (index(vertex, 1), index(vertex, 2));
    if row == column {
        chiral(ring, &vertex.factors, column, steps)
    } else {
        ring.zero()
    }
}

/// The entry of `Ffv`.
pub(super) fn fermions_vector<R: Ring<Mark = L>, L>(
    ring: &R,
    vertex: &Vertex<R::E>,
    steps: &mut Steps<L>,
) -> R::E
    ensures value { let v = vertex.now in
        result ≡ entry (R.ops ring.now) Structure.Ffv v.reading v.factors v.momenta v.indices }
    ensures at_most { steps.new ≤ steps.old + 4 * R.cost ring.now }
{
    let (row, column, mu) = (index(vertex, 1), index(vertex, 2), index(vertex, 3));
    let side = chiral(ring, &vertex.factors, column, steps);
    gamma_times(ring, mu, row, column, side, steps)
}
