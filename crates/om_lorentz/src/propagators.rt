//! The numerators of the propagators.
ghost use Rattle.std.specs.Prelude.{◌≡◌, ◌+◌, ◌*◌, ◌≤◌, ◌<◌};
ghost use Rattle.om_lorentz.specs.Matrices.{slash};
ghost use Rattle.om_lorentz.specs.Propagators.{MassAgrees, massive_numerator, massless_numerator, propagator};
ghost use Rattle.om_lorentz.specs.Structures.{IsIndex};

use crate::matrices::{gamma_times, minus, times_metric, upper};
use crate::structures::Spin;
use crate::vectors::Four;
use om_ring::ring::Ring;
use om_ring::steps::Steps;

// The entry of pslash, the sum of p^mu gamma_mu.
fn slash<R: Ring<Mark = L>, L>(
    ring: &R,
    p: &Four<R::E>,
    row: u8,
    column: u8,
    steps: &mut Steps<L>,
) -> R::E
    requires row_in { row < 4 }
    requires column_in { column < 4 }
    ensures value { result ≡ slash (R.ops ring.now) p.now row column }
    ensures at_most { steps.new ≤ steps.old + 11 * R.cost ring.now }
{
    let t = gamma_times(ring, 0, row, column, p.t, steps);
    let x = gamma_times(ring, 1, row, column, p.x, steps);
    let y = gamma_times(ring, 2, row, column, p.y, steps);
    let z = gamma_times(ring, 3, row, column, p.z, steps);
    let yz = ring.add(y, z, steps);
    let space = ring.add(x, yz, steps);
    ring.add(t, space, steps)
}

// The entry of i (pslash + m).
fn dirac_numerator<R: Ring<Mark = L>, L>(
    ring: &R,
    mass: R::E,
    p: &Four<R::E>,
    row: u8,
    column: u8,
    steps: &mut Steps<L>,
) -> R::E
    requires row_in { row < 4 }
    requires column_in { column < 4 }
    ensures value { result ≡ propagator (R.ops ring.now) Spin.Dirac mass p.now row column }
    ensures at_most { steps.new ≤ steps.old + 13 * R.cost ring.now }
{
    let moving = slash(ring, p, row, column, steps);
    let sum = if row == column {
        ring.add(moving, mass, steps)
    } else {
        moving
    };
    ring.mul(ring.imag(), sum, steps)
}

// The entry of -i g.
fn massless_numerator<R: Ring<Mark = L>, L>(
    ring: &R,
    left: u8,
    right: u8,
    steps: &mut Steps<L>,
) -> R::E
    requires left_in { left < 4 }
    requires right_in { right < 4 }
    ensures value { result ≡ massless_numerator (R.ops ring.now) left right }
    ensures at_most { steps.new ≤ steps.old + 2 * R.cost ring.now }
{
    let turned = times_metric(ring, ring.imag(), left, right, steps);
    ring.neg(turned, steps)
}

// The entry of -i (g - p p / m^2), as i (p p / m^2 - g).
fn massive_numerator<R: Ring<Mark = L>, L>(
    ring: &R,
    inverse_mass: R::E,
    p: &Four<R::E>,
    left: u8,
    right: u8,
    steps: &mut Steps<L>,
) -> R::E
    requires left_in { left < 4 }
    requires right_in { right < 4 }
    ensures value { result ≡ massive_numerator (R.ops ring.now) inverse_mass p.now left right }
    ensures at_most { steps.new ≤ steps.old + 7 * R.cost ring.now }
{
    let product = ring.mul(upper(p, left), upper(p, right), steps);
    let square = ring.mul(inverse_mass, inverse_mass, steps);
    let along = ring.mul(product, square, steps);
    let flat = times_metric(ring, ring.one(), left, right, steps);
    let sum = minus(ring, along, flat, steps);
    ring.mul(ring.imag(), sum, steps)
}

/// The numerator of a propagator at two indices: the line of its spin in `specs/Propagators.antt`.
///
/// `left` and `right` are indices of the spin. For `Dirac` `left` is the row, at the end that enters its
/// vertex as the fermion, and `right` the column, at the end that enters as the antifermion; `p` runs
/// along the arrow, so it is the momentum that enters the vertex of the row. For `Vector` both indices
/// are upper ones, `massive` holds exactly where `mass` isn't 0, and then `inverse_mass` is 1 / `mass`.
/// The other spins read neither of the two. At most thirteen ring calls.
pub fn propagator<R: Ring<Mark = L>, L>(
    ring: &R,
    spin: Spin,
    mass: R::E,
    inverse_mass: R::E,
    massive: bool,
    p: &Four<R::E>,
    left: u8,
    right: u8,
    steps: &mut Steps<L>,
) -> R::E
    requires left_in { IsIndex spin left }
    requires right_in { IsIndex spin right }
    requires mass_in { MassAgrees (R.ops ring.now) spin mass inverse_mass massive }
    ensures value { result ≡ propagator (R.ops ring.now) spin mass p.now left right }
    ensures at_most { steps.new ≤ steps.old + 13 * R.cost ring.now }
{
    match spin {
        Spin::Scalar => ring.imag(),
        Spin::Dirac => dirac_numerator(ring, mass, p, left, right, steps),
        Spin::Vector if massive => massive_numerator(ring, inverse_mass, p, left, right, steps),
        Spin::Vector => massless_numerator(ring, left, right, steps),
    }
}
