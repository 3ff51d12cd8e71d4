//! The metric and the gamma matrices.
ghost use Rattle.std.specs.Prelude.{◌≡◌, ◌+◌, ◌*◌, ◌≤◌, ◌<◌};
ghost use Rattle.om_lorentz.specs.Matrices.{gamma, lower_at, metric, upper};

use crate::phases::Phase::{self, Imag, MinusImag, MinusOne, One, Zero};
use crate::phases::{turned, value};
use crate::vectors::Four;
use om_ring::ring::Ring;
use om_ring::steps::Steps;

// The gamma matrices with lower index: gamma_0, gamma_1, gamma_2, gamma_3.
const GAMMA: [[[Phase; 4]; 4]; 4] = [
    [
        [Zero, Zero, One, Zero],
        [Zero, Zero, Zero, One],
        [One, Zero, Zero, Zero],
        [Zero, One, Zero, Zero],
    ],
    [
        [Zero, Zero, Zero, MinusOne],
        [Zero, Zero, MinusOne, Zero],
        [Zero, One, Zero, Zero],
        [One, Zero, Zero, Zero],
    ],
    [
        [Zero, Zero, Zero, Imag],
        [Zero, Zero, MinusImag, Zero],
        [Zero, MinusImag, Zero, Zero],
        [Imag, Zero, Zero, Zero],
    ],
    [
        [Zero, Zero, MinusOne, Zero],
        [Zero, Zero, Zero, One],
        [One, Zero, Zero, Zero],
        [Zero, MinusOne, Zero, Zero],
    ],
];

/// The entry of gamma_mu, with lower index, at a row and a column. `mu`, `row` and `column` are 0 to 3.
///
/// The basis is the chiral one: with lower index, gamma_0 has the unit matrix in both blocks off the
/// diagonal, and gamma_k has -sigma_k in the upper right and sigma_k in the lower left block. At most one
/// ring call.
pub fn gamma<R: Ring<Mark = L>, L>(
    ring: &R,
    mu: u8,
    row: u8,
    column: u8,
    steps: &mut Steps<L>,
) -> R::E
    requires mu_in { mu < 4 }
    requires row_in { row < 4 }
    requires column_in { column < 4 }
    ensures value { result ≡ gamma (R.ops ring.now) mu row column }
    ensures at_most { steps.new ≤ steps.old + R.cost ring.now }
{
    value(
        ring,
        GAMMA[mu as usize][row as usize][column as usize],
        steps,
    )
}

/// The entry of gamma_mu times x.
pub(crate) fn gamma_times<R: Ring<Mark = L>, L>(
    ring: &R,
    mu: u8,
    row: u8,
    column: u8,
    x: R::E,
    steps: &mut Steps<L>,
) -> R::E
    requires mu_in { mu < 4 }
    requires row_in { row < 4 }
    requires column_in { column < 4 }
    ensures value { let o = R.ops ring.now in result ≡ o.times (gamma o mu row column) x }
    ensures at_most { steps.new ≤ steps.old + 2 * R.cost ring.now }
{
    turned(
        ring,
        GAMMA[mu as usize][row as usize][column as usize],
        x,
        steps,
    )
}

/// x times the entry of the metric at two indices.
pub(crate) fn times_metric<R: Ring<Mark = L>, L>(
    ring: &R,
    x: R::E,
    mu: u8,
    nu: u8,
    steps: &mut Steps<L>,
) -> R::E
    requires mu_in { mu < 4 }
    requires nu_in { nu < 4 }
    ensures value { let o = R.ops ring.now in result ≡ o.times x (metric o mu nu) }
    ensures at_most { steps.new ≤ steps.old + R.cost ring.now }
{
    if mu != nu {
        ring.zero()
    } else if mu == 0 {
        x
    } else {
        ring.neg(x, steps)
    }
}

/// The component of p with upper index.
pub(crate) fn upper<E: Copy>(p: &Four<E>, mu: u8) -> E
    requires { mu < 4 }
    ensures { result ≡ upper p.now mu }
{
    match mu {
        0 => p.t,
        1 => p.x,
        2 => p.y,
        _ => p.z,
    }
}

/// The difference x - y.
pub(crate) fn minus<R: Ring<Mark = L>, L>(ring: &R, x: R::E, y: R::E, steps: &mut Steps<L>) -> R::E
    ensures value { let o = R.ops ring.now in result ≡ o.plus x (o.minus y) }
    ensures at_most { steps.new ≤ steps.old + 2 * R.cost ring.now }
{
    let back = ring.neg(y, steps);
    ring.add(x, back, steps)
}

/// The component of p - q with lower index. A space index turns the difference round in place of a sign.
pub(crate) fn lower_difference<R: Ring<Mark = L>, L>(
    ring: &R,
    p: &Four<R::E>,
    q: &Four<R::E>,
    mu: u8,
    steps: &mut Steps<L>,
) -> R::E
    requires { mu < 4 }
    ensures value { let o = R.ops ring.now in
        result ≡ lower_at o mu (o.plus (upper p.now mu) (o.minus (upper q.now mu))) }
    ensures at_most { steps.new ≤ steps.old + 2 * R.cost ring.now }
{
    let (at_p, at_q) = (upper(p, mu), upper(q, mu));
    if mu == 0 {
        minus(ring, at_p, at_q, steps)
    } else {
        minus(ring, at_q, at_p, steps)
    }
}
