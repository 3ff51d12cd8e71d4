//! What an edge makes of the wave that enters it.
ghost use Rattle.std.specs.Prelude.{◌≡◌, ℕ, ◌+◌, ◌*◌, ◌≤◌};
ghost use Rattle.om_lorentz.specs.Propagators.{MassAgrees};
ghost use Rattle.om_lorentz.specs.Structures.{IsIndex};
ghost use Rattle.om_kernel.specs.EdgeForms.{massive_form, massless_form, row_momentum, spinor_form};
ghost use Rattle.om_kernel.specs.EdgeSums.{calls_to_propagate, edge_sum, spin_of};
ghost use Rattle.om_kernel.specs.Waves.{component, kind_of};

use crate::spinors::slash_column;
use crate::vectors::{along, plain_dot, scaled, turned_back};
use crate::waves::Wave;
use om_lorentz::Four;
use om_ring::ring::Ring;
use om_ring::steps::Steps;

// The momentum q for which a row goes with p as a column does with q: qslash is -pslash transposed, and
// transposing turns gamma_1 and gamma_3 round.
fn row_momentum<R: Ring<Mark = L>, L>(ring: &R, p: &Four<R::E>, steps: &mut Steps<L>) -> Four<R::E>
    ensures value { result ≡ row_momentum (R.ops ring.now) p.now }
    ensures at_most { steps.new ≤ steps.old + 2 * R.cost ring.now }
{
    Four {
        t: ring.neg(p.t, steps),
        x: p.x,
        y: ring.neg(p.y, steps),
        z: p.z,
    }
}

// The column i factor (pslash + mass) d.
#[inline(always)]
fn propagate_spinor<R: Ring<Mark = L>, L>(
    ring: &R,
    d: &Four<R::E>,
    mass: R::E,
    factor: R::E,
    p: &Four<R::E>,
    steps: &mut Steps<L>,
) -> Four<R::E>
    ensures value { result ≡ spinor_form (R.ops ring.now) mass factor p.now d.now }
    ensures at_most { steps.new ≤ steps.old + 34 * R.cost ring.now }
{
    let moved = slash_column(ring, p, d, steps);
    let sum = along(ring, mass, &moved, d, steps);
    let turned = ring.mul(ring.imag(), factor, steps);
    scaled(ring, turned, &sum, steps)
}

// The vector -i factor g w.
fn propagate_massless<R: Ring<Mark = L>, L>(
    ring: &R,
    w: &Four<R::E>,
    factor: R::E,
    steps: &mut Steps<L>,
) -> Four<R::E>
    ensures value { result ≡ massless_form (R.ops ring.now) factor w.now }
    ensures at_most { steps.new ≤ steps.old + 6 * R.cost ring.now }
{
    let back = turned_back(ring, w, steps);
    let turned = ring.mul(ring.imag(), factor, steps);
    scaled(ring, turned, &back, steps)
}

// The vector -i factor (g w - p (p w) / m^2).
fn propagate_massive<R: Ring<Mark = L>, L>(
    ring: &R,
    w: &Four<R::E>,
    inverse_mass: R::E,
    factor: R::E,
    p: &Four<R::E>,
    steps: &mut Steps<L>,
) -> Four<R::E>
    ensures value { result ≡ massive_form (R.ops ring.now) inverse_mass factor p.now w.now }
    ensures at_most { steps.new ≤ steps.old + 23 * R.cost ring.now }
{
    let product = plain_dot(ring, p, w, steps);
    let square = ring.mul(inverse_mass, inverse_mass, steps);
    let part = ring.mul(square, product, steps);
    let back = turned_back(ring, w, steps);
    let sum = along(ring, part, &back, p, steps);
    let turned = ring.mul(ring.imag(), factor, steps);
    scaled(ring, turned, &sum, steps)
}

/// The wave at the far end of an edge: `factor` times the index sum of the propagator's numerator with the
/// wave that enters at the near end.
///
/// `momentum` is that of the legs behind the wave, with upper components. A column goes along the arrow of
/// its field, and so does `momentum`; a row goes against the arrow, and minus `momentum` runs along it. A
/// vector comes in with lower components, as `fuse` gives it, and goes out with upper ones. For a vector
/// `massive` holds exactly where `mass` isn't 0, and then `inverse_mass` is 1 / `mass`; the other kinds read
/// neither of the two, and a scalar no mass and no momentum. At most 36 ring calls, and no memory.
pub fn propagate<R: Ring<Mark = L>, L>(
    ring: &R,
    wave: &Wave<R::E>,
    mass: R::E,
    inverse_mass: R::E,
    massive: bool,
    factor: R::E,
    momentum: &Four<R::E>,
    steps: &mut Steps<L>,
) -> Wave<R::E>
    requires { MassAgrees (R.ops ring.now) (spin_of wave.now) mass inverse_mass massive }
    ensures kind { kind_of result ≡ kind_of wave.now }
    ensures value { let o = R.ops ring.now in
        (n : ℕ) → IsIndex (spin_of wave.now) n →
        component result n ≡ o.times factor (edge_sum o mass momentum.now wave.now n) }
    ensures at_most { steps.new ≤ steps.old + calls_to_propagate wave.now massive * R.cost ring.now }
    ensures few { steps.new ≤ steps.old + 200 * R.cost ring.now }
{
    match *wave {
        Wave::Scalar(x) => {
            let turned = ring.mul(ring.imag(), factor, steps);
            Wave::Scalar(ring.mul(turned, x, steps))
        }
        Wave::Row(r) => {
            let against = row_momentum(ring, momentum, steps);
            Wave::Row(propagate_spinor(ring, &r, mass, factor, &against, steps))
        }
        Wave::Column(d) => {
            Wave::Column(propagate_spinor(ring, &d, mass, factor, momentum, steps))
        }
        Wave::Vector(w) if massive => Wave::Vector(propagate_massive(
            ring,
            &w,
            inverse_mass,
            factor,
            momentum,
            steps,
        )),
        Wave::Vector(w) => Wave::Vector(propagate_massless(ring, &w, factor, steps)),
    }
}
