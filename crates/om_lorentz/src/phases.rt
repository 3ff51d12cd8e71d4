//! The numbers of which the gamma matrices are made.
ghost use Rattle.std.specs.Prelude.{◌≡◌, ◌+◌, ◌*◌, ◌≤◌};
ghost use Rattle.om_lorentz.specs.Phases.{phase_value};

use om_ring::ring::Ring;
use om_ring::steps::Steps;

/// 0, 1, -1, i or -i.
#[derive(Clone, Copy)]
pub(crate) enum Phase {
    Zero,
    One,
    MinusOne,
    Imag,
    MinusImag,
}

/// The phase as an element.
pub(crate) fn value<R: Ring<Mark = L>, L>(ring: &R, phase: Phase, steps: &mut Steps<L>) -> R::E
    ensures value { result ≡ phase_value (R.ops ring.now) phase }
    ensures at_most { steps.new ≤ steps.old + R.cost ring.now }
{
    match phase {
        Phase::Zero => ring.zero(),
        Phase::One => ring.one(),
        Phase::MinusOne => ring.neg(ring.one(), steps),
        Phase::Imag => ring.imag(),
        Phase::MinusImag => ring.neg(ring.imag(), steps),
    }
}

/// The phase times x, with a product only where the phase has an i.
pub(crate) fn turned<R: Ring<Mark = L>, L>(
    ring: &R,
    phase: Phase,
    x: R::E,
    steps: &mut Steps<L>,
) -> R::E
    ensures value { let o = R.ops ring.now in result ≡ o.times (phase_value o phase) x }
    ensures at_most { steps.new ≤ steps.old + 2 * R.cost ring.now }
{
    match phase {
        Phase::Zero => ring.zero(),
        Phase::One => x,
        Phase::MinusOne => ring.neg(x, steps),
        Phase::Imag => ring.mul(ring.imag(), x, steps),
        Phase::MinusImag => {
            let back = ring.mul(ring.imag(), x, steps);
            ring.neg(back, steps)
        }
    }
}
