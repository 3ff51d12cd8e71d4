//! What a vertex of each structure gives at a hole, by components. Each function is its line of `specs/Forms.antt`.
//!
//! Where they can, they read slots and factors before the first ring call, since the counter of calls is stored
//! anew before each read that follows a call.
ghost use Rattle.std.specs.Prelude.{◌≡◌, ◌+◌, ◌*◌, ◌≤◌};
ghost use Rattle.om_lorentz.specs.Structures.{slot_count};
ghost use Rattle.om_kernel.specs.Calls.{calls_to_fuse};
ghost use Rattle.om_kernel.specs.Forms.{coupling, fused};
ghost use Rattle.om_kernel.specs.Slots.{filled};

mod fermions;
mod gauge;
mod metrics;
mod scalars;

use crate::waves::{Slots, Wave};
use fermions::{ffs, ffv};
use gauge::{gluon4, vvv, vvvv};
use metrics::{vvs, vvss};
use om_lorentz::{Factors, Reading, Structure};
use om_ring::ring::Ring;
use om_ring::steps::Steps;
use scalars::{sss, ssss, vss};

// i a.
fn coupling<R: Ring<Mark = L>, L>(ring: &R, factors: &Factors<R::E>, steps: &mut Steps<L>) -> R::E
    ensures value { result ≡ coupling (R.ops ring.now) factors.now }
    ensures at_most { steps.new ≤ steps.old + R.cost ring.now }
{
    ring.mul(ring.imag(), factors.a, steps)
}

// i a times a scalar.
#[inline(always)]
fn one_scalar<R: Ring<Mark = L>, L>(
    ring: &R,
    factors: &Factors<R::E>,
    s: R::E,
    steps: &mut Steps<L>,
) -> R::E
    ensures value { let o = R.ops ring.now in result ≡ o.times (coupling o factors.now) s }
    ensures at_most { steps.new ≤ steps.old + 2 * R.cost ring.now }
{
    let c = coupling(ring, factors, steps);
    ring.mul(c, s, steps)
}

// i a times two scalars.
#[inline(always)]
fn two_scalars<R: Ring<Mark = L>, L>(
    ring: &R,
    factors: &Factors<R::E>,
    s: R::E,
    t: R::E,
    steps: &mut Steps<L>,
) -> R::E
    ensures value { let o = R.ops ring.now in result ≡ o.times (o.times (coupling o factors.now) s) t }
    ensures at_most { steps.new ≤ steps.old + 3 * R.cost ring.now }
{
    let once = one_scalar(ring, factors, s, steps);
    ring.mul(once, t, steps)
}

/// What a vertex gives at a hole, whatever the hole itself holds.
pub(crate) fn fused<R: Ring<Mark = L>, L>(
    ring: &R,
    structure: Structure,
    reading: Reading,
    factors: &Factors<R::E>,
    slots: &Slots<R::E>,
    hole: u8,
    steps: &mut Steps<L>,
) -> Wave<R::E>
    requires low { 1 ≤ hole }
    requires high { hole ≤ slot_count structure }
    ensures value { let o = R.ops ring.now in result ≡ fused o factors.now (filled o slots.now) structure reading hole }
    ensures at_most { steps.new ≤ steps.old + calls_to_fuse structure hole * R.cost ring.now }
{
    match structure {
        Structure::Sss => sss(ring, factors, slots, hole, steps),
        Structure::Ssss => ssss(ring, factors, slots, hole, steps),
        Structure::Vss => vss(ring, factors, slots, hole, steps),
        Structure::Vvs => vvs(ring, factors, slots, hole, steps),
        Structure::Vvss => vvss(ring, factors, slots, hole, steps),
        Structure::Ffs => ffs(ring, factors, slots, hole, steps),
        Structure::Ffv => ffv(ring, factors, slots, hole, steps),
        Structure::Vvv => vvv(ring, reading, factors, slots, hole, steps),
        Structure::Vvvv => vvvv(ring, factors, slots, hole, steps),
        Structure::Gluon4 => gluon4(ring, reading, factors, slots, hole, steps),
    }
}
