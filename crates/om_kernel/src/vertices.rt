//! What a vertex makes of the waves in its slots.
ghost use Rattle.std.specs.Prelude.{◌≡◌, ℕ, ◌+◌, ◌*◌, ◌≤◌, ◌<◌, length};
ghost use Rattle.om_lorentz.specs.Structures.{IsReading, slot_count, slot_indices};
ghost use Rattle.om_kernel.specs.Calls.{calls_to_close, calls_to_contract, calls_to_fuse};
ghost use Rattle.om_kernel.specs.Forms.{contracted};
ghost use Rattle.om_kernel.specs.IndexSums.{Fits, FitsAll, full_sum, fused_kind, index_sum};
ghost use Rattle.om_kernel.specs.Slots.{filled};
ghost use Rattle.om_kernel.specs.Waves.{component, kind_of};

use crate::slots::{four_at, scalar_at};
use crate::structures::fused;
use crate::vectors::plain_dot;
use crate::waves::{Slots, Wave};
use om_lorentz::{Factors, Reading, Structure};
use om_ring::ring::Ring;
use om_ring::steps::Steps;

/// What a vertex gives at its slot `hole`, counted from 1: at each index of the hole i times the sum, over
/// the indices of all other slots, of the vertex entry times the components of their waves.
///
/// Exactly the hole and a slot past the vertex hold no wave, and each other wave has the kind of its slot.
/// `reading` names each slot once, and 0 past the vertex; only `Vvv` and `Gluon4` read their slots in its
/// order. Waves of vectors have upper components, and a vector that comes out has lower ones. In `Ffs` and
/// `Ffv` a column comes out at slot 1 and a row at slot 2. At most as many ring calls as `specs/Calls.antt` says.
pub fn fuse<R: Ring<Mark = L>, L>(
    ring: &R,
    structure: Structure,
    reading: Reading,
    factors: &Factors<R::E>,
    slots: &Slots<R::E>,
    hole: u8,
    steps: &mut Steps<L>,
) -> Wave<R::E>
    requires low { 1 ≤ hole }
    requires high { hole ≤ slot_count structure }
    requires reads { IsReading structure reading }
    requires fits { let o = R.ops ring.now in Fits structure hole (filled o slots.now) }
    ensures kind { kind_of result ≡ fused_kind structure hole }
    ensures value { let o = R.ops ring.now in (n : ℕ) → n < length (slot_indices structure hole) →
        component result n ≡ o.times o.imag (index_sum o structure reading factors.now (filled o slots.now) hole n) }
    ensures at_most { steps.new ≤ steps.old + calls_to_fuse structure hole * R.cost ring.now }
    ensures few { steps.new ≤ steps.old + 700 * R.cost ring.now }
{
    fused(ring, structure, reading, factors, slots, hole, steps)
}

// The product of a wave and the wave in a slot, summed over their index.
fn contracted<R: Ring<Mark = L>, L>(
    ring: &R,
    wave: &Wave<R::E>,
    slots: &Slots<R::E>,
    slot: u8,
    steps: &mut Steps<L>,
) -> R::E
    ensures value { let o = R.ops ring.now in result ≡ contracted o (filled o slots.now) wave.now slot }
    ensures at_most { steps.new ≤ steps.old + calls_to_contract wave.now * R.cost ring.now }
{
    match wave {
        Wave::Scalar(x) => ring.mul(*x, scalar_at(ring, slots, slot), steps),
        Wave::Row(p) | Wave::Column(p) | Wave::Vector(p) => {
            plain_dot(ring, p, &four_at(ring, slots, slot), steps)
        }
    }
}

/// What a vertex makes of the waves in all its slots: i times the sum, over the indices of the slots, of the
/// vertex entry times the components of the waves.
///
/// Exactly a slot past the vertex holds no wave, and each wave has the kind of its slot. `reading` is as for
/// `fuse`. At most as many ring calls as `specs/Calls.antt` says.
pub fn close<R: Ring<Mark = L>, L>(
    ring: &R,
    structure: Structure,
    reading: Reading,
    factors: &Factors<R::E>,
    slots: &Slots<R::E>,
    steps: &mut Steps<L>,
) -> R::E
    requires reads { IsReading structure reading }
    requires fits { let o = R.ops ring.now in FitsAll structure (filled o slots.now) }
    ensures value { let o = R.ops ring.now in
        result ≡ o.times o.imag (full_sum o structure reading factors.now (filled o slots.now)) }
    ensures at_most { steps.new ≤ steps.old + calls_to_close structure * R.cost ring.now }
    ensures few { steps.new ≤ steps.old + 700 * R.cost ring.now }
{
    let last = structure.slot_count();
    let wave = fused(ring, structure, reading, factors, slots, last, steps);
    contracted(ring, &wave, slots, last, steps)
}
