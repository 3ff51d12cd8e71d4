//! Writing to the slots.
ghost use Rattle.std.specs.Prelude.{◌≡◌, ◌<◌, length, slice_set, Some};
ghost use Rattle.om_kernel.specs.Components.{scalar_in};
ghost use Rattle.om_machine.specs.Blocks.{HasScalars};

use crate::numbers::Registers;
use om_kernel::Wave;
use om_ring::Ring;

/// Puts a wave into a slot, and its scalar beside it.
pub(crate) fn put<R: Ring>(ring: &R, registers: &mut Registers<R::E>, slot: usize, wave: Wave<R::E>)
    requires within { slot < length registers.old.waves }
    requires scalars { HasScalars (R.ops ring.now) registers.old }
    ensures waves { registers.new.waves ≡ slice_set registers.old.waves slot wave }
    ensures sums { registers.new.sums ≡ registers.old.sums }
    ensures scalars { HasScalars (R.ops ring.now) registers.new }
{
    registers.scalars.set(slot, scalar_of(ring, &wave));
    registers.waves.set(slot, wave);
}

/// The scalar of a wave, 0 of another kind.
pub(crate) fn scalar_of<R: Ring>(ring: &R, wave: &Wave<R::E>) -> R::E
    ensures { result ≡ scalar_in (R.ops ring.now) (Some wave.now) }
{
    match wave {
        Wave::Scalar(x) => *x,
        _ => ring.zero(),
    }
}
