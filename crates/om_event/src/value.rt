//! The values of the numerals of a line.
ghost use Rattle.std.specs.Prelude.{◌≡◌, ◌+◌, ◌*◌, ◌≤◌};
ghost use Rattle.om_ring.specs.Ops.{signed};
ghost use Rattle.om_event.specs.Written.{four_value, leg_of, leg_value, said, value_at, wave_of, wave_value};

use crate::fours::Fours;
use crate::{Cause, WaveKind};
use om_lorentz::Four;
use om_ring::{Numeral, Ring, Steps, value_of};

// Minus `size` where there is a sign.
#[inline(always)]
fn signed<R: Ring<Mark = L>, L>(ring: &R, neg: bool, size: R::E, steps: &mut Steps<L>) -> R::E
    ensures value { result ≡ signed (R.ops ring.now) neg size }
    ensures at_most { steps.new ≤ steps.old + R.cost ring.now }
{
    if neg { ring.neg(size, steps) } else { size }
}

// The value of a numeral. A whole one without mark, as most are, is told here.
#[inline(always)]
#[tactic(auto, unfolding(crate::specs::Written::value_at))]
fn value_at<R: Ring<Mark = L>, L>(
    ring: &R,
    numeral: &Numeral,
    steps: &mut Steps<L>,
) -> Result<R::E, Cause>
    ensures value { result ≡ value_at (R.ops ring.now) numeral.now }
    ensures at_most { steps.new ≤ steps.old + 4 * R.cost ring.now }
{
    if numeral.den == 1 && !numeral.imag {
        let size = ring.number(numeral.num);
        let value = signed(ring, numeral.neg, size, steps);
        return Ok(value);
    }
    match value_of(ring, numeral, steps) {
        Some(value) => Ok(value),
        None => Err(Cause::NoInverse),
    }
}

// Puts the values of four.
#[inline(always)]
#[tactic(auto, unfolding(crate::specs::Written::four_value))]
fn put_four<R: Ring<Mark = L>, L>(
    ring: &R,
    p: &Four<Numeral>,
    to: &mut Four<R::E>,
    steps: &mut Steps<L>,
) -> Result<(), Cause>
    ensures value { four_value (R.ops ring.now) p.now ≡ said result to.new }
    ensures at_most { steps.new ≤ steps.old + 16 * R.cost ring.now }
{
    to.t = value_at(ring, &p.t, steps)?;
    to.x = value_at(ring, &p.x, steps)?;
    to.y = value_at(ring, &p.y, steps)?;
    to.z = value_at(ring, &p.z, steps)?;
    Ok(())
}

// Puts the values of a wave, of which a scalar's is the first.
#[inline(always)]
#[tactic(auto, unfolding(crate::specs::Written::scalar_value, crate::specs::Written::value_as))]
fn put_wave<R: Ring<Mark = L>, L>(
    ring: &R,
    kind: WaveKind,
    wave: &Four<Numeral>,
    to: &mut Four<R::E>,
    steps: &mut Steps<L>,
) -> Result<(), Cause>
    ensures value { wave_value (R.ops ring.now) (wave_of kind wave.now) ≡ said result (wave_of kind to.new) }
    ensures at_most { steps.new ≤ steps.old + 16 * R.cost ring.now }
{
    match kind {
        WaveKind::Scalar => to.t = value_at(ring, &wave.t, steps)?,
        WaveKind::Row | WaveKind::Column | WaveKind::Vector => put_four(ring, wave, to, steps)?,
    }
    Ok(())
}

/// Puts the values of a leg, or tells that a numeral of it has none.
#[inline(always)]
#[tactic(auto, unfolding(crate::specs::Written::leg_value))]
pub(crate) fn put_leg<R: Ring<Mark = L>, L>(
    ring: &R,
    kind: WaveKind,
    numerals: &Fours<Numeral>,
    values: &mut Fours<R::E>,
    steps: &mut Steps<L>,
) -> Result<(), Cause>
    ensures value { leg_value (R.ops ring.now) (leg_of kind numerals.now.momentum numerals.now.wave) ≡ said result (leg_of kind values.new.momentum values.new.wave) }
    ensures at_most { steps.new ≤ steps.old + 32 * R.cost ring.now }
{
    put_four(ring, &numerals.momentum, &mut values.momentum, steps)?;
    put_wave(ring, kind, &numerals.wave, &mut values.wave, steps)?;
    Ok(())
}
