//! The line at the front of some bytes, read in one pass.
//!
//! Read so is a line of numerals in their canonical text. None says nothing of a line: [`read_leg`](crate::line::read_leg) reads any.
ghost use Rattle.std.specs.Prelude.{◌≡◌, ◌+◌, ◌*◌, ◌≤◌, IfSome, None};
ghost use Rattle.om_event.specs.Written.{IsLineOf, leg_of, said};

use crate::fours::Scratch;
use crate::value::put_leg;
use crate::written::leg_at_front;
use crate::{Cause, MOST_LINE_BYTES, WaveKind};
use om_ring::{Ring, Steps};

/// That the line of a leg was read, or the cause, and the length of the line without the line feed.
#[derive(Clone, Copy)]
pub(crate) struct ReadLine {
    pub(crate) leg: Result<(), Cause>,
    pub(crate) len: usize,
}

/// What the line of leg `k` at the front says, if it is read so.
#[inline(always)]
pub(crate) fn line_at_front<R: Ring<Mark = L>, L>(
    ring: &R,
    kind: WaveKind,
    k: u8,
    text: &[u8],
    scratch: &mut Scratch<R::E>,
    steps: &mut Steps<L>,
) -> Option<ReadLine>
    ensures read { IfSome result (λ r. IsLineOf (R.ops ring.now) kind k text.now (said r.leg (leg_of kind scratch.new.values.momentum scratch.new.values.wave)) r.len) }
    ensures at_most { steps.new ≤ steps.old + 32 * R.cost ring.now }
    ensures idle { result ≡ None → steps.new ≡ steps.old }
{
    let len = leg_at_front(kind, k, text, &mut scratch.numerals)?;
    if len > MOST_LINE_BYTES {
        return None;
    }
    let leg = put_leg(ring, kind, &scratch.numerals, &mut scratch.values, steps);
    Some(ReadLine { leg, len })
}
