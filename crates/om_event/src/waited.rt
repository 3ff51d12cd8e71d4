//! The next line of a stream, read for a leg.
ghost use Rattle.std.specs.Prelude.{◌≡◌, ◌+◌, ◌*◌, ◌≤◌};
ghost use Rattle.std.specs.Io.{StartsWith, appended_bytes};
ghost use Rattle.om_io.specs.Bytes.{before_told};
ghost use Rattle.om_event.specs.Lines.{leg_in};
ghost use Rattle.om_event.specs.Waits.{FailsAt, IsIdle, StandsAs, EndsAt};
ghost use Rattle.om_event.specs.Written.{leg_of, said};

use crate::fours::{Fours, Scratch, put_components};
use crate::front::{ReadLine, line_at_front};
use crate::hold::Hold;
use crate::line::read_leg;
use crate::{Cause, WaveKind};
use om_io::Source;
use om_ring::{Ring, Steps};

/// What stands at the front of the bytes held, by what is known of a whole line.
pub(crate) enum Waited<T> {
    /// A whole line.
    Line(T),
    /// More bytes than a line has, and no line feed.
    TooLong,
    /// Less than a line, and the input has ended.
    Ended,
    /// Less than a line, and the input has failed.
    Failed,
}

// What the line of leg `k` says, without its line feed, put where values are.
fn read_values<R: Ring<Mark = L>, L>(
    ring: &R,
    kind: WaveKind,
    k: u8,
    line: &[u8],
    values: &mut Fours<R::E>,
    steps: &mut Steps<L>,
) -> Result<(), Cause>
    ensures value { leg_in (R.ops ring.now) kind k line.now ≡ said result (leg_of kind values.new.momentum values.new.wave) }
    ensures at_most { steps.new ≤ steps.old + 32 * R.cost ring.now }
{
    let leg = read_leg(ring, kind, k, line, steps)?;
    values.momentum = leg.momentum;
    put_components(kind, leg.wave, &mut values.wave);
    Ok(())
}

/// Reads until the line of leg `k` stands at the front, or can't come, and tells what it says.
#[tactic(auto, using(crate::proofs::Held::none_came))]
pub(crate) fn next_line<R: Ring<Mark = L>, S: Source, L>(
    ring: &R,
    kind: WaveKind,
    k: u8,
    hold: &mut Hold,
    input: &mut S,
    scratch: &mut Scratch<R::E>,
    steps: &mut Steps<L>,
) -> Waited<ReadLine>
    ensures more { StartsWith hold.new hold.old }
    ensures left { S.left input.old ≡ before_told (appended_bytes hold.old hold.new) (S.left input.new) }
    ensures stands { StandsAs (R.ops ring.now) kind k hold.new (leg_of kind scratch.new.values.momentum scratch.new.values.wave) result }
    ensures end { EndsAt result (S.left input.new) }
    ensures failed { FailsAt result (S.faults input.old) (S.faults input.new) }
    ensures later { S.faults input.old ≤ S.faults input.new }
    ensures at_most { steps.new ≤ steps.old + 32 * R.cost ring.now }
    ensures idle { IsIdle result steps.old steps.new }
{
    if let Some(line) = line_at_front(ring, kind, k, hold.bytes(), scratch, steps) {
        return Waited::Line(line);
    }
    match hold.wait_for_line(input) {
        Waited::Line(len) => Waited::Line(ReadLine {
            leg: read_values(
                ring,
                kind,
                k,
                &hold.bytes()[..len],
                &mut scratch.values,
                steps,
            ),
            len,
        }),
        Waited::TooLong => Waited::TooLong,
        Waited::Ended => Waited::Ended,
        Waited::Failed => Waited::Failed,
    }
}
