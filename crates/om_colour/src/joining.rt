//! Partial flows, joined at a vertex.
ghost use Rattle.std.specs.Prelude.{◌≡◌, ℕ, ◌<◌, ◌≤◌, None, slice_index};
ghost use Rattle.om_colour.specs.Lines.{IsSlot};
ghost use Rattle.om_colour.specs.Choices.{goes_to};
ghost use Rattle.om_colour.specs.Partials.{Closes, Fits, FitsOnwards, Joins, all_beyond, closed, each_leg, end_at, end_through, ends_by, first_of, into_at, joined, merged_end, no_hole, part_at};

use crate::{Choice, ENDS, Flow, Partial, SlotPartials, UPWARDS};

/// The partial flow of the side that a vertex and the parts behind its slots make, seen from the slot `hole`,
/// which is free: a line that a part sends upwards goes on by the choice, into another part or out through
/// the hole, and the line that enters through the hole goes on into a part.
///
/// The slots past the vertex are free too. The partial flows have to fit the choice: no leg stands in two of
/// them, none has an end twice, and a line leaves the part behind a slot, or enters it, exactly where the
/// choice sends one on from that slot, or to it. The answer then fits the vertex at the other end of the edge.
pub fn join(slots: &SlotPartials, choice: &Choice, hole: u8) -> Partial
    requires hole { IsSlot hole }
    requires free { part_at slots.now hole ≡ None }
    requires fit { Fits slots.now choice.now hole }
    ensures value { result ≡ joined slots.now choice.now hole }
    ensures lines { Joins slots.now choice.now hole result }
    ensures onwards { FitsOnwards slots.now choice.now hole result }
{
    let mut beyond = ends_beyond(slots);
    let into = beyond[choice.to[hole as usize - 1] as usize];
    beyond[hole as usize] = UPWARDS;
    Partial {
        ends: joined_ends(slots, choice, &beyond),
        into,
    }
}

/// The flow of the diagram that a vertex and the parts behind all its slots make. The partial flows have to
/// fit the choice, as for [`join`].
pub fn close(slots: &SlotPartials, choice: &Choice) -> Flow
    requires { Fits slots.now choice.now no_hole }
    ensures value { result ≡ closed slots.now choice.now }
    ensures lines { Closes slots.now choice.now result }
{
    Flow {
        ends: joined_ends(slots, choice, &ends_beyond(slots)),
    }
}

// Where a line ends that leaves the vertex through a slot, for the slots from 1 on. The first stands for no
// slot.
fn ends_beyond(slots: &SlotPartials) -> [u8; 5]
    ensures { result ≡ all_beyond slots.now }
{
    [
        0,
        end_into(&slots.first),
        end_into(&slots.second),
        end_into(&slots.third),
        end_into(&slots.fourth),
    ]
}

fn end_into(part: &Option<Partial>) -> u8
    ensures { result ≡ into_at part.now }
{
    match part {
        Some(p) => p.into,
        None => 0,
    }
}

// Where the lines of all parts end, when a line that leaves the vertex through slot `s` ends at `beyond[s]`.
fn joined_ends(slots: &SlotPartials, choice: &Choice, beyond: &[u8; 5]) -> [u8; ENDS]
    requires { (s : ℕ) → IsSlot s → goes_to choice.now s ≤ 4 }
    ensures { result ≡ each_leg (ends_by slots.now choice.now (slice_index beyond.now)) }
{
    let fourth = ends_with(&slots.fourth, beyond[choice.to[3] as usize], &[0; ENDS]);
    let third = ends_with(&slots.third, beyond[choice.to[2] as usize], &fourth);
    let second = ends_with(&slots.second, beyond[choice.to[1] as usize], &third);
    ends_with(&slots.first, beyond[choice.to[0] as usize], &second)
}

// The ends of the lines of a part, at `beyond` where they leave it upwards, together with other ends.
fn ends_with(part: &Option<Partial>, beyond: u8, others: &[u8; ENDS]) -> [u8; ENDS]
    ensures { result ≡ each_leg (merged_end (end_at part.now) beyond (slice_index others.now)) }
{
    match part {
        Some(p) => merged_ends(&p.ends, beyond, others),
        None => *others,
    }
}

fn merged_ends(ends: &[u8; ENDS], beyond: u8, others: &[u8; ENDS]) -> [u8; ENDS]
    ensures { result ≡ each_leg (merged_end (slice_index ends.now) beyond (slice_index others.now)) }
{
    [
        merged_end(ends[0], beyond, others[0]),
        merged_end(ends[1], beyond, others[1]),
        merged_end(ends[2], beyond, others[2]),
        merged_end(ends[3], beyond, others[3]),
        merged_end(ends[4], beyond, others[4]),
        merged_end(ends[5], beyond, others[5]),
        merged_end(ends[6], beyond, others[6]),
        merged_end(ends[7], beyond, others[7]),
        merged_end(ends[8], beyond, others[8]),
        merged_end(ends[9], beyond, others[9]),
        merged_end(ends[10], beyond, others[10]),
        merged_end(ends[11], beyond, others[11]),
    ]
}

fn merged_end(end: u8, beyond: u8, other: u8) -> u8
    ensures { result ≡ first_of (end_through end beyond) other }
{
    let end = if end == UPWARDS { beyond } else { end };
    if end == 0 { other } else { end }
}
