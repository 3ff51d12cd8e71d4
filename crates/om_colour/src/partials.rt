//! The partial flow of a leg.
ghost use Rattle.std.specs.Prelude.{◌≡◌, ◌+◌, ◌≤◌, ◌&&◌, Some, cond, eqb};
ghost use Rattle.om_colour.specs.Lines.{ends_line, starts_line};
ghost use Rattle.om_colour.specs.Lines.Side.{leg as leg_side};
ghost use Rattle.om_colour.specs.Partials.{IsPartialOf, IsSound, each_leg, leg_partial};
ghost use Rattle.om_legs.specs.declared.leg_set.TheConstants.{MOST_LEGS};
ghost use Rattle.om_colour.specs.declared.TheConstants.{UPWARDS};

use crate::{Colour, ENDS, Partial, UPWARDS};

/// The partial flow of a leg from 1 to [`om_legs::MOST_LEGS`] that has this colour: its line leaves upwards where it starts one,
/// and the line that enters ends at it where it ends one.
pub fn partial_of_leg(leg: u8, colour: Colour) -> Partial
    requires least { 1 ≤ leg }
    requires most { leg ≤ MOST_LEGS }
    ensures value { result ≡ leg_partial leg colour }
    ensures lines { IsPartialOf (leg_side leg colour) (Some result) }
    ensures sound { IsSound (Some result) }
{
    Partial {
        ends: ends_from(leg, colour),
        into: end_within(leg, colour),
    }
}

fn ends_from(leg: u8, colour: Colour) -> [u8; ENDS]
    requires least { 1 ≤ leg }
    requires most { leg ≤ MOST_LEGS }
    ensures { result ≡ each_leg (λ k. cond (starts_line colour && eqb (k + 1) leg) UPWARDS 0) }
{
    let mut ends = [0; ENDS];
    if colour.starts_line() {
        ends[leg as usize - 1] = UPWARDS;
    }
    ends
}

fn end_within(leg: u8, colour: Colour) -> u8
    ensures { result ≡ cond (ends_line colour) leg 0 }
{
    if colour.ends_line() { leg } else { 0 }
}
