//! The legs of the names of the text of a process.
ghost use Rattle.std.specs.Prelude.{◌≡◌, ◌^◌, ◌≤◌, length, IfOk};
ghost use Rattle.om_model.specs.ProcessText.{GivesLegs, leg_of as leg_of_of, legs_from, names_of};

use super::syntax::{ARROW, is_name};
use super::tokens::next_token;
use crate::fields::{anti_field, field_named};
use crate::{Leg, Particle, ProcessFault};
use om_ring::List;
use std::alloc::Global;

/// The legs of the names of a text, or the first name that isn't in the model.
pub(crate) fn named_legs(
    alloc: Global,
    particles: &[Particle],
    text: &[u8],
) -> Result<List<Leg>, ProcessFault>
    requires { length particles.now ≤ 2 ^ 15 }
    ensures legs { GivesLegs (legs_from particles.now (names_of text.now)) result }
    ensures few { IfOk result (λ legs. length legs ≤ length text.now) }
{
    let mut legs = List::new(alloc);
    let mut outgoing = false;
    let mut at = 0;
    while let Some(token) = next_token(text, at) {
        let word = &text[token.start..token.end];
        if is_name(word) {
            let Some(field) = field_named(particles, word) else {
                return Err(ProcessFault::Unknown(token.start));
            };
            let Ok(()) = legs.push(leg_of(particles, outgoing, field)) else {
                return Err(ProcessFault::Memory);
            };
        } else {
            outgoing |= word == ARROW;
        }
        at = token.end;
    }
    Ok(legs)
}

// The leg of a field that is written: an outgoing leg lets the antifield enter the diagram.
fn leg_of(particles: &[Particle], outgoing: bool, field: u16) -> Leg
    ensures { result ≡ leg_of_of particles.now outgoing field }
{
    let entering = if outgoing {
        anti_field(particles, field)
    } else {
        field
    };
    Leg {
        field: entering,
        outgoing,
    }
}
