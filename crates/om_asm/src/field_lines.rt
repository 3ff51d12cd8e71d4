//! The lines of legs and denominators.
ghost use Rattle.om_asm.specs.Reading.{leg_row, den_row};
ghost use Rattle.om_asm.specs.Rows.{Gives};

use crate::fault::{AsmKind, LineFault};
use crate::fields::Fields;
use crate::lines::Words;
use crate::words::{next_set, read_field};
use om_code::Den;

/// What a leg line says.
#[tactic(auto, unfolding(crate::specs::Reading::leg_row))]
pub(crate) fn read_leg_line(fields: &Fields, mut words: Words) -> Result<u16, LineFault>
    ensures { Gives (leg_row fields.now words.entry) result }
{
    let Some(name) = words.next() else {
        return Err(LineFault::Bad(AsmKind::Grammar));
    };
    if words.next().is_some() {
        return Err(LineFault::Bad(AsmKind::Grammar));
    }
    read_field(fields, name)
}

/// What a den line says.
#[tactic(auto, unfolding(crate::specs::Reading::den_row))]
pub(crate) fn read_den_line(fields: &Fields, mut words: Words) -> Result<Den, LineFault>
    ensures { Gives (den_row fields.now words.entry) result }
{
    let Some(legs) = next_set(&mut words) else {
        return Err(LineFault::Bad(AsmKind::Grammar));
    };
    let Some(name) = words.next() else {
        return Err(LineFault::Bad(AsmKind::Grammar));
    };
    if words.next().is_some() {
        return Err(LineFault::Bad(AsmKind::Grammar));
    }
    match read_field(fields, name) {
        Ok(field) => Ok(Den { legs, field }),
        Err(fault) => Err(fault),
    }
}
