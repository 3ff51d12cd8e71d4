//! What single texts and numbers say.
ghost use Rattle.om_modelfile.specs.Faults.{Gives};
ghost use Rattle.om_modelfile.specs.Texts.{colour_in, name_in, number_in, spin_in, structure_in};

use crate::fault::RowFault;
use om_colour::Colour;
use om_lorentz::{Spin, Structure};
use om_model::{Name, colour_of, spin_of, structure_of};
use om_ring::{Numeral, read_numeral};

pub(crate) fn read_name(text: &str) -> Result<Name, RowFault>
    ensures { Gives (λ name. name) result (name_in text.now) }
{
    match Name::read(text.as_bytes()) {
        Some(name) => Ok(name),
        None => Err(RowFault::BadName),
    }
}

pub(crate) fn read_number(text: &str) -> Result<Numeral, RowFault>
    ensures { Gives (λ number. number) result (number_in text.now) }
{
    match read_numeral(text.as_bytes()) {
        Ok(number) => Ok(number),
        Err(fault) => Err(RowFault::BadNumber(fault)),
    }
}

pub(crate) fn read_spin(word: &str) -> Result<Spin, RowFault>
    ensures { Gives (λ spin. spin) result (spin_in word.now) }
{
    match spin_of(word.as_bytes()) {
        Some(spin) => Ok(spin),
        None => Err(RowFault::UnknownName),
    }
}

pub(crate) fn read_structure(word: &str) -> Result<Structure, RowFault>
    ensures { Gives (λ structure. structure) result (structure_in word.now) }
{
    match structure_of(word.as_bytes()) {
        Some(structure) => Ok(structure),
        None => Err(RowFault::UnknownName),
    }
}

pub(crate) fn read_colour(number: i64) -> Result<Colour, RowFault>
    ensures { Gives (λ colour. colour) result (colour_in number) }
{
    match colour_of(number) {
        Some(colour) => Ok(colour),
        None => Err(RowFault::WrongKind),
    }
}
