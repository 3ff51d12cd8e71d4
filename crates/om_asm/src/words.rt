//! Reading the words of particles, sets and fields.
ghost use Rattle.std.specs.Prelude.{◌≡◌, ◌==◌};
ghost use Rattle.om_model.specs.LegSetText.{leg_set_of_word};
ghost use Rattle.om_model.specs.Words.{spin_of_word, colour_of_word};
ghost use Rattle.om_asm.specs.Lines.{Scans, word_by};
ghost use Rattle.om_asm.specs.Reading.{name_of, factor_of, named};
ghost use Rattle.om_asm.specs.Rows.{Gives};

use crate::fault::{AsmKind, LineFault};
use crate::fields::Fields;
use crate::lines::Words;
use om_colour::Colour;
use om_legs::LegSet;
use om_lorentz::Spin;
use om_model::{Name, colour_of_word, leg_set_of, spin_of};
use om_ring::{Line, Numeral, read_numeral, show_numeral};

pub(crate) fn read_name(word: &[u8]) -> Option<Name>
    ensures { result ≡ name_of word.now }
{
    Name::read(word)
}

pub(crate) fn next_name(words: &mut Words) -> Option<Name>
    ensures { Scans (word_by name_of words.old) result words.new }
{
    read_name(words.next()?)
}

pub(crate) fn next_spin(words: &mut Words) -> Option<Spin>
    ensures { Scans (word_by spin_of_word words.old) result words.new }
{
    spin_of(words.next()?)
}

pub(crate) fn next_colour(words: &mut Words) -> Option<Colour>
    ensures { Scans (word_by colour_of_word words.old) result words.new }
{
    colour_of_word(words.next()?)
}

/// A numeral in its canonical spelling.
pub(crate) fn read_factor(word: &[u8]) -> Option<Numeral>
    ensures { result ≡ factor_of word.now }
{
    let Ok(x) = read_numeral(word) else {
        return None;
    };
    let mut line = Line::new();
    show_numeral(&x, &mut line);
    if line.bytes() == word { Some(x) } else { None }
}

pub(crate) fn next_set(words: &mut Words) -> Option<LegSet>
    ensures { Scans (word_by leg_set_of_word words.old) result words.new }
{
    leg_set_of(words.next()?)
}

/// A field by its name.
pub(crate) fn read_field(fields: &Fields, word: &[u8]) -> Result<u16, LineFault>
    ensures { Gives (named fields.now word.now) result }
{
    if Name::read(word).is_none() {
        return Err(LineFault::Bad(AsmKind::Grammar));
    }
    match fields.named(word) {
        Some(field) => Ok(field),
        None => Err(LineFault::Bad(AsmKind::Name)),
    }
}
