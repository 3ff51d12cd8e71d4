//! The lines that stand once: the version, the name of the model, the slots and the end.
ghost use Rattle.std.specs.Prelude.{◌≡◌, ◌^◌};
ghost use Rattle.om_asm.specs.Lines.{Scans, word_by};
ghost use Rattle.om_asm.specs.Spelt.{literal};
ghost use Rattle.om_ring.specs.Spelt.{decimal_below};
ghost use Rattle.om_asm.specs.Heads.{version_word, version_of, model_name_of, slots_of, end_of};
ghost use Rattle.om_asm.specs.Program.{one_line, slots_at, end_at};
ghost use Rattle.om_asm.specs.Rows.{GivesAt, GivesNothing, IsAtLine};

use crate::fault::{AsmFault, AsmKind, LineFault};
use crate::lines::{Lines, Words};
use crate::words::next_name;
use om_model::Name;
use om_ring::read_decimal_below;

// Takes a word that has to stand there.
fn take_word(words: &mut Words, word: &[u8]) -> Option<()>
    ensures { Scans (word_by (literal word.now) words.old) result words.new }
{
    if words.next()? == word {
        Some(())
    } else {
        None
    }
}

// Version 1 or 2.
fn read_version_word(word: &[u8]) -> Option<u8>
    ensures { result ≡ version_word word.now }
{
    match word {
        b"1" => Some(1),
        b"2" => Some(2),
        _ => None,
    }
}

fn next_version(words: &mut Words) -> Option<u8>
    ensures { Scans (word_by version_word words.old) result words.new }
{
    read_version_word(words.next()?)
}

fn read_slots_word(word: &[u8]) -> Option<u32>
    ensures { result ≡ decimal_below (2 ^ 32) word.now }
{
    let n = read_decimal_below(word, 1 << 32)?;
    Some(n as u32)
}

fn next_slots(words: &mut Words) -> Option<u32>
    ensures { Scans (word_by (decimal_below (2 ^ 32)) words.old) result words.new }
{
    read_slots_word(words.next()?)
}

#[tactic(auto, unfolding(crate::specs::Heads::keyed))]
fn version_line(mut words: Words) -> Option<u8>
    ensures { result ≡ version_of words.entry }
{
    take_word(&mut words, b"omega")?;
    let version = next_version(&mut words)?;
    if words.next().is_some() {
        return None;
    }
    Some(version)
}

#[tactic(auto, unfolding(crate::specs::Heads::keyed))]
fn model_line(mut words: Words) -> Option<Name>
    ensures { result ≡ model_name_of words.entry }
{
    take_word(&mut words, b"model")?;
    let name = next_name(&mut words)?;
    if words.next().is_some() {
        return None;
    }
    Some(name)
}

#[tactic(auto, unfolding(crate::specs::Heads::keyed))]
fn slots_line(mut words: Words) -> Option<u32>
    ensures { result ≡ slots_of words.entry }
{
    take_word(&mut words, b"slots")?;
    let slots = next_slots(&mut words)?;
    if words.next().is_some() {
        return None;
    }
    Some(slots)
}

#[tactic(auto, unfolding(crate::specs::Heads::end_of))]
fn end_line(mut words: Words) -> Option<()>
    ensures { result ≡ end_of words.entry }
{
    take_word(&mut words, b"end")?;
    if words.next().is_some() {
        return None;
    }
    Some(())
}

/// The version, by the first line.
pub(crate) fn read_version(lines: &mut Lines) -> Result<u8, AsmFault>
    ensures { GivesAt (one_line version_of lines.old) result lines.new }
{
    let Some(version) = version_line(lines.words()) else {
        return Err(bad_line(lines));
    };
    lines.advance();
    Ok(version)
}

// The line at the place breaks the grammar, or is missing.
fn bad_line(lines: &Lines) -> AsmFault
    ensures { IsAtLine (LineFault.Bad AsmKind.Grammar) lines.now.number result }
{
    LineFault::Bad(AsmKind::Grammar).at_line(lines.number())
}

/// The name of the model, by the second line.
pub(crate) fn read_model_name(lines: &mut Lines) -> Result<Name, AsmFault>
    ensures { GivesAt (one_line model_name_of lines.old) result lines.new }
{
    let Some(name) = model_line(lines.words()) else {
        return Err(bad_line(lines));
    };
    lines.advance();
    Ok(name)
}

/// How many slots there are, by their line. Version 1 has no such line: there the answer is 0.
pub(crate) fn read_slots(version: u8, lines: &mut Lines) -> Result<u32, AsmFault>
    ensures { GivesAt (slots_at version lines.old) result lines.new }
{
    if version == 1 {
        return Ok(0);
    }
    read_slots_line(lines)
}

fn read_slots_line(lines: &mut Lines) -> Result<u32, AsmFault>
    ensures { GivesAt (one_line slots_of lines.old) result lines.new }
{
    let Some(slots) = slots_line(lines.words()) else {
        return Err(bad_line(lines));
    };
    lines.advance();
    Ok(slots)
}

fn read_end_line(lines: &mut Lines) -> Result<(), AsmFault>
    ensures { GivesAt (one_line end_of lines.old) result lines.new }
{
    let Some(()) = end_line(lines.words()) else {
        return Err(bad_line(lines));
    };
    lines.advance();
    Ok(())
}

/// The last line, behind which nothing follows.
pub(crate) fn read_end(lines: &mut Lines) -> Result<(), AsmFault>
    ensures { GivesNothing (end_at lines.old) result }
{
    read_end_line(lines)?;
    if lines.is_done() {
        Ok(())
    } else {
        Err(bad_line(lines))
    }
}
