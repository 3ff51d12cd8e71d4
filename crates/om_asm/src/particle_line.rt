//! The lines of particles.
ghost use Rattle.om_asm.specs.Lines.{word_by};
ghost use Rattle.om_asm.specs.Reading.{particle_row, product_of};
ghost use Rattle.om_asm.specs.Rows.{Gives, TakesWord, formed};

use crate::fault::{AsmKind, LineFault};
use crate::lines::Words;
use crate::words::{next_colour, next_name, next_spin, read_factor};
use om_model::limits::MOST_NUMERALS;
use om_model::{Particle, Product};
use om_ring::List;
use std::alloc::Global;

// The word of a product, which is taken from the words.
fn next_product(alloc: Global, words: &mut Words) -> Result<Product, LineFault>
    ensures { TakesWord (word_by product_of words.old) result words.new }
{
    let Some(word) = words.next() else {
        return Err(LineFault::Bad(AsmKind::Grammar));
    };
    read_product(alloc, word)
}

/// 1 to 8 canonical numerals with stars between.
pub(crate) fn read_product(alloc: Global, word: &[u8]) -> Result<Product, LineFault>
    ensures { Gives (formed (product_of word.now)) result }
{
    let mut pieces = Words::pieces(word, b'*');
    let mut product = List::new(alloc);
    while let Some(piece) = pieces.next() {
        let Some(x) = read_factor(piece) else {
            return Err(LineFault::Bad(AsmKind::Grammar));
        };
        if product.len() >= MOST_NUMERALS {
            return Err(LineFault::Bad(AsmKind::Grammar));
        }
        let Ok(()) = product.push(x) else {
            return Err(LineFault::Memory);
        };
    }
    Ok(product)
}

/// What a particle line says.
#[tactic(auto, unfolding(crate::specs::Reading::particle_row))]
pub(crate) fn read_particle_line(alloc: Global, mut words: Words) -> Result<Particle, LineFault>
    ensures { Gives (particle_row words.entry) result }
{
    let Some(name) = next_name(&mut words) else {
        return Err(LineFault::Bad(AsmKind::Grammar));
    };
    let Some(anti) = next_name(&mut words) else {
        return Err(LineFault::Bad(AsmKind::Grammar));
    };
    let Some(spin) = next_spin(&mut words) else {
        return Err(LineFault::Bad(AsmKind::Grammar));
    };
    let mass = next_product(alloc, &mut words)?;
    let width = next_product(alloc, &mut words)?;
    let norm = next_product(alloc, &mut words)?;
    let Some(colour) = next_colour(&mut words) else {
        return Err(LineFault::Bad(AsmKind::Grammar));
    };
    if words.next().is_some() {
        return Err(LineFault::Bad(AsmKind::Grammar));
    }
    Ok(Particle {
        name,
        anti,
        spin,
        mass,
        width,
        norm,
        colour,
    })
}
