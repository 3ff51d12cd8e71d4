//! Reading the lines of vertices.
ghost use Rattle.std.specs.Prelude.{◌≡◌, codes, Ok};
ghost use Rattle.om_model.specs.Words.{structure_of_word};
ghost use Rattle.om_asm.specs.Lines.{Scans, word_by};
ghost use Rattle.om_asm.specs.Spelt.{literal};
ghost use Rattle.om_ring.specs.Spelt.{decimal_below};
ghost use Rattle.om_asm.specs.VertexSlots.{slot_of, fourth_slot, factors_of};
ghost use Rattle.om_asm.specs.Vertices.{known_fields, vertex_row};
ghost use Rattle.om_asm.specs.Lists.{list_from};
ghost use Rattle.om_asm.specs.Reading.{product_of};
ghost use Rattle.om_asm.specs.Rows.{Gives, formed};

use crate::fault::{AsmKind, LineFault};
use crate::fields::Fields;
use crate::lines::Words;
use crate::numbers::read_small;
use crate::particle_line::read_product;
use om_lorentz::Structure;
use om_model::{Name, Product, Vertex, structure_of};
use om_ring::List;
use std::alloc::Global;

const COLON: &[u8] = b":";

// The field of a slot, none where no particle has the name.
type Slot = Option<u16>;

fn next_structure(words: &mut Words) -> Option<Structure>
    ensures { Scans (word_by structure_of_word words.old) result words.new }
{
    structure_of(words.next()?)
}

fn next_order(words: &mut Words) -> Option<u8>
    ensures { Scans (word_by (decimal_below 256) words.old) result words.new }
{
    read_small(words.next()?)
}

fn read_slot(fields: &Fields, word: &[u8]) -> Option<Slot>
    ensures { result ≡ slot_of fields.now word.now }
{
    if Name::read(word).is_none() {
        return None;
    }
    Some(fields.named(word))
}

fn next_slot(fields: &Fields, words: &mut Words) -> Option<Slot>
    ensures { Scans (word_by (slot_of fields.now) words.old) result words.new }
{
    read_slot(fields, words.next()?)
}

fn take_colon(words: &mut Words) -> Option<()>
    ensures { Scans (word_by (literal (codes ":")) words.old) result words.new }
{
    if words.next()? == COLON {
        Some(())
    } else {
        None
    }
}

// A colon, or a fourth slot and a colon.
#[tactic(auto, unfolding(crate::specs::VertexSlots::fourth_slot))]
fn next_fourth(fields: &Fields, words: &mut Words) -> Option<Option<Slot>>
    ensures { Scans (fourth_slot fields.now words.old) result words.new }
{
    let word = words.next()?;
    if word == COLON {
        return Some(None);
    }
    let slot = read_slot(fields, word)?;
    take_colon(words)?;
    Some(Some(slot))
}

// One to three products.
#[tactic(auto, unfolding(crate::specs::VertexSlots::factors_of))]
fn read_factors(alloc: Global, words: Words) -> Result<List<Product>, LineFault>
    ensures { Gives (formed (factors_of words.entry)) result }
{
    let factors = read_products(alloc, words)?;
    if factors.is_empty() {
        return Err(LineFault::Bad(AsmKind::Grammar));
    }
    Ok(factors)
}

fn read_products(alloc: Global, mut words: Words) -> Result<List<Product>, LineFault>
    ensures { Gives (formed (list_from product_of 3 0 words.entry)) result }
{
    let mut factors = List::new(alloc);
    while let Some(word) = words.next() {
        match read_product(alloc, word) {
            Ok(product) => {
                if factors.len() >= 3 {
                    return Err(LineFault::Bad(AsmKind::Grammar));
                }
                let Ok(()) = factors.push(product) else {
                    return Err(LineFault::Memory);
                };
            }
            Err(fault) => return Err(fault),
        }
    }
    Ok(factors)
}

/// What a vertex line says.
#[tactic(auto, unfolding(crate::specs::Vertices::vertex_row))]
pub(crate) fn read_vertex_line(
    alloc: Global,
    fields: &Fields,
    mut words: Words,
) -> Result<Vertex, LineFault>
    ensures { Gives (vertex_row fields.now words.entry) result }
{
    let Some(structure) = next_structure(&mut words) else {
        return Err(LineFault::Bad(AsmKind::Grammar));
    };
    let Some(order) = next_order(&mut words) else {
        return Err(LineFault::Bad(AsmKind::Grammar));
    };
    let Some(a) = next_slot(fields, &mut words) else {
        return Err(LineFault::Bad(AsmKind::Grammar));
    };
    let Some(b) = next_slot(fields, &mut words) else {
        return Err(LineFault::Bad(AsmKind::Grammar));
    };
    let Some(c) = next_slot(fields, &mut words) else {
        return Err(LineFault::Bad(AsmKind::Grammar));
    };
    let Some(d) = next_fourth(fields, &mut words) else {
        return Err(LineFault::Bad(AsmKind::Grammar));
    };
    let factors = read_factors(alloc, words)?;
    let fields = known_fields(alloc, a, b, c, d)?;
    Ok(Vertex {
        structure,
        fields,
        factors,
        order,
    })
}

// The fields of the slots, where all are known.
#[tactic(auto, unfolding(crate::specs::Vertices::known_fields))]
fn known_fields(
    alloc: Global,
    a: Slot,
    b: Slot,
    c: Slot,
    d: Option<Slot>,
) -> Result<List<u16>, LineFault>
    ensures { Gives (known_fields a b c d) result }
{
    let (Some(a), Some(b), Some(c)) = (a, b, c) else {
        return Err(LineFault::Bad(AsmKind::Name));
    };
    match d {
        None => list_of(alloc, &[a, b, c]),
        Some(Some(d)) => list_of(alloc, &[a, b, c, d]),
        Some(None) => Err(LineFault::Bad(AsmKind::Name)),
    }
}

fn list_of(alloc: Global, fields: &[u16]) -> Result<List<u16>, LineFault>
    ensures { Gives (Ok fields.now) result }
{
    let mut list = List::new(alloc);
    for field in fields {
        let Ok(()) = list.push(*field) else {
            return Err(LineFault::Memory);
        };
    }
    Ok(list)
}
