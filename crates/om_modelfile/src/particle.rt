//! Rows of the particles.
ghost use Rattle.toml.specs.View.{view, table_view};
ghost use Rattle.om_modelfile.specs.Faults.{Gives};
ghost use Rattle.om_modelfile.specs.Particles.{particle_from, particle_of, particle_texts};
ghost use Rattle.om_modelfile.specs.Views.{particle_texts_view};

use crate::fault::RowFault;
use crate::keys::{has_all, knows_all, number_or, text_at, text_or};
use crate::parameter::Parameter;
use crate::product::read_product;
use crate::texts::{read_colour, read_name, read_spin};
use om_colour::Colour;
use om_model::Particle;
use std::alloc::Global;
use toml::{Table, Value};

const REQUIRED: [&str; 3] = ["name", "anti", "spin"];

const KEYS: [&str; 7] = ["name", "anti", "spin", "mass", "width", "norm", "colour"];

#[derive(Drop)]
struct ParticleTexts<'a> {
    name: &'a str,
    anti: &'a str,
    spin: &'a str,
    mass: &'a str,
    width: &'a str,
    norm: &'a str,
    colour: Colour,
}

/// The particle that a row says.
#[tactic(auto, unfolding(crate::specs::Particles::particle_of))]
pub(crate) fn read_particle(
    alloc: Global,
    parameters: &[Parameter],
    row: &Value,
) -> Result<Particle, RowFault>
    ensures { Gives (λ particle. particle) result (particle_of parameters.now (view row.now)) }
{
    let Some(table) = row.as_table() else {
        return Err(RowFault::WrongKind);
    };
    let texts = read_texts(table)?;
    particle_from(alloc, parameters, &texts)
}

#[tactic(auto, unfolding(crate::specs::Particles::particle_texts))]
fn read_texts(table: &Table) -> Result<ParticleTexts<'_>, RowFault>
    ensures { Gives particle_texts_view result (particle_texts (table_view table.now)) }
{
    if !knows_all(table, &KEYS) {
        return Err(RowFault::UnknownKey);
    }
    if !has_all(table, &REQUIRED) {
        return Err(RowFault::MissingKey);
    }
    Ok(ParticleTexts {
        name: text_at(table, "name")?,
        anti: text_at(table, "anti")?,
        spin: text_at(table, "spin")?,
        mass: text_or("0", table, "mass")?,
        width: text_or("0", table, "width")?,
        norm: text_or("1", table, "norm")?,
        colour: read_colour(number_or(1, table, "colour")?)?,
    })
}

#[tactic(auto, unfolding(crate::specs::Particles::particle_from))]
fn particle_from(
    alloc: Global,
    parameters: &[Parameter],
    texts: &ParticleTexts,
) -> Result<Particle, RowFault>
    ensures { Gives (λ particle. particle) result (particle_from parameters.now (particle_texts_view texts.now)) }
{
    Ok(Particle {
        name: read_name(texts.name)?,
        anti: read_name(texts.anti)?,
        spin: read_spin(texts.spin)?,
        mass: read_product(alloc, parameters, texts.mass)?,
        width: read_product(alloc, parameters, texts.width)?,
        norm: read_product(alloc, parameters, texts.norm)?,
        colour: texts.colour,
    })
}
