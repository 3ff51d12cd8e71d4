//! A model out of the bytes of its file.
ghost use Rattle.std.specs.Prelude.{◌+◌, ◌*◌, ◌≤◌, IfOk, length, ok_or};
ghost use Rattle.toml.specs.View.{table_view};
ghost use Rattle.om_modelfile.specs.Faults.{Answers, Gives};
ghost use Rattle.om_modelfile.specs.ModelOf.{SaysModel, document_of, form_of, form_of_document, rows_read, top_of};
ghost use Rattle.om_modelfile.specs.Views.{top_view};

use crate::fault::{ModelFault, RowFault};
use crate::keys::{has_all, knows_all, text_at, values_at, values_or_none};
use crate::limits::MOST_PARAMETERS;
use crate::rows::{ParameterRows, ParticleRows, VertexRows, read_rows};
use crate::texts::read_name;
use om_model::limits::{MOST_PARTICLES, MOST_VERTICES};
use om_model::{Model, Name, check_model};
use om_ring::{Ring, Steps};
use std::alloc::Global;
use toml::{Table, Value};

const REQUIRED: [&str; 3] = ["model", "particle", "vertex"];

const KEYS: [&str; 4] = ["model", "particle", "vertex", "parameter"];

/// The model that the bytes of a TOML file say, which meets all rules of [`om_model::check_model`]; or the first fault:
/// of the form of the file, with the top first, then each row of the parameters, the particles and the vertices in turn,
/// and then of the rules. Of a row it is told first that it is no table, then unknown keys, missing keys and values of
/// another kind, and then what the values say, in the order of `specs/`. Where a call of the allocator fails the answer is
/// `Memory`. At most 200 calls of the ring are made for each particle and each vertex, none before the form of the whole
/// file is read.
pub fn read_model<R: Ring<Mark = L>, L>(
    alloc: Global,
    ring: &R,
    text: &[u8],
    steps: &mut Steps<L>,
) -> Result<Model, ModelFault>
    ensures model { SaysModel (R.ops ring.now) text.now result }
    ensures at_most { steps.new ≤ steps.old + (200 * rows_read (form_of text.now)) * R.cost ring.now }
{
    let model = match read_form(alloc, text) {
        Ok(model) => model,
        Err(fault) => return Err(fault),
    };
    match check_model(ring, &model, steps) {
        Ok(()) => Ok(model),
        Err(fault) => Err(ModelFault::Rule(fault)),
    }
}

// The model that the file has the form of.
#[tactic(auto, unfolding(crate::specs::ModelOf::form_of))]
fn read_form(alloc: Global, text: &[u8]) -> Result<Model, ModelFault>
    ensures { Answers (λ model. model) result (form_of text.now) }
{
    let document = match read_document(alloc, text) {
        Ok(document) => document,
        Err(fault) => return Err(fault),
    };
    model_in(alloc, &document)
}

#[tactic(auto, using(crate::proofs::Utf8::of_text, crate::proofs::Utf8::of_no_text))]
fn read_document(alloc: Global, text: &[u8]) -> Result<Table, ModelFault>
    ensures { Answers (λ document. table_view document) result (ok_or (document_of text.now) ModelFault.NotToml) }
{
    let text = match std::str::from_utf8(text) {
        Ok(text) => text,
        Err(_) => return Err(ModelFault::NotToml),
    };
    match toml::table_from_str(alloc, text) {
        Ok(document) => Ok(document),
        Err(e) if e.is_memory() => Err(ModelFault::Memory),
        Err(_) => Err(ModelFault::NotToml),
    }
}

#[derive(Drop)]
struct TopValues<'a> {
    name: Name,
    parameters: &'a [Value],
    particles: &'a [Value],
    vertices: &'a [Value],
}

#[tactic(auto, unfolding(crate::specs::ModelOf::top_of))]
fn read_top(table: &Table) -> Result<TopValues<'_>, RowFault>
    ensures top { Gives top_view result (top_of (table_view table.now)) }
    ensures limits { IfOk result (λ top. (length top.parameters.now ≤ MOST_PARAMETERS) × (length top.particles.now ≤ MOST_PARTICLES) × (length top.vertices.now ≤ MOST_VERTICES)) }
{
    if !knows_all(table, &KEYS) {
        return Err(RowFault::UnknownKey);
    }
    if !has_all(table, &REQUIRED) {
        return Err(RowFault::MissingKey);
    }
    let name = text_at(table, "model")?;
    let particles = values_at(table, "particle")?;
    let vertices = values_at(table, "vertex")?;
    let parameters = values_or_none(table, "parameter")?;
    let name = read_name(name)?;
    if parameters.len() > MOST_PARAMETERS
        || particles.len() > MOST_PARTICLES
        || vertices.len() > MOST_VERTICES
    {
        return Err(RowFault::TooMuch);
    }
    Ok(TopValues {
        name,
        parameters,
        particles,
        vertices,
    })
}

#[tactic(auto, unfolding(crate::specs::ModelOf::form_of_document))]
fn model_in(alloc: Global, document: &Table) -> Result<Model, ModelFault>
    ensures { Answers (λ model. model) result (form_of_document (table_view document.now)) }
{
    let top = match read_top(document) {
        Ok(top) => top,
        Err(fault) => return Err(fault.at_row(om_model::Table::Top, 0)),
    };
    let parameters = read_rows(
        alloc,
        &ParameterRows,
        om_model::Table::Parameter,
        top.parameters,
    )?;
    let kind = ParticleRows {
        parameters: parameters.as_slice(),
    };
    let particles = read_rows(alloc, &kind, om_model::Table::Particle, top.particles)?;
    let kind = VertexRows {
        parameters: parameters.as_slice(),
        particles: particles.as_slice(),
    };
    let vertices = read_rows(alloc, &kind, om_model::Table::Vertex, top.vertices)?;
    Ok(Model {
        name: top.name,
        particles,
        vertices,
    })
}
