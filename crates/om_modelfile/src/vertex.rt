//! Rows of the vertices.
ghost use Rattle.std.specs.Prelude.{◌≡◌, ◌^◌, ◌≤◌, true, false, length, map, MatchOption, nat_abs};
ghost use Rattle.toml.specs.View.{view, table_view};
ghost use Rattle.om_modelfile.specs.Faults.{Gives};
ghost use Rattle.om_modelfile.specs.Keys.{texts_at};
ghost use Rattle.om_modelfile.specs.Vertices.{field_in, fields_named, is_within_limits, products_of, vertex_from, vertex_of, vertex_texts};
ghost use Rattle.om_modelfile.specs.Views.{vertex_texts_view};

use crate::fault::RowFault;
use crate::keys::{has_all, knows_all, number_or, text_at, texts_of, values_at};
use crate::limits::{MOST_FACTORS, MOST_FIELDS};
use crate::parameter::Parameter;
use crate::product::read_product;
use crate::texts::read_structure;
use om_model::limits::HIGHEST_ORDER;
use om_model::{Particle, Product, Vertex, field_named};
use om_ring::List;
use std::alloc::Global;
use toml::{Table, Value};

const REQUIRED: [&str; 3] = ["fields", "factors", "structure"];

const KEYS: [&str; 4] = ["fields", "factors", "structure", "order"];

#[derive(Drop)]
struct VertexTexts<'a> {
    fields: Vec<&'a str>,
    factors: Vec<&'a str>,
    structure: &'a str,
    order: i64,
}

/// The vertex that a row says.
#[tactic(auto, unfolding(crate::specs::Vertices::vertex_of))]
pub(crate) fn read_vertex(
    alloc: Global,
    parameters: &[Parameter],
    particles: &[Particle],
    row: &Value,
) -> Result<Vertex, RowFault>
    requires { length particles.now ≤ 2 ^ 15 }
    ensures { Gives (λ vertex. vertex) result (vertex_of parameters.now particles.now (view row.now)) }
{
    let Some(table) = row.as_table() else {
        return Err(RowFault::WrongKind);
    };
    let texts = read_texts(alloc, table)?;
    vertex_from(alloc, parameters, particles, &texts)
}

#[tactic(auto, unfolding(crate::specs::Vertices::vertex_texts))]
fn read_texts(alloc: Global, table: &Table) -> Result<VertexTexts<'_>, RowFault>
    ensures { Gives vertex_texts_view result (vertex_texts (table_view table.now)) }
{
    if !knows_all(table, &KEYS) {
        return Err(RowFault::UnknownKey);
    }
    if !has_all(table, &REQUIRED) {
        return Err(RowFault::MissingKey);
    }
    Ok(VertexTexts {
        fields: texts_at(alloc, table, "fields")?,
        factors: texts_at(alloc, table, "factors")?,
        structure: text_at(table, "structure")?,
        order: number_or(1, table, "order")?,
    })
}

fn texts_at<'a>(alloc: Global, table: &'a Table, key: &str) -> Result<Vec<&'a str>, RowFault>
    ensures { Gives (λ texts. map (λ s. s.now) texts.items) result (texts_at key.now (table_view table.now)) }
{
    let values = values_at(table, key)?;
    texts_of(alloc, values)
}

#[tactic(auto, unfolding(crate::specs::Vertices::vertex_from))]
fn vertex_from(
    alloc: Global,
    parameters: &[Parameter],
    particles: &[Particle],
    texts: &VertexTexts,
) -> Result<Vertex, RowFault>
    requires { length particles.now ≤ 2 ^ 15 }
    ensures { Gives (λ vertex. vertex) result (vertex_from parameters.now particles.now (vertex_texts_view texts.now)) }
{
    let structure = read_structure(texts.structure)?;
    let fields = read_fields(alloc, particles, texts.fields.as_slice())?;
    let Some(order) = order_within_limits(texts) else {
        return Err(RowFault::TooMuch);
    };
    let factors = read_products(alloc, parameters, texts.factors.as_slice())?;
    Ok(Vertex {
        structure,
        fields,
        factors,
        order,
    })
}

fn read_fields(alloc: Global, particles: &[Particle], names: &[&str]) -> Result<List<u16>, RowFault>
    requires { length particles.now ≤ 2 ^ 15 }
    ensures { Gives (λ fields. fields) result (fields_named particles.now (map (λ s. s.now) names.now)) }
{
    let mut fields = List::new(alloc);
    for name in names {
        match read_field(particles, name) {
            Ok(field) => match fields.push(field) {
                Ok(()) => {}
                Err(_) => return Err(RowFault::Memory),
            },
            Err(fault) => return Err(fault),
        }
    }
    Ok(fields)
}

fn read_field(particles: &[Particle], name: &str) -> Result<u16, RowFault>
    requires { length particles.now ≤ 2 ^ 15 }
    ensures { Gives (λ field. field) result (field_in particles.now name.now) }
{
    match field_named(particles, name.as_bytes()) {
        Some(field) => Ok(field),
        None => Err(RowFault::UnknownName),
    }
}

// The order, where it and the numbers of fields and factors are within their limits.
fn order_within_limits(texts: &VertexTexts) -> Option<u8>
    ensures { MatchOption result (is_within_limits (vertex_texts_view texts.now) ≡ false)
        (λ order. (is_within_limits (vertex_texts_view texts.now) ≡ true) × (order ≡ nat_abs texts.now.order)) }
{
    if texts.fields.len() > MOST_FIELDS || texts.factors.len() > MOST_FACTORS {
        return None;
    }
    if texts.order < 0 || texts.order > i64::from(HIGHEST_ORDER) {
        return None;
    }
    Some(texts.order as u8)
}

fn read_products(
    alloc: Global,
    parameters: &[Parameter],
    texts: &[&str],
) -> Result<List<Product>, RowFault>
    ensures { Gives (λ products. products) result (products_of parameters.now (map (λ s. s.now) texts.now)) }
{
    let mut products = List::new(alloc);
    for text in texts {
        match read_product(alloc, parameters, text) {
            Ok(product) => match products.push(product) {
                Ok(()) => {}
                Err(_) => return Err(RowFault::Memory),
            },
            Err(fault) => return Err(fault),
        }
    }
    Ok(products)
}
