//! The rules of a row of the vertices.
ghost use Rattle.std.specs.Prelude.{◌≡◌, ◌+◌, ◌*◌, ◌<◌, ◌≤◌, ◌↔◌, IsTrue, MatchOption, length, Some, None};
ghost use Rattle.om_model.specs.declared.limits.TheConstants.{MOST_VERTICES};
ghost use Rattle.om_model.specs.Rules.{AreFactorValues, HasFactorWithoutValue, IsWithinLimits, factor_value as factor_value_of, ChecksRows, IsFirstRule, IsFormedVertex, RowBreaks};
ghost use Rattle.om_model.specs.declared.model.Vertex.{Vertex};

use super::has_length;
use super::patterns::pattern_of;
use super::symmetry::is_symmetric;
use crate::limits::HIGHEST_ORDER;
use crate::{Model, ModelRule, Particle, RuleFault, Table, Vertex};
use om_ring::{Ring, Steps, value_of_product};

pub(crate) fn check_vertices<R: Ring<Mark = L>, L>(
    ring: &R,
    model: &Model,
    steps: &mut Steps<L>,
) -> Result<(), RuleFault>
    requires { length model.now.vertices ≤ MOST_VERTICES }
    ensures rules { ChecksRows (R.ops ring.now) model.now Table.Vertex result }
    ensures at_most { steps.new ≤ steps.old + length model.now.vertices * (200 * R.cost ring.now) }
{
    for row in 0..model.vertices.len() {
        if let Some(rule) = vertex_fault(ring, model, row, steps) {
            return Err(RuleFault {
                rule,
                table: Table::Vertex,
                row: row as u32 + 1,
            });
        }
    }
    Ok(())
}

/// Whether a vertex keeps the rules that no ring is needed for: limits, and the fields, factors and colours of its structure.
pub fn is_formed_vertex(particles: &[Particle], vertex: &Vertex) -> bool
    ensures { IsTrue result ↔ IsFormedVertex particles.now vertex.now }
{
    is_within_limits(vertex) && pattern_of(particles, vertex).is_some()
}

/// The values of the factors; 1 where a structure has fewer.
#[derive(Clone, Copy)]
pub(crate) struct Values<E> {
    pub(crate) first: E,
    pub(crate) second: E,
    pub(crate) third: E,
}

// The first rule that the vertex of a row, counted from 0, breaks.
#[tactic(auto, using(crate::proofs::VertexRules::few_factors))]
fn vertex_fault<R: Ring<Mark = L>, L>(
    ring: &R,
    model: &Model,
    row: usize,
    steps: &mut Steps<L>,
) -> Option<ModelRule>
    requires { row < length model.now.vertices }
    ensures rules { IsFirstRule (RowBreaks (R.ops ring.now) model.now Table.Vertex (row + 1)) result }
    ensures at_most { steps.new ≤ steps.old + 200 * R.cost ring.now }
{
    let vertex = model.vertices.at(row);
    if !is_within_limits(vertex) {
        return Some(ModelRule::Limit);
    }
    let Some(colours) = pattern_of(model.particles.as_slice(), vertex) else {
        return Some(ModelRule::BadPattern);
    };
    let Some(values) = values_of(ring, vertex, steps) else {
        return Some(ModelRule::NoInverse);
    };
    if is_symmetric(ring, vertex, &colours, &values) {
        None
    } else {
        Some(ModelRule::NotSymmetric)
    }
}

fn is_within_limits(vertex: &Vertex) -> bool
    ensures { IsTrue result ↔ IsWithinLimits vertex.now }
{
    for product in vertex.factors.as_slice() {
        if !has_length(product.as_slice()) {
            return false;
        }
    }
    vertex.order <= HIGHEST_ORDER
}

// The values of the factors, none where one of them has none.
fn values_of<R: Ring<Mark = L>, L>(
    ring: &R,
    vertex: &Vertex,
    steps: &mut Steps<L>,
) -> Option<Values<R::E>>
    requires limits { IsWithinLimits vertex.now }
    requires few { length vertex.now.factors ≤ 3 }
    ensures values { MatchOption result (HasFactorWithoutValue (R.ops ring.now) vertex.now.factors)
        (λ v. AreFactorValues (R.ops ring.now) vertex.now v.first v.second v.third) }
    ensures at_most { steps.new ≤ steps.old + 120 * R.cost ring.now }
{
    let first = factor_value(ring, vertex, 0, steps)?;
    let second = factor_value(ring, vertex, 1, steps)?;
    let third = factor_value(ring, vertex, 2, steps)?;
    Some(Values {
        first,
        second,
        third,
    })
}

// The value of a factor, counted from 0; 1 where the vertex has fewer.
fn factor_value<R: Ring<Mark = L>, L>(
    ring: &R,
    vertex: &Vertex,
    k: usize,
    steps: &mut Steps<L>,
) -> Option<R::E>
    requires { IsWithinLimits vertex.now }
    ensures value { result ≡ factor_value_of (R.ops ring.now) vertex.now k }
    ensures at_most { steps.new ≤ steps.old + 40 * R.cost ring.now }
{
    if k < vertex.factors.len() {
        value_of_product(ring, vertex.factors.at(k).as_slice(), steps)
    } else {
        Some(ring.one())
    }
}
