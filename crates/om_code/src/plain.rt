//! Which codes have a text.
ghost use Rattle.std.specs.Prelude.{◌≤◌, ◌↔◌, IsTrue, length};
ghost use Rattle.std.specs.List.{AllByRecursion};
ghost use Rattle.om_code.specs.Plain.{HasPlainLines, HasPlainModel, IsNamed, IsPlain, IsPlainDen, IsPlainFlow, IsPlainVertex};
ghost use Rattle.om_model.specs.Rules.{HasLength, HasLengths};

use crate::plain_instrs::has_plain_instrs;
use crate::{Code, Den, MOST_PARTICLE_LINES};
use om_colour::Flow;
use om_legs::{LegSet, MOST_LEGS};
use om_model::{Particle, Product, Vertex, field_name, field_named, has_length, has_lengths};

/// Whether a code is plain, so that it has a text. Its version is 1 or 2; it has at most 32,768 particles; each of its fields
/// is that of a particle, and the first that its name means; numbers that count from 1 in the text stay below 2^32; products,
/// vertices, sets, flows, fuses and keys have as many members as a text can say; in version 1 the slots are the registers and
/// a load goes to the place of its leg; and the loads stand first and the keys last.
pub fn is_plain(code: &Code) -> bool
    ensures { IsTrue result ↔ IsPlain code.now }
{
    has_plain_model(code) && has_plain_lines(code) && has_plain_instrs(code)
}

fn has_plain_model(code: &Code) -> bool
    ensures { IsTrue result ↔ HasPlainModel code.now }
{
    let particles = code.model.particles.as_slice();
    particles.len() <= MOST_PARTICLE_LINES
        && are_plain_particles(particles)
        && are_plain_vertices(particles, code.model.vertices.as_slice())
}

// Whether the lines of the legs, flows and denominators are plain.
fn has_plain_lines(code: &Code) -> bool
    requires { length code.now.model.particles ≤ MOST_PARTICLE_LINES }
    ensures { IsTrue result ↔ HasPlainLines code.now }
{
    let particles = code.model.particles.as_slice();
    are_named(particles, code.legs.as_slice())
        && are_plain_flows(code.flows.as_slice())
        && are_plain_dens(particles, code.dens.as_slice())
}

fn are_products(products: &[Product]) -> bool
    ensures { IsTrue result ↔ AllByRecursion HasLength products.now }
{
    for product in products {
        if !has_length(product.as_slice()) {
            return false;
        }
    }
    true
}

fn are_plain_particles(particles: &[Particle]) -> bool
    ensures { IsTrue result ↔ AllByRecursion HasLengths particles.now }
{
    for particle in particles {
        if !has_lengths(particle) {
            return false;
        }
    }
    true
}

// Whether a field is that of a particle, and the first that its name means.
fn is_named(particles: &[Particle], field: u16) -> bool
    requires { length particles.now ≤ MOST_PARTICLE_LINES }
    ensures { IsTrue result ↔ IsNamed particles.now field }
{
    match field_named(particles, field_name(particles, field)) {
        Some(named) => named == field,
        None => false,
    }
}

fn are_named(particles: &[Particle], fields: &[u16]) -> bool
    requires { length particles.now ≤ MOST_PARTICLE_LINES }
    ensures { IsTrue result ↔ AllByRecursion (IsNamed particles.now) fields.now }
{
    for field in fields {
        if !is_named(particles, *field) {
            return false;
        }
    }
    true
}

fn is_plain_vertex(particles: &[Particle], vertex: &Vertex) -> bool
    requires { length particles.now ≤ MOST_PARTICLE_LINES }
    ensures { IsTrue result ↔ IsPlainVertex particles.now vertex.now }
{
    let (fields, factors) = (vertex.fields.as_slice(), vertex.factors.as_slice());
    3 <= fields.len()
        && fields.len() <= 4
        && 1 <= factors.len()
        && factors.len() <= 3
        && are_named(particles, fields)
        && are_products(factors)
}

fn are_plain_vertices(particles: &[Particle], vertices: &[Vertex]) -> bool
    requires { length particles.now ≤ MOST_PARTICLE_LINES }
    ensures { IsTrue result ↔ AllByRecursion (IsPlainVertex particles.now) vertices.now }
{
    for vertex in vertices {
        if !is_plain_vertex(particles, vertex) {
            return false;
        }
    }
    true
}

fn is_plain_flow(flow: &Flow) -> bool
    ensures { IsTrue result ↔ IsPlainFlow flow.now }
{
    for end in &flow.ends {
        if *end > MOST_LEGS {
            return false;
        }
    }
    true
}

fn are_plain_flows(flows: &[Flow]) -> bool
    ensures { IsTrue result ↔ AllByRecursion IsPlainFlow flows.now }
{
    for flow in flows {
        if !is_plain_flow(flow) {
            return false;
        }
    }
    true
}

fn is_plain_den(particles: &[Particle], den: &Den) -> bool
    requires { length particles.now ≤ MOST_PARTICLE_LINES }
    ensures { IsTrue result ↔ IsPlainDen particles.now den.now }
{
    den.legs != LegSet::empty() && is_named(particles, den.field)
}

fn are_plain_dens(particles: &[Particle], dens: &[Den]) -> bool
    requires { length particles.now ≤ MOST_PARTICLE_LINES }
    ensures { IsTrue result ↔ AllByRecursion (IsPlainDen particles.now) dens.now }
{
    for den in dens {
        if !is_plain_den(particles, den) {
            return false;
        }
    }
    true
}
