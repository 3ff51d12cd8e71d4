//! The models of the two programs, for tests.

use om_colour::Colour;
use om_lorentz::{Spin, Structure};
use om_model::{Model, Name, Particle, Product, Vertex};
use om_ring::{List, read_numeral};
use std::alloc::Global;

// A numeral without value: its denominator is 0 in the ring.
const WITHOUT: &str = "1/18446744069414584321";

// The text of a number in a row, counted from 0, where one row is bad.
fn number(row: usize, bad: usize) -> &'static str {
    if row == bad { WITHOUT } else { "1" }
}

fn product(alloc: Global, text: &str) -> Option<Product> {
    let mut product = List::new(alloc);
    product.push(read_numeral(text.as_bytes()).ok()?).ok()?;
    Some(product)
}

fn push_particle(
    alloc: Global,
    particles: &mut List<Particle>,
    names: [&[u8]; 2],
    spin: Spin,
    norm: &str,
) -> Option<()> {
    let [name, anti] = names;
    let particle = Particle {
        name: Name::read(name)?,
        anti: Name::read(anti)?,
        spin,
        mass: product(alloc, "0")?,
        width: product(alloc, "0")?,
        norm: product(alloc, norm)?,
        colour: Colour::One,
    };
    particles.push(particle).ok()
}

fn push_vertex(
    alloc: Global,
    vertices: &mut List<Vertex>,
    structure: Structure,
    fields: [u16; 3],
    factors: &[&str],
) -> Option<()> {
    let mut products = List::new(alloc);
    for factor in factors {
        products.push(product(alloc, factor)?).ok()?;
    }
    let vertex = Vertex {
        structure,
        fields: listed(alloc, &fields)?,
        factors: products,
        order: 1,
    };
    vertices.push(vertex).ok()
}

pub(crate) fn listed<T: Copy>(alloc: Global, all: &[T]) -> Option<List<T>> {
    let mut list = List::new(alloc);
    for x in all {
        list.push(*x).ok()?;
    }
    Some(list)
}

/// One real scalar that meets itself.
pub(crate) fn scalar_model(alloc: Global, bad: usize) -> Option<Model> {
    let mut particles = List::new(alloc);
    push_particle(
        alloc,
        &mut particles,
        [b"phi", b"phi"],
        Spin::Scalar,
        number(0, bad),
    )?;
    let mut vertices = List::new(alloc);
    push_vertex(
        alloc,
        &mut vertices,
        Structure::Sss,
        [0, 0, 0],
        &[number(1, bad)],
    )?;
    Some(Model {
        name: Name::read(b"phi3")?,
        particles,
        vertices,
    })
}

/// Electrons, muons and photons.
pub(crate) fn muon_model(alloc: Global, bad: usize) -> Option<Model> {
    let mut particles = List::new(alloc);
    push_particle(
        alloc,
        &mut particles,
        [b"e-", b"e+"],
        Spin::Dirac,
        number(0, bad),
    )?;
    push_particle(
        alloc,
        &mut particles,
        [b"mu-", b"mu+"],
        Spin::Dirac,
        number(1, bad),
    )?;
    push_particle(
        alloc,
        &mut particles,
        [b"A", b"A"],
        Spin::Vector,
        number(2, bad),
    )?;
    let mut vertices = List::new(alloc);
    push_vertex(
        alloc,
        &mut vertices,
        Structure::Ffv,
        [1, 0, 4],
        &[number(3, bad), "0"],
    )?;
    push_vertex(
        alloc,
        &mut vertices,
        Structure::Ffv,
        [3, 2, 4],
        &[number(4, bad), "0"],
    )?;
    Some(Model {
        name: Name::read(b"qed")?,
        particles,
        vertices,
    })
}
