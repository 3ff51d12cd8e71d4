//! Sizes of graphs, and keys in a table.
ghost use Rattle.std.specs.Prelude.{◌<◌, ◌^◌, length};

use crate::{BuildFault, Key, build};
use om_colour::{Colour, Partial};
use om_cons::Table;
use om_legs::LegSet;
use om_lorentz::{Spin, Structure};
use om_model::laws::accepted_are_well_formed;
use om_model::{Model, Name, Particle, Product, Vertex, check_model, read_process};
use om_ring::{Book, List, Steps, Zp, read_numeral};
use std::alloc::Global;
use std::test::Fail;

fn product(alloc: Global, text: &str) -> Option<Product> {
    let mut product = List::new(alloc);
    product.push(read_numeral(text.as_bytes()).ok()?).ok()?;
    Some(product)
}

// A vertex at which only the one particle enters.
fn vertex(alloc: Global, structure: Structure, slots: usize) -> Option<Vertex> {
    let mut fields = List::new(alloc);
    for _slot in 0..slots {
        fields.push(0).ok()?;
    }
    let mut factors = List::new(alloc);
    factors.push(product(alloc, "1")?).ok()?;
    Some(Vertex {
        structure,
        fields,
        factors,
        order: 1,
    })
}

// A particle that is its own antiparticle, without vertices.
fn model(alloc: Global, name: &str, spin: Spin, colour: Colour) -> Option<Model> {
    let mut particles = List::new(alloc);
    let particle = Particle {
        name: Name::read(name.as_bytes())?,
        anti: Name::read(name.as_bytes())?,
        spin,
        mass: product(alloc, "0")?,
        width: product(alloc, "0")?,
        norm: product(alloc, "1")?,
        colour,
    };
    particles.push(particle).ok()?;
    Some(Model {
        name: Name::read(b"test")?,
        particles,
        vertices: List::new(alloc),
    })
}

// One scalar, with so many equal vertices of three.
fn scalars(alloc: Global, rows: usize) -> Option<Model> {
    let mut model = model(alloc, "phi", Spin::Scalar, Colour::One)?;
    for _row in 0..rows {
        model.vertices.push(vertex(alloc, Structure::Sss, 3)?).ok()?;
    }
    Some(model)
}

// One gluon, with its two vertices.
fn gluons(alloc: Global) -> Option<Model> {
    let mut model = model(alloc, "g", Spin::Vector, Colour::Eight)?;
    model.vertices.push(vertex(alloc, Structure::Vvv, 3)?).ok()?;
    model
        .vertices
        .push(vertex(alloc, Structure::Gluon4, 4)?)
        .ok()?;
    Some(model)
}

// The nodes, terms, keystone terms and flows of a process; or too many of them.
fn counts(alloc: Global, model: &Model, text: &str) -> Option<Option<[usize; 4]>>
    requires { length text.now < 2 ^ 31 }
{
    check_model(&Zp, model, &mut Steps::new(Book)).ok()?;
    accepted_are_well_formed(&Zp);
    let process = read_process(alloc, model, text.as_bytes()).ok()?;
    match build(alloc, model, &process) {
        Ok(graph) => Some(Some([
            graph.nodes.len(),
            graph.terms.len(),
            graph.keys.len(),
            graph.flows.len(),
        ])),
        Err(BuildFault::TooLarge) => Some(None),
        Err(BuildFault::Memory) => None,
    }
}

#[test]
fn scalar_graphs(rt: HostRuntime) -> Result<(), Fail> {
    let model = scalars(rt.alloc(), 1).expect(&rt, "no model");
    for (text, expected) in [
        ("phi phi -> phi phi", [7, 3, 3, 1]),
        ("phi phi -> phi phi / 1+2", [5, 1, 1, 1]),
        (
            "phi phi -> phi phi phi phi phi phi phi phi",
            [511, 3765, 5565, 1],
        ),
    ] {
        assert_eq!(rt;
            counts(rt.alloc(), &model, text),
            Some(Some(expected)),
            "{text}"
        );
    }
    Ok(())
}

#[test]
fn gluon_graphs(rt: HostRuntime) -> Result<(), Fail> {
    let model = gluons(rt.alloc()).expect(&rt, "no model");
    for (text, expected) in [
        ("g g -> g g", [10, 6, 18, 6]),
        ("g g -> g g g g", [96, 210, 2400, 120]),
    ] {
        assert_eq!(rt;
            counts(rt.alloc(), &model, text),
            Some(Some(expected)),
            "{text}"
        );
    }
    Ok(())
}

// A key that differs by its partial flow alone.
fn key(into: u8) -> Key {
    Key {
        legs: LegSet::one(2),
        field: 0,
        partial: Partial {
            ends: [0; 12],
            into,
        },
    }
}

#[test]
fn keys_differ_by_their_partial_flow(rt: HostRuntime) -> Result<(), Fail> {
    let mut table = Table::new(rt.alloc());
    for (into, place) in [(1, 0), (2, 1), (1, 0)] {
        assert_eq!(rt; table.intern(key(into)), Ok(place));
    }
    Ok(())
}
