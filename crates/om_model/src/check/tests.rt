//! Models that break a rule, and models that break none.
use super::*;
use crate::{Name, Particle, Product, Vertex};
use om_colour::Colour;
use om_lorentz::{Spin, Structure};
use om_ring::{Book, List, Zp, read_numeral};
use std::alloc::Global;
use std::test::Fail;

fn product(alloc: Global, text: &str) -> Option<Product> {
    let mut product = List::new(alloc);
    product.push(read_numeral(text.as_bytes()).ok()?).ok()?;
    Some(product)
}

fn particle(
    alloc: Global,
    names: (&str, &str),
    spin: Spin,
    colour: Colour,
    mass: &str,
) -> Option<Particle> {
    Some(Particle {
        name: Name::read(names.0.as_bytes())?,
        anti: Name::read(names.1.as_bytes())?,
        spin,
        mass: product(alloc, mass)?,
        width: product(alloc, "0")?,
        norm: product(alloc, "1")?,
        colour,
    })
}

fn vertex(alloc: Global, structure: Structure, fields: &[u16], factors: &[&str]) -> Option<Vertex> {
    let mut all_fields = List::new(alloc);
    for field in fields {
        all_fields.push(*field).ok()?;
    }
    let mut all_factors = List::new(alloc);
    for factor in factors {
        all_factors.push(product(alloc, factor)?).ok()?;
    }
    Some(Vertex {
        structure,
        fields: all_fields,
        factors: all_factors,
        order: 1,
    })
}

fn fault(
    alloc: Global,
    particles: List<Particle>,
    vertices: List<Vertex>,
) -> Option<Option<RuleFault>> {
    let model = Model {
        name: Name::read(b"test")?,
        particles,
        vertices,
    };
    let _alloc = alloc;
    Some(check_model(&Zp, &model, &mut Steps::new(Book)).err())
}

// The fault of a model of a vector V, a scalar s, a Dirac particle f with antiparticle F and a gluon g, and one vertex.
fn vertex_fault_of(
    alloc: Global,
    structure: Structure,
    fields: &[u16],
    factors: &[&str],
) -> Option<Option<RuleFault>> {
    let mut particles = List::new(alloc);
    particles
        .push(particle(alloc, ("V", "V"), Spin::Vector, Colour::One, "0")?)
        .ok()?;
    particles
        .push(particle(alloc, ("s", "s"), Spin::Scalar, Colour::One, "0")?)
        .ok()?;
    particles
        .push(particle(alloc, ("f", "F"), Spin::Dirac, Colour::One, "0")?)
        .ok()?;
    particles
        .push(particle(alloc, ("g", "g"), Spin::Vector, Colour::Eight, "0")?)
        .ok()?;
    let mut vertices = List::new(alloc);
    vertices
        .push(vertex(alloc, structure, fields, factors)?)
        .ok()?;
    fault(alloc, particles, vertices)
}

fn at(table: Table, row: u32, rule: ModelRule) -> Option<RuleFault> {
    Some(RuleFault { rule, table, row })
}

#[test]
fn vertices(rt: HostRuntime) {
    let not_symmetric = at(Table::Vertex, 1, ModelRule::NotSymmetric);
    let bad_pattern = at(Table::Vertex, 1, ModelRule::BadPattern);
    let no_inverse = at(Table::Vertex, 1, ModelRule::NoInverse);
    for (structure, fields, factors, expected) in [
        (
            Structure::Vss,
            [0, 2, 2].as_slice(),
            ["1"].as_slice(),
            not_symmetric,
        ),
        (Structure::Sss, &[2, 2, 2], &["1"], None),
        (Structure::Vvs, &[0, 0, 2], &["1"], None),
        (Structure::Vvss, &[0, 0, 2, 2], &["1"], None),
        (Structure::Vvv, &[0, 0, 0], &["1"], not_symmetric),
        (Structure::Vvv, &[6, 6, 6], &["1"], None),
        (Structure::Vvvv, &[0, 0, 0, 0], &["1", "1", "1"], None),
        (Structure::Vvvv, &[0, 0, 6, 6], &["5", "1", "2/2"], None),
        (
            Structure::Vvvv,
            &[0, 6, 0, 6],
            &["5", "1", "1"],
            not_symmetric,
        ),
        (Structure::Gluon4, &[0, 0, 0, 0], &["1"], bad_pattern),
        (Structure::Gluon4, &[6, 6, 6, 6], &["1"], None),
        (Structure::Sss, &[2, 2], &["1"], bad_pattern),
        (Structure::Sss, &[2, 2, 2], &["1", "1"], bad_pattern),
        (Structure::Sss, &[2, 2, 8], &["1"], bad_pattern),
        (Structure::Sss, &[2, 2, 3], &["1"], bad_pattern),
        (Structure::Ffv, &[5, 4, 0], &["1", "0"], None),
        (Structure::Ffv, &[4, 5, 0], &["1", "0"], bad_pattern),
        (
            Structure::Sss,
            &[2, 2, 2],
            &["1/18446744069414584321"],
            no_inverse,
        ),
    ] {
        assert_eq!(rt;
            vertex_fault_of(rt.alloc(), structure, fields, factors),
            Some(expected),
            "{structure:?} {fields:?}"
        );
    }
}

fn particles_fault(
    alloc: Global,
    rows: &[((&str, &str), Spin, Colour, &str)],
) -> Option<Option<RuleFault>> {
    let mut particles = List::new(alloc);
    for (names, spin, colour, mass) in rows {
        particles
            .push(particle(alloc, *names, *spin, *colour, mass)?)
            .ok()?;
    }
    fault(alloc, particles, List::new(alloc))
}

#[test]
fn particles(rt: HostRuntime) -> Result<(), Fail> {
    let own = ("a", "a");
    for (rows, expected) in [
        (
            [(own, Spin::Scalar, Colour::One, "1/18446744069414584321")].as_slice(),
            at(Table::Particle, 1, ModelRule::NoInverse),
        ),
        (
            &[(own, Spin::Vector, Colour::Eight, "18446744069414584321")],
            None,
        ),
        (
            &[(own, Spin::Dirac, Colour::One, "0")],
            at(Table::Particle, 1, ModelRule::BadPattern),
        ),
        (
            &[(own, Spin::Scalar, Colour::AntiThree, "0")],
            at(Table::Particle, 1, ModelRule::BadPattern),
        ),
        (
            &[
                (("a", "b"), Spin::Dirac, Colour::Three, "0"),
                (("c", "b"), Spin::Scalar, Colour::One, "0"),
            ],
            at(Table::Particle, 2, ModelRule::RepeatedName),
        ),
        (
            &[
                (("a", "b"), Spin::Dirac, Colour::Three, "0"),
                (("c", "d"), Spin::Scalar, Colour::One, "1/2"),
            ],
            None,
        ),
    ] {
        assert_eq!(rt; particles_fault(rt.alloc(), rows), Some(expected));
    }
    let many = [(own, Spin::Scalar, Colour::One, "0"); 65];
    assert_eq!(rt;
        particles_fault(rt.alloc(), &many),
        Some(at(Table::Top, 0, ModelRule::Limit))
    );
    Ok(())
}
