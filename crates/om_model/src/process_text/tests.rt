use super::*;
use crate::{Leg, Name, Particle};
use om_colour::Colour;
use om_legs::LegSet;
use om_lorentz::Spin;
use om_ring::List;
use std::test::Fail;

fn particle(alloc: Global, name: &str, anti: &str) -> Option<Particle> {
    Some(Particle {
        name: Name::read(name.as_bytes())?,
        anti: Name::read(anti.as_bytes())?,
        spin: Spin::Scalar,
        mass: List::new(alloc),
        width: List::new(alloc),
        norm: List::new(alloc),
        colour: Colour::One,
    })
}

// A model whose particles have these names and antinames.
fn model(alloc: Global, names: &[(&str, &str)]) -> Option<Model> {
    let mut particles = List::new(alloc);
    for (name, anti) in names {
        particles.push(particle(alloc, name, anti)?).ok()?;
    }
    Some(Model {
        name: Name::read(b"test")?,
        particles,
        vertices: List::new(alloc),
    })
}

// The fault of a text over a model with the one particle phi; none where the text is a process.
fn fault_of(alloc: Global, text: &[u8]) -> Option<ProcessFault> {
    let model = model(alloc, &[("phi", "phi")])?;
    if model.particles.len() > 1 || text.len() > 100 {
        return None;
    }
    read_process(alloc, &model, text).err()
}

const FAULTS: [(&[u8], ProcessFault); 33] = [
    (b"phi -> phi chi", ProcessFault::Unknown(11)),
    (b"chi -> phi phi", ProcessFault::Unknown(0)),
    (b"phi -> phi", ProcessFault::Legs(2)),
    (b"phi phi", ProcessFault::Syntax(7)),
    (b"phi phi ", ProcessFault::Syntax(8)),
    (b"", ProcessFault::Syntax(0)),
    (b"phi ->", ProcessFault::Syntax(6)),
    (b"-> phi phi", ProcessFault::Syntax(0)),
    (b"phi -> chi -> phi", ProcessFault::Syntax(11)),
    (b"phi\t-> phi phi", ProcessFault::Syntax(0)),
    (b"phi phi->phi", ProcessFault::Syntax(4)),
    (b"phi phi -> phi phi / 1+2+3", ProcessFault::Edge(21)),
    (b"phi phi -> phi phi / 1+5", ProcessFault::Edge(21)),
    (b"phi phi -> phi phi / 1+99", ProcessFault::Edge(21)),
    (b"phi phi -> phi phi / 3", ProcessFault::Edge(21)),
    (b"phi phi -> phi phi / 1+2 / 13+14", ProcessFault::Edge(27)),
    (b"phi phi -> phi / 1+2", ProcessFault::Edge(17)),
    (b"phi phi -> phi phi phi / 1+2+3+4", ProcessFault::Edge(25)),
    (b"phi phi -> phi phi / 2+1", ProcessFault::Syntax(21)),
    (b"phi phi -> phi phi / 01+2", ProcessFault::Syntax(21)),
    (b"phi phi -> phi phi / 1+1", ProcessFault::Syntax(21)),
    (b"phi phi -> phi phi / 0+1", ProcessFault::Syntax(21)),
    (b"phi phi -> phi phi / 1+100", ProcessFault::Syntax(21)),
    (b"phi phi -> phi phi / 1+", ProcessFault::Syntax(21)),
    (b"phi phi -> phi phi / +1", ProcessFault::Syntax(21)),
    (b"phi phi -> phi phi / 1++2", ProcessFault::Syntax(21)),
    (b"phi phi -> phi phi /", ProcessFault::Syntax(20)),
    (b"phi phi -> phi phi /1+2", ProcessFault::Syntax(19)),
    (b"phi phi -> phi phi / 1+2 phi", ProcessFault::Syntax(25)),
    (b"phi phi / 1+2 -> phi phi", ProcessFault::Syntax(8)),
    (b"phi chi -> phi phi / 1+2+3", ProcessFault::Unknown(4)),
    (b"phi -> phi / 1+2+3", ProcessFault::Legs(2)),
    (
        b"phi -> phi phi phi phi phi phi phi phi phi phi phi phi / 1",
        ProcessFault::Legs(13),
    ),
];

#[test]
fn faults(rt: HostRuntime) {
    for (text, fault) in FAULTS {
        assert_eq!(rt; fault_of(rt.alloc(), text), Some(fault));
    }
}

// The numbers of legs and of edges of a process of particles phi.
fn counts(alloc: Global, text: &[u8]) -> Option<(usize, usize)> {
    let model = model(alloc, &[("phi", "phi")])?;
    if model.particles.len() > 1 || text.len() > 100 {
        return None;
    }
    let process = read_process(alloc, &model, text).ok()?;
    Some((process.legs.len(), process.edges.len()))
}

const PROCESSES: [(&[u8], usize, usize); 10] = [
    (b"phi -> phi phi", 3, 0),
    (b"  phi phi -> phi   ", 3, 0),
    (b"phi  ->  phi   phi", 3, 0),
    (b"phi -> phi phi phi phi phi phi phi phi phi phi phi", 12, 0),
    (b"phi phi -> phi phi / 1+2", 4, 1),
    (b" phi phi  ->  phi phi  /  1+2 ", 4, 1),
    (b"phi phi -> phi phi / 1+2 / 1+2", 4, 2),
    (b"phi phi -> phi phi / 1+2 / 3+4 / 1+3", 4, 3),
    (b"phi phi -> phi phi phi / 1+2+5", 5, 1),
    (
        b"phi -> phi phi phi phi phi phi phi phi phi phi phi / 1+2+3+4+5+6+7+8+9+10",
        12,
        1,
    ),
];

#[test]
fn processes(rt: HostRuntime) {
    for (text, legs, edges) in PROCESSES {
        assert_eq!(rt; counts(rt.alloc(), text), Some((legs, edges)));
    }
}

// The legs and the first edge of a process of electrons and photons.
fn read(alloc: Global, text: &[u8]) -> Option<([Leg; 5], LegSet)> {
    let model = model(alloc, &[("e-", "e+"), ("A", "A")])?;
    if model.particles.len() > 2 || text.len() > 100 {
        return None;
    }
    let process = read_process(alloc, &model, text).ok()?;
    let [a, b, c, d, e] = process.legs.as_slice() else {
        return None;
    };
    Some(([*a, *b, *c, *d, *e], *process.edges.as_slice().first()?))
}

#[test]
fn outgoing_legs_are_crossed(rt: HostRuntime) {
    let legs = [(0, false), (2, false), (1, true), (0, true), (2, true)].map(|(field, outgoing)| {
        Leg { field, outgoing }
    });
    assert_eq!(rt;
        read(rt.alloc(), b"e- A -> e- e+ A / 2+5"),
        Some((legs, LegSet::one(2).union(LegSet::one(5))))
    );
}
