//! The program of four real scalars, with one thing changed.

use crate::{Code, CodeKind, Den, Instr};
use om_colour::{Colour, Flow};
use om_legs::{Branches, LegSet};
use om_lorentz::{Spin, Structure};
use om_model::{Model, Name, Particle, Product, Vertex};
use om_ring::{List, read_numeral};
use std::alloc::Global;

/// What is other than in the program of four legs. Instructions and denominators have their places from 0.
#[derive(Clone, Copy, Debug)]
pub(crate) enum Change {
    None,
    Legs(u8),
    SecondParticle,
    FirstEnd(u8),
    Den {
        at: usize,
        set: u16,
    },
    Prop {
        at: usize,
        of: u32,
        den: u32,
    },
    Fuse {
        at: usize,
        to: u32,
        branches: [u32; 2],
    },
    Key {
        at: usize,
        branches: [u32; 3],
    },
    Length(usize),
}

/// A program, and the first line of its text that breaks a rule with the rule, if there is one.
#[derive(Clone, Copy, Debug)]
pub(crate) struct Case {
    pub version: u8,
    pub slots: u32,
    pub change: Change,
    pub fault: Option<(u32, CodeKind)>,
}

fn product(alloc: Global, text: &str) -> Option<Product> {
    let mut product = List::new(alloc);
    product.push(read_numeral(text.as_bytes()).ok()?).ok()?;
    Some(product)
}

fn push_particle(alloc: Global, particles: &mut List<Particle>) -> Option<()> {
    let particle = Particle {
        name: Name::read(b"phi")?,
        anti: Name::read(b"phi")?,
        spin: Spin::Scalar,
        mass: product(alloc, "0")?,
        width: product(alloc, "0")?,
        norm: product(alloc, "1")?,
        colour: Colour::One,
    };
    particles.push(particle).ok()
}

fn model(alloc: Global, change: Change) -> Option<Model> {
    let mut particles = List::new(alloc);
    push_particle(alloc, &mut particles)?;
    if matches!(change, Change::SecondParticle) {
        push_particle(alloc, &mut particles)?;
    }
    let mut fields = List::new(alloc);
    for _slot in 0..3 {
        fields.push(0).ok()?;
    }
    let mut factors = List::new(alloc);
    factors.push(product(alloc, "1")?).ok()?;
    let mut vertices = List::new(alloc);
    let vertex = Vertex {
        structure: Structure::Sss,
        fields,
        factors,
        order: 1,
    };
    vertices.push(vertex).ok()?;
    Some(Model {
        name: Name::read(b"phi3")?,
        particles,
        vertices,
    })
}

pub(crate) fn fuse(to: u32, a: u32, b: u32) -> Instr {
    Instr::Fuse {
        to,
        minus: false,
        vertex: 0,
        choice: 0,
        branches: Branches {
            count: 2,
            nodes: [a, b, 0, 0],
        },
    }
}

pub(crate) fn key(branches: [u32; 3]) -> Instr {
    let [a, b, c] = branches;
    Instr::Key {
        flow: 0,
        minus: false,
        vertex: 0,
        choice: 0,
        branches: Branches {
            count: 3,
            nodes: [a, b, c, 0],
        },
    }
}

fn changed(at: usize, instr: Instr, change: Change) -> Instr {
    match change {
        Change::Prop { at: place, of, den } if place == at => Instr::Prop { of, den },
        Change::Fuse {
            at: place,
            to,
            branches,
        } if place == at => fuse(to, branches[0], branches[1]),
        Change::Key {
            at: place,
            branches,
        } if place == at => key(branches),
        _ => instr,
    }
}

fn instrs(alloc: Global, change: Change) -> Option<List<Instr>> {
    let mut list = List::new(alloc);
    let plain = [
        Instr::Load { to: 0, leg: 1 },
        Instr::Load { to: 1, leg: 2 },
        Instr::Load { to: 2, leg: 3 },
        Instr::Load { to: 3, leg: 4 },
        fuse(4, 1, 2),
        Instr::Prop { of: 4, den: 0 },
        fuse(5, 1, 3),
        Instr::Prop { of: 5, den: 1 },
        fuse(6, 2, 3),
        Instr::Prop { of: 6, den: 2 },
        key([0, 1, 6]),
        key([0, 4, 3]),
        key([0, 5, 2]),
    ];
    for (at, instr) in plain.iter().enumerate() {
        if matches!(change, Change::Length(length) if length == at) {
            return Some(list);
        }
        list.push(changed(at, *instr, change)).ok()?;
    }
    Some(list)
}

fn dens(alloc: Global, change: Change) -> Option<List<Den>> {
    let mut list = List::new(alloc);
    for (at, set) in [6u16, 10, 12].iter().enumerate() {
        let number = match change {
            Change::Den {
                at: place,
                set: other,
            } if place == at => other,
            _ => *set,
        };
        if number >= 4096 {
            return None;
        }
        list.push(Den {
            legs: LegSet::from_number(number),
            field: 0,
        })
        .ok()?;
    }
    Some(list)
}

/// The program of a case; none where memory runs out.
pub(crate) fn program(alloc: Global, case: &Case) -> Option<Code> {
    let count = match case.change {
        Change::Legs(count) => count,
        _ => 4,
    };
    let mut legs = List::new(alloc);
    for _leg in 0..count {
        legs.push(0).ok()?;
    }
    let mut ends = [0; 12];
    if let Change::FirstEnd(end) = case.change {
        ends[0] = end;
    }
    let mut flows = List::new(alloc);
    flows.push(Flow { ends }).ok()?;
    Some(Code {
        version: case.version,
        model: model(alloc, case.change)?,
        legs,
        flows,
        dens: dens(alloc, case.change)?,
        slots: case.slots,
        instrs: instrs(alloc, case.change)?,
    })
}
