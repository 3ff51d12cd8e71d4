//! A program whose legs have a scalar, a column and a row.
ghost use Rattle.std.specs.Prelude.{◌^◌, ◌<◌, IsTrue};
ghost use Rattle.om_code.specs.Lines.{line_count};

use om_code::{Code, Instr, Verified, is_plain, verify};
use om_colour::{Colour, Flow};
use om_legs::{Branches, MOST_LEGS};
use om_lorentz::{Spin, Structure};
use om_model::{Model, Name, Particle, Product, Vertex};
use om_ring::{List, read_numeral};
use std::alloc::Global;
use std::process::Abort;
use std::test::Fail;

fn product(alloc: Global, text: &str) -> Option<Product> {
    let mut product = List::new(alloc);
    product.push(read_numeral(text.as_bytes()).ok()?).ok()?;
    Some(product)
}

fn push_particle(
    alloc: Global,
    particles: &mut List<Particle>,
    names: [&[u8]; 2],
    spin: Spin,
) -> Option<()> {
    let [name, anti] = names;
    let particle = Particle {
        name: Name::read(name)?,
        anti: Name::read(anti)?,
        spin,
        mass: product(alloc, "0")?,
        width: product(alloc, "0")?,
        norm: product(alloc, "1")?,
        colour: Colour::One,
    };
    particles.push(particle).ok()
}

fn listed<T: Copy>(alloc: Global, all: &[T]) -> Option<List<T>> {
    let mut list = List::new(alloc);
    for x in all {
        list.push(*x).ok()?;
    }
    Some(list)
}

fn model(alloc: Global) -> Option<Model> {
    let mut particles = List::new(alloc);
    push_particle(alloc, &mut particles, [b"e-", b"e+"], Spin::Dirac)?;
    push_particle(alloc, &mut particles, [b"h", b"h"], Spin::Scalar)?;
    let mut factors = List::new(alloc);
    factors.push(product(alloc, "1")?).ok()?;
    factors.push(product(alloc, "0")?).ok()?;
    let mut vertices = List::new(alloc);
    let vertex = Vertex {
        structure: Structure::Ffs,
        fields: listed(alloc, &[1, 0, 2])?,
        factors,
        order: 1,
    };
    vertices.push(vertex).ok()?;
    Some(Model {
        name: Name::read(b"yukawa")?,
        particles,
        vertices,
    })
}

fn load(to: u32, leg: u8) -> Instr {
    Instr::Load { to, leg }
}

fn code(alloc: Global) -> Option<Code> {
    let key = Instr::Key {
        flow: 0,
        minus: false,
        vertex: 0,
        choice: 0,
        branches: Branches {
            count: 3,
            nodes: [0, 1, 2, 0],
        },
    };
    Some(Code {
        version: 1,
        model: model(alloc)?,
        legs: listed(alloc, &[2, 0, 1])?,
        flows: listed(
            alloc,
            &[Flow {
                ends: [0; MOST_LEGS as usize],
            }],
        )?,
        dens: List::new(alloc),
        slots: 3,
        instrs: listed(alloc, &[load(0, 1), load(1, 2), load(2, 3), key])?,
    })
}

fn is_short(code: &Code) -> bool
    ensures { IsTrue result → line_count code.now < 2 ^ 31 }
{
    code.model.particles.len() < 1000
        && code.model.vertices.len() < 1000
        && code.legs.len() < 1000
        && code.flows.len() < 1000
        && code.dens.len() < 1000
        && code.instrs.len() < 1000
}

/// The scalar enters through leg 1, the column through leg 2 and the row through leg 3.
pub(crate) fn verified_code(rt: &impl Abort, alloc: Global) -> Result<Verified, Fail> {
    let code = code(alloc).ok_or("no code")?;
    assert!(rt; is_plain(&code));
    assert!(rt; is_short(&code));
    Ok(verify(alloc, code).ok().ok_or("not verified")?)
}
