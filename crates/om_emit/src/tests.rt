//! The code of a process, from its model.
ghost use Rattle.std.specs.Prelude.{◌<◌, ◌^◌, length};
ghost use Rattle.om_model.specs.WellFormed.{IsWellFormed};
ghost use Rattle.om_model.specs.ProcessOf.{IsProcessOf};

use crate::emit;
use om_code::Instr;
use om_colour::Colour;
use om_graph::build;
use om_keystone::prune;
use om_lorentz::{Spin, Structure};
use om_model::laws::accepted_are_well_formed;
use om_model::{Model, Name, Particle, Process, Product, Vertex, check_model, read_process};
use om_ring::{Book, List, Steps, Zp, read_numeral};
use std::alloc::Global;
use std::test::Fail;

fn product(alloc: Global, text: &str) -> Option<Product> {
    let mut product = List::new(alloc);
    product.push(read_numeral(text.as_bytes()).ok()?).ok()?;
    Some(product)
}

fn particle(alloc: Global, name: &str, anti: &str, spin: Spin) -> Option<Particle> {
    Some(Particle {
        name: Name::read(name.as_bytes())?,
        anti: Name::read(anti.as_bytes())?,
        spin,
        mass: product(alloc, "0")?,
        width: product(alloc, "0")?,
        norm: product(alloc, "1")?,
        colour: Colour::One,
    })
}

// Electrons and photons.
fn electrons(alloc: Global) -> Option<Model> {
    let mut particles = List::new(alloc);
    particles
        .push(particle(alloc, "e-", "e+", Spin::Dirac)?)
        .ok()?;
    particles
        .push(particle(alloc, "A", "A", Spin::Vector)?)
        .ok()?;
    let mut fields = List::new(alloc);
    fields.push(1).ok()?;
    fields.push(0).ok()?;
    fields.push(2).ok()?;
    let mut factors = List::new(alloc);
    factors.push(product(alloc, "1")?).ok()?;
    factors.push(product(alloc, "0")?).ok()?;
    let mut vertices = List::new(alloc);
    vertices
        .push(Vertex {
            structure: Structure::Ffv,
            fields,
            factors,
            order: 1,
        })
        .ok()?;
    Some(Model {
        name: Name::read(b"qed")?,
        particles,
        vertices,
    })
}

// How many legs, flows, denominators, slots and instructions the code of a process has, and the slots of two of its last instructions.
fn sizes(alloc: Global, model: &Model, process: &Process) -> Option<([usize; 5], [u32; 4])>
    requires accepted { IsWellFormed model.now }
    requires process { IsProcessOf model.now process.now }
{
    let possible = build(alloc, model, process).ok()?;
    let pruned = prune(alloc, model, process, possible).ok()?;
    let verified = emit(alloc, model, process, &pruned).ok()?;
    let code = verified.code();
    let sizes = [
        code.legs.len(),
        code.flows.len(),
        code.dens.len(),
        code.slots as usize,
        code.instrs.len(),
    ];
    Some((sizes, last_fuse(code.instrs.as_slice())))
}

// The slot of the last fuse, its first two branches and their number.
fn last_fuse(instrs: &[Instr]) -> [u32; 4] {
    let mut last = [0; 4];
    for instr in instrs {
        if let Instr::Fuse { to, branches, .. } = instr {
            let [first, second, _, _] = branches.nodes;
            last = [*to, first, second, u32::from(branches.count)];
        }
    }
    last
}

// The same of the process that a text is.
fn code_of(alloc: Global, model: &Model, text: &str) -> Option<([usize; 5], [u32; 4])>
    requires { length text.now < 2 ^ 31 }
{
    check_model(&Zp, model, &mut Steps::new(Book)).ok()?;
    accepted_are_well_formed(&Zp);
    let process = read_process(alloc, model, text.as_bytes()).ok()?;
    sizes(alloc, model, &process)
}

#[test]
fn slots_are_used_again(rt: HostRuntime) -> Result<(), Fail> {
    let model = electrons(rt.alloc()).expect(&rt, "no model");
    assert_eq!(rt;
        code_of(rt.alloc(), &model, "e- e+ -> A A A"),
        Some(([5, 1, 6, 10, 23], [0, 1, 4, 2]))
    );
    Ok(())
}
