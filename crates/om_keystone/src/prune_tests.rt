//! The graph of a process with a node that no diagram has, pruned.
ghost use Rattle.std.specs.Prelude.{◌<◌, ◌^◌, length};
ghost use Rattle.om_model.specs.WellFormed.{IsWellFormed};
ghost use Rattle.om_model.specs.ProcessOf.{IsProcessOf};

use crate::prune;
use om_colour::Colour;
use om_graph::build;
use om_lorentz::{Spin, Structure};
use om_model::laws::accepted_are_well_formed;
use om_model::{Model, Name, Particle, Process, Product, Vertex, check_model, read_process};
use om_ring::{Book, List, Steps, Zp, read_numeral};
use std::alloc::Global;
use std::test::Fail;

fn product(alloc: Global, text: &str) -> Option<Product> {
    let mut product = List::new(alloc);
    product.push(read_numeral(text.as_bytes()).ok()?).ok()?;
    Some(product)
}

fn particle(alloc: Global, name: &str, anti: &str, spin: Spin) -> Option<Particle> {
    Some(Particle {
        name: Name::read(name.as_bytes())?,
        anti: Name::read(anti.as_bytes())?,
        spin,
        mass: product(alloc, "0")?,
        width: product(alloc, "0")?,
        norm: product(alloc, "1")?,
        colour: Colour::One,
    })
}

// Electrons and photons.
fn electrons(alloc: Global) -> Option<Model> {
    let mut particles = List::new(alloc);
    particles
        .push(particle(alloc, "e-", "e+", Spin::Dirac)?)
        .ok()?;
    particles
        .push(particle(alloc, "A", "A", Spin::Vector)?)
        .ok()?;
    let mut fields = List::new(alloc);
    fields.push(1).ok()?;
    fields.push(0).ok()?;
    fields.push(2).ok()?;
    let mut factors = List::new(alloc);
    factors.push(product(alloc, "1")?).ok()?;
    factors.push(product(alloc, "0")?).ok()?;
    let mut vertices = List::new(alloc);
    vertices
        .push(Vertex {
            structure: Structure::Ffv,
            fields,
            factors,
            order: 1,
        })
        .ok()?;
    Some(Model {
        name: Name::read(b"qed")?,
        particles,
        vertices,
    })
}

// The nodes, terms, keystone terms and flows that are possible, and those of the canonical graph.
fn sizes(alloc: Global, model: &Model, process: &Process) -> Option<([usize; 4], [usize; 4])>
    requires accepted { IsWellFormed model.now }
    requires process { IsProcessOf model.now process.now }
{
    let possible = build(alloc, model, process).ok()?;
    let before = [
        possible.nodes.len(),
        possible.terms.len(),
        possible.keys.len(),
        possible.flows.len(),
    ];
    let pruned = prune(alloc, model, process, possible).ok()?;
    let graph = pruned.graph();
    let after = [
        graph.nodes.len(),
        graph.terms.len(),
        graph.keys.len(),
        graph.flows.len(),
    ];
    Some((before, after))
}

// The same of the process that a text is.
fn counts(alloc: Global, model: &Model, text: &str) -> Option<([usize; 4], [usize; 4])>
    requires { length text.now < 2 ^ 31 }
{
    check_model(&Zp, model, &mut Steps::new(Book)).ok()?;
    accepted_are_well_formed(&Zp);
    let process = read_process(alloc, model, text.as_bytes()).ok()?;
    sizes(alloc, model, &process)
}

#[test]
fn node_without_diagram_goes(rt: HostRuntime) -> Result<(), Fail> {
    let model = electrons(rt.alloc()).expect(&rt, "no model");
    assert_eq!(rt;
        counts(rt.alloc(), &model, "e- e+ -> A A A"),
        Some(([12, 7, 6, 1], [11, 6, 6, 1]))
    );
    Ok(())
}
