//! The listings of small processes, and a sink that fails.
ghost use Rattle.std.specs.Prelude.{◌<◌, ◌^◌, length};
ghost use Rattle.om_model.specs.WellFormed.{IsWellFormed};
ghost use Rattle.om_model.specs.ProcessOf.{IsProcessOf};

use crate::write_listing;
use om_colour::Colour;
use om_graph::build;
use om_io::{Failed, MemSink, Sink};
use om_keystone::prune;
use om_lorentz::{Spin, Structure};
use om_model::laws::accepted_are_well_formed;
use om_model::{Model, Name, Particle, Process, Product, Vertex, check_model, read_process};
use om_ring::{Book, List, Steps, Zp, read_numeral};
use std::alloc::Global;
use std::process::Abort;
use std::test::Fail;

fn product(alloc: Global, text: &str) -> Option<Product> {
    let mut product = List::new(alloc);
    product.push(read_numeral(text.as_bytes()).ok()?).ok()?;
    Some(product)
}

fn particle(alloc: Global, name: &str, anti: &str, spin: Spin, colour: Colour) -> Option<Particle> {
    Some(Particle {
        name: Name::read(name.as_bytes())?,
        anti: Name::read(anti.as_bytes())?,
        spin,
        mass: product(alloc, "0")?,
        width: product(alloc, "0")?,
        norm: product(alloc, "1")?,
        colour,
    })
}

fn vertex(
    alloc: Global,
    structure: Structure,
    slots: [u16; 3],
    numbers: &[&str],
) -> Option<Vertex> {
    let mut fields = List::new(alloc);
    for field in slots {
        fields.push(field).ok()?;
    }
    let mut factors = List::new(alloc);
    for number in numbers {
        factors.push(product(alloc, number)?).ok()?;
    }
    Some(Vertex {
        structure,
        fields,
        factors,
        order: 1,
    })
}

// Electrons, photons and gluons, which meet in threes.
fn threes(alloc: Global) -> Option<Model> {
    let mut particles = List::new(alloc);
    for (name, anti, spin, colour) in [
        ("e-", "e+", Spin::Dirac, Colour::One),
        ("A", "A", Spin::Vector, Colour::One),
        ("g", "g", Spin::Vector, Colour::Eight),
    ] {
        particles
            .push(particle(alloc, name, anti, spin, colour)?)
            .ok()?;
    }
    let mut vertices = List::new(alloc);
    vertices
        .push(vertex(alloc, Structure::Ffv, [1, 0, 2], &["1", "0"])?)
        .ok()?;
    vertices
        .push(vertex(alloc, Structure::Vvv, [4, 4, 4], &["1"])?)
        .ok()?;
    Some(Model {
        name: Name::read(b"threes")?,
        particles,
        vertices,
    })
}

// Writes the listing of a process.
fn list<W: Sink>(
    alloc: Global,
    model: &Model,
    process: &Process,
    to: &mut W,
) -> Option<Result<(), Failed>>
    requires accepted { IsWellFormed model.now }
    requires process { IsProcessOf model.now process.now }
{
    let possible = build(alloc, model, process).ok()?;
    let pruned = prune(alloc, model, process, possible).ok()?;
    Some(write_listing(model, &pruned, to))
}

// Writes the listing of the process that a text is.
fn list_text<W: Sink>(
    alloc: Global,
    model: &Model,
    text: &str,
    to: &mut W,
) -> Option<Result<(), Failed>>
    requires { length text.now < 2 ^ 31 }
{
    check_model(&Zp, model, &mut Steps::new(Book)).ok()?;
    accepted_are_well_formed(&Zp);
    let process = read_process(alloc, model, text.as_bytes()).ok()?;
    list(alloc, model, &process, to)
}

const NONE: &str = "graph nodes 0 fusions 0 keystones 0 flows 0\n";

const GLUONS: &str =
    "graph nodes 3 fusions 0 keystones 2 flows 2\nflow 1 1>2,2>3,3>1\nflow 2 1>3,2>1,3>2\nnode 1 1 g 1>,>1\nnode 2 2 g 2>,>2\nnode 3 3 g 3>,>3\nkeystone 1 + 2 0 1 2 3\nkeystone 2 + 2 1 1 2 3\n";

const PHOTONS: &str =
    "graph nodes 11 fusions 6 keystones 6 flows 1\nflow 1 -\nnode 1 1 e- -\nnode 2 2 e+ -\nnode 3 3 A -\nnode 4 4 A -\nnode 5 5 A -\nnode 6 1+3 e- -\nfusion 6 + 1 0 1 3\nnode 7 2+3 e+ -\nfusion 7 + 1 0 2 3\nnode 8 1+4 e- -\nfusion 8 + 1 0 1 4\nnode 9 2+4 e+ -\nfusion 9 + 1 0 2 4\nnode 10 1+5 e- -\nfusion 10 + 1 0 1 5\nnode 11 2+5 e+ -\nfusion 11 + 1 0 2 5\nkeystone 1 - 1 0 6 9 5\nkeystone 1 - 1 0 6 11 4\nkeystone 1 - 1 0 8 7 5\nkeystone 1 - 1 0 8 11 3\nkeystone 1 - 1 0 10 7 4\nkeystone 1 - 1 0 10 9 3\n";

// A process, the writes that fail, what is answered, and what the sink then holds.
type Case = (
    &'static str,
    &'static [u64],
    Result<(), Failed>,
    &'static str,
);

const CASES: &[Case] = &[
    ("A -> A A", &[], Ok(()), NONE),
    ("g -> g g", &[], Ok(()), GLUONS),
    ("e- e+ -> A A A", &[], Ok(()), PHOTONS),
    ("e- e+ -> A A A", &[1], Err(Failed), ""),
];

fn check_case(rt: &impl Abort, alloc: Global, model: &Model, case: &Case) -> Result<(), Fail> {
    let (process, fails, answer, text) = *case;
    if process.len() >= 1 << 31 {
        return Err("too long".into());
    }
    let mut sink = MemSink::new(alloc, 1000, fails.to_vec(alloc)?)
        .ok()
        .ok_or("no memory")?;
    assert_eq!(rt; list_text(alloc, model, process, &mut sink), Some(answer));
    assert_eq!(rt; sink.bytes(), text.as_bytes());
    Ok(())
}

#[test]
fn listings(rt: HostRuntime) -> Result<(), Fail> {
    let model = threes(rt.alloc()).expect(&rt, "no model");
    for case in CASES {
        check_case(&rt, rt.alloc(), &model, case)?;
    }
    Ok(())
}
