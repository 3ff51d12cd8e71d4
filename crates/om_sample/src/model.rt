//! The model and the process of a sample.
ghost use Rattle.std.specs.Prelude.{◌≡◌, ◌≤◌, [], ◌∷◌, IfOk, IsTrue};
ghost use Rattle.om_model.specs.Name.{is_name};
ghost use Rattle.om_sample.specs.Model.{sample_model, sample_particle, sample_process, sample_vertex, whole};

use om_colour::Colour;
use om_lorentz::{Spin, Structure};
use om_model::{Leg, Model, Name, Particle, Process, Product, Vertex};
use om_ring::{List, NoMemory, Numeral};
use std::alloc::Global;

// A product of one whole number.
fn product(alloc: Global, num: u64) -> Result<Product, NoMemory>
    ensures { IfOk result (λ p. p ≡ whole num ∷ []) }
{
    let mut product = List::new(alloc);
    product.push(Numeral {
        neg: false,
        num,
        den: 1,
        imag: false,
    })?;
    Ok(product)
}

// The name that a text is.
fn name(text: &[u8]) -> Name
    requires { IsTrue (is_name text.now) }
    ensures { result ≡ text.now }
{
    match Name::read(text) {
        Some(name) => name,
        None => unreachable!(),
    }
}

fn sample_particle(alloc: Global) -> Result<Particle, NoMemory>
    ensures { IfOk result (λ p. p ≡ sample_particle) }
{
    Ok(Particle {
        name: name(b"phi"),
        anti: name(b"phi"),
        spin: Spin::Scalar,
        mass: product(alloc, 1)?,
        width: product(alloc, 0)?,
        norm: product(alloc, 1)?,
        colour: Colour::One,
    })
}

fn sample_vertex(alloc: Global) -> Result<Vertex, NoMemory>
    ensures { IfOk result (λ v. v ≡ sample_vertex) }
{
    let mut fields = List::new(alloc);
    fields.push(0)?;
    fields.push(0)?;
    fields.push(0)?;
    let mut factors = List::new(alloc);
    factors.push(product(alloc, 1)?)?;
    Ok(Vertex {
        structure: Structure::Sss,
        fields,
        factors,
        order: 1,
    })
}

/// The model of a sample, `phi3m`: one scalar of mass 1, its own antiparticle, and one vertex of three.
pub fn sample_model(alloc: Global) -> Result<Model, NoMemory>
    ensures { IfOk result (λ m. m ≡ sample_model) }
{
    let mut particles = List::new(alloc);
    particles.push(sample_particle(alloc)?)?;
    let mut vertices = List::new(alloc);
    vertices.push(sample_vertex(alloc)?)?;
    Ok(Model {
        name: name(b"phi3m"),
        particles,
        vertices,
    })
}

/// The process of a sample over its model: leg 1 comes in, and all others go out.
pub fn sample_process(alloc: Global, legs: u8) -> Result<Process, NoMemory>
    requires { 1 ≤ legs }
    ensures { IfOk result (λ p. p ≡ sample_process legs) }
{
    let mut all = List::new(alloc);
    all.push(Leg {
        field: 0,
        outgoing: false,
    })?;
    for _leg in 1..legs {
        all.push(Leg {
            field: 0,
            outgoing: true,
        })?;
    }
    Ok(Process {
        legs: all,
        edges: List::new(alloc),
    })
}
