use super::*;
use om_ring::read_numeral;

fn product(alloc: Global, text: &str) -> Option<Product> {
    let mut product = List::new(alloc);
    product.push(read_numeral(text.as_bytes()).ok()?).ok()?;
    Some(product)
}

fn model(alloc: Global) -> Option<Model> {
    let mut particles = List::new(alloc);
    particles
        .push(Particle {
            name: Name::read(b"W+")?,
            anti: Name::read(b"W-")?,
            spin: Spin::Vector,
            mass: product(alloc, "80")?,
            width: product(alloc, "2")?,
            norm: product(alloc, "1")?,
            colour: Colour::One,
        })
        .ok()?;
    let mut fields = List::new(alloc);
    for field in [0, 1, 0] {
        fields.push(field).ok()?;
    }
    let mut factors = List::new(alloc);
    factors.push(product(alloc, "1/2")?).ok()?;
    let mut vertices = List::new(alloc);
    vertices
        .push(Vertex {
            structure: Structure::Vvv,
            fields,
            factors,
            order: 1,
        })
        .ok()?;
    Some(Model {
        name: Name::read(b"w")?,
        particles,
        vertices,
    })
}

// The bytes of the antiname of the first particle, and the numbers of members of the lists of the first rows.
fn shape(model: &Model) -> Option<[usize; 5]> {
    let particle = model.particles.as_slice().first()?;
    let vertex = model.vertices.as_slice().first()?;
    let factor = vertex.factors.as_slice().first()?;
    Some([
        particle.anti.bytes().len(),
        particle.mass.len(),
        vertex.fields.len(),
        vertex.factors.len(),
        factor.len(),
    ])
}

#[test]
fn copies(rt: HostRuntime) {
    let copy = model(rt.alloc()).and_then(|model| model.copy(rt.alloc()).ok());
    assert_eq!(rt; copy.and_then(|copy| shape(&copy)), Some([2, 1, 3, 1, 1]));
}
