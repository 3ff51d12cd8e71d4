//! How many colour choices the vertices of a code have.
ghost use Rattle.std.specs.Prelude.{◌≡◌, ◌⊎◌, length, IfOk};
ghost use Rattle.om_code.specs.Choices.{choice_counts, choices_of_row};
ghost use Rattle.om_code.specs.Readable.{HasThreeOrFour};

use crate::Code;
use om_model::{Particle, Vertex, colour_row};
use om_ring::{List, NoMemory};
use std::alloc::Global;

/// How many choices each vertex row has, in order.
pub(crate) fn choice_counts(alloc: Global, code: &Code) -> Result<List<u8>, NoMemory>
    requires { HasThreeOrFour code.now }
    ensures { IfOk result (λ counts. counts ≡ choice_counts code.now) }
{
    let particles = code.model.particles.as_slice();
    let mut counts = List::with_room(alloc, code.model.vertices.len())?;
    for vertex in code.model.vertices.as_slice() {
        counts.push(choices_of_row(particles, vertex))?;
    }
    Ok(counts)
}

// How many choices a vertex row has, none where its colours are in no row of the colour table.
fn choices_of_row(particles: &[Particle], vertex: &Vertex) -> u8
    requires { (length vertex.now.fields ≡ 3) ⊎ (length vertex.now.fields ≡ 4) }
    ensures { result ≡ choices_of_row particles.now vertex.now }
{
    match colour_row(particles, vertex.fields.as_slice()) {
        Some(colours) => colours.count(),
        None => 0,
    }
}
