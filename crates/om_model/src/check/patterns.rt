//! The fields, the factors and the colours that a structure has.
ghost use Rattle.std.specs.Prelude.{◌≡◌, ◌↔◌, IsTrue, MatchOption, map, Some, None};
ghost use Rattle.std.specs.List.{list_all};
ghost use Rattle.om_model.specs.Model.{is_field as is_field_of, spin_of_field as spin_of_field_of, colour_row as colour_row_of};
ghost use Rattle.om_model.specs.Rules.{HasSlots, HasStructure, HasFermionSlots, HasPattern};
ghost use Rattle.om_model.specs.declared.model.Vertex.{Vertex};

use crate::fields::{is_field, spin_of_field};
use crate::{Particle, Vertex, colour_row};
use om_colour::ColourRow;
use om_lorentz::{Spin, Structure};

/// The row of the colour table of a vertex whose fields, factors and colours are those of its structure.
pub(crate) fn pattern_of(particles: &[Particle], vertex: &Vertex) -> Option<ColourRow>
    ensures { MatchOption result (HasPattern particles.now vertex.now → ⊥) (λ row. HasPattern particles.now vertex.now × (colour_row_of particles.now vertex.now.fields ≡ Some row)) }
{
    if !has_slots(particles, vertex) {
        return None;
    }
    let Some(colours) = colour_row(particles, vertex.fields.as_slice()) else {
        return None;
    };
    if has_structure(vertex.structure, colours.row()) {
        Some(colours)
    } else {
        None
    }
}

// Whether the fields and the number of factors are those of the structure.
fn has_slots(particles: &[Particle], vertex: &Vertex) -> bool
    ensures { IsTrue result ↔ HasSlots particles.now vertex.now }
{
    let fields = vertex.fields.as_slice();
    are_fields(particles, fields)
        && have_spins(particles, fields, vertex.structure.spins())
        && vertex.factors.len() == vertex.structure.factor_count()
        && has_fermion_slots(vertex.structure, fields)
}

// Whether each of these is a field.
fn are_fields(particles: &[Particle], fields: &[u16]) -> bool
    ensures { result ≡ list_all (is_field_of particles.now) fields.now }
{
    fields.iter().all(|f| is_field(particles, *f))
}

// Whether the fields have these spins, slot by slot.
fn have_spins(particles: &[Particle], fields: &[u16], spins: &[Spin]) -> bool
    ensures { IsTrue result ↔ (map (spin_of_field_of particles.now) fields.now ≡ spins.now) }
{
    match (fields, spins) {
        ([], []) => true,
        ([field, more @ ..], [spin, rest @ ..]) => spin_of_field(particles, *field) == *spin
            && have_spins(particles, more, rest),
        _ => false,
    }
}

// Whether an antifermion enters slot 1 and a fermion slot 2, where the structure has fermions.
fn has_fermion_slots(structure: Structure, fields: &[u16]) -> bool
    ensures { IsTrue result ↔ HasFermionSlots structure fields.now }
{
    match structure {
        Structure::Ffs | Structure::Ffv => match fields {
            [antifermion, fermion, ..] => antifermion % 2 == 1 && fermion % 2 == 0,
            _ => false,
        },
        _ => true,
    }
}

// Whether a row of the colour table has the structure.
fn has_structure(structure: Structure, row: u8) -> bool
    ensures { IsTrue result ↔ HasStructure structure row }
{
    match structure {
        Structure::Sss | Structure::Vvv => row <= 5,
        Structure::Ssss => row <= 4 || row == 6 || row == 7,
        Structure::Gluon4 => row == 6,
        Structure::Vvss => row <= 4 || row == 7,
        _ => row <= 4,
    }
}
