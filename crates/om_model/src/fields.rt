//! The fields of particles: their names, spins, colours and antifields.
ghost use Rattle.std.specs.Prelude.{◌≡◌, ◌^◌, ◌≤◌, length};
ghost use Rattle.om_model.specs.declared.limits.TheConstants.{MOST_NAME_BYTES};
ghost use Rattle.om_model.specs.FieldNames.{field_name as field_name_of, field_named as field_named_of};
ghost use Rattle.om_model.specs.Model.{anti_field as anti_field_of, colour_of_field as colour_of_field_of, is_field as is_field_of, spin_of_field as spin_of_field_of};

use crate::Particle;
use om_colour::Colour;
use om_lorentz::Spin;

/// Whether a number is a field of one of the particles.
pub fn is_field(particles: &[Particle], field: u16) -> bool
    ensures { result ≡ is_field_of particles.now field }
{
    match particles.get(usize::from(field / 2)) {
        Some(particle) => field % 2 == 0 || particle.name.bytes() != particle.anti.bytes(),
        None => false,
    }
}

/// The field that a name means: that of the first particle that has it as its name or its antiname. None exactly where no
/// particle has.
pub fn field_named(particles: &[Particle], name: &[u8]) -> Option<u16>
    requires { length particles.now ≤ 2 ^ 15 }
    ensures { result ≡ field_named_of particles.now name.now }
{
    for (row, particle) in particles.iter().enumerate() {
        if name == particle.name.bytes() {
            return Some(2 * row as u16);
        }
        if name == particle.anti.bytes() {
            return Some(2 * row as u16 + 1);
        }
    }
    None
}

/// The other field of the same row, or the field itself where the particle is its own antiparticle.
pub fn anti_field(particles: &[Particle], field: u16) -> u16
    ensures { result ≡ anti_field_of particles.now field }
{
    match particles.get(usize::from(field / 2)) {
        Some(particle) if particle.name.bytes() != particle.anti.bytes() => {
            if field % 2 == 0 { field + 1 } else { field - 1 }
        }
        _ => field,
    }
}

/// The spin of a field.
pub fn spin_of_field(particles: &[Particle], field: u16) -> Spin
    ensures { result ≡ spin_of_field_of particles.now field }
{
    match particles.get(usize::from(field / 2)) {
        Some(particle) => particle.spin,
        None => Spin::Scalar,
    }
}

/// The colour that enters with a field.
pub fn colour_of_field(particles: &[Particle], field: u16) -> Colour
    ensures { result ≡ colour_of_field_of particles.now field }
{
    match particles.get(usize::from(field / 2)) {
        Some(particle) if field % 2 == 0 => particle.colour,
        Some(particle) => particle.colour.anti(),
        None => Colour::One,
    }
}

/// The name of a field: the name or the antiname of its particle. Empty exactly where no particle has the field's row.
pub fn field_name(particles: &[Particle], field: u16) -> &[u8]
    ensures name { result.now ≡ field_name_of particles.now field }
    ensures short { length result.now ≤ MOST_NAME_BYTES }
{
    match particles.get(usize::from(field / 2)) {
        None => &[],
        Some(particle) if field % 2 == 0 => particle.name.bytes(),
        Some(particle) => particle.anti.bytes(),
    }
}
