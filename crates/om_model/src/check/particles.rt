//! The rules of a row of the particles.
ghost use Rattle.std.specs.Prelude.{◌≡◌, ◌+◌, ◌*◌, ◌<◌, ◌≤◌, ◌↔◌, IsTrue, length, Some, None};
ghost use Rattle.om_model.specs.declared.limits.TheConstants.{MOST_PARTICLES};
ghost use Rattle.om_model.specs.Rules.{ChecksRows, HasLengths, HasNoInverse, IsBadOwnAnti, IsFirstRule, IsFormedParticle, is_name_of, has_name as has_name_of, RowBreaks};

use super::has_length;
use crate::{Model, ModelRule, Particle, RuleFault, Table};
use om_colour::Colour;
use om_lorentz::Spin;
use om_ring::{Ring, Steps, value_of_product};

pub(crate) fn check_particles<R: Ring<Mark = L>, L>(
    ring: &R,
    model: &Model,
    steps: &mut Steps<L>,
) -> Result<(), RuleFault>
    requires { length model.now.particles ≤ MOST_PARTICLES }
    ensures rules { ChecksRows (R.ops ring.now) model.now Table.Particle result }
    ensures at_most { steps.new ≤ steps.old + length model.now.particles * (200 * R.cost ring.now) }
{
    for row in 0..model.particles.len() {
        if let Some(rule) = particle_fault(ring, model, row, steps) {
            return Err(RuleFault {
                rule,
                table: Table::Particle,
                row: row as u32 + 1,
            });
        }
    }
    Ok(())
}

/// Whether a particle keeps the rules that no ring is needed for: 1 to 8 numerals in each product, a name and an antiname
/// that no earlier particle has, and an antiparticle of its own where it is a Dirac particle or has colour 3 or -3.
pub fn is_formed_particle(earlier: &[Particle], particle: &Particle) -> bool
    ensures { IsTrue result ↔ IsFormedParticle earlier.now particle.now }
{
    has_lengths(particle)
        && !is_taken(earlier, particle.name.bytes())
        && !is_taken(earlier, particle.anti.bytes())
        && !is_bad_own_anti(particle)
}

// The first rule that the particle of a row, counted from 0, breaks.
fn particle_fault<R: Ring<Mark = L>, L>(
    ring: &R,
    model: &Model,
    row: usize,
    steps: &mut Steps<L>,
) -> Option<ModelRule>
    requires { row < length model.now.particles }
    ensures rules { IsFirstRule (RowBreaks (R.ops ring.now) model.now Table.Particle (row + 1)) result }
    ensures at_most { steps.new ≤ steps.old + 200 * R.cost ring.now }
{
    let particle = model.particles.at(row);
    let earlier = &model.particles.as_slice()[..row];
    if !has_lengths(particle) {
        return Some(ModelRule::Limit);
    }
    if is_taken(earlier, particle.name.bytes()) || is_taken(earlier, particle.anti.bytes()) {
        return Some(ModelRule::RepeatedName);
    }
    if is_bad_own_anti(particle) {
        return Some(ModelRule::BadPattern);
    }
    if has_no_inverse(ring, particle, steps) {
        return Some(ModelRule::NoInverse);
    }
    None
}

/// Whether the mass, the width and the norm have 1 to 8 numerals each.
pub fn has_lengths(particle: &Particle) -> bool
    ensures { IsTrue result ↔ HasLengths particle.now }
{
    has_length(particle.mass.as_slice())
        && has_length(particle.width.as_slice())
        && has_length(particle.norm.as_slice())
}

// Whether one of these particles has this name or antiname.
fn is_taken(particles: &[Particle], name: &[u8]) -> bool
    ensures { result ≡ is_name_of particles.now name.now }
{
    particles.iter().any(|particle| has_name(particle, name))
}

fn has_name(particle: &Particle, name: &[u8]) -> bool
    ensures { result ≡ has_name_of particle.now name.now }
{
    particle.name.bytes() == name || particle.anti.bytes() == name
}

// Whether the particle is its own antiparticle and may not be.
fn is_bad_own_anti(particle: &Particle) -> bool
    ensures { IsTrue result ↔ IsBadOwnAnti particle.now }
{
    particle.name.bytes() == particle.anti.bytes()
        && (matches!(particle.spin, Spin::Dirac)
            || matches!(particle.colour, Colour::Three | Colour::AntiThree))
}

fn has_no_inverse<R: Ring<Mark = L>, L>(ring: &R, particle: &Particle, steps: &mut Steps<L>) -> bool
    requires { HasLengths particle.now }
    ensures rules { IsTrue result ↔ HasNoInverse (R.ops ring.now) particle.now }
    ensures at_most { steps.new ≤ steps.old + 200 * R.cost ring.now }
{
    let Some(mass) = value_of_product(ring, particle.mass.as_slice(), steps) else {
        return true;
    };
    if value_of_product(ring, particle.width.as_slice(), steps).is_none() {
        return true;
    }
    if value_of_product(ring, particle.norm.as_slice(), steps).is_none() {
        return true;
    }
    matches!(particle.spin, Spin::Vector)
        && !ring.same(mass, ring.zero())
        && ring.inverse(mass, steps).is_none()
}
