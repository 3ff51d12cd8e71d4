//! The fields of a model by their names.
ghost use Rattle.std.specs.Prelude.{◌≡◌, ℕ, ◌<◌, ◌≤◌, ◌*◌, ◌+◌, List as ListOf, length, IfOk, OnOk};
ghost use Rattle.om_model.specs.FieldNames.{field_named};
ghost use Rattle.om_code.specs.declared.code.TheConstants.{MOST_PARTICLE_LINES};
ghost use Rattle.om_asm.specs.Fields.{HasFirstFields, named_in, or_else, where_named};

use om_model::Particle;
use om_ring::{List, NoMemory};
use std::alloc::Global;
use std::collections::BTreeMap;
use std::marker::Model;

/// The particles of a program, with the first field that each name means. Contracts see the particles.
#[derive(Drop)]
pub(crate) struct Fields<'a> {
    particles: &'a List<Particle>,
    by_name: BTreeMap<&'a [u8], u16>,
}

impl<'a> Model for Fields<'a> {
    ghost use Rattle.std.specs.Prelude.{List};
    ghost use Rattle.om_model.specs.declared.model.Particle.{Particle};
    ghost use Rattle.om_asm.specs.Fields.{HasFirstFields};

    ghost Value = { List Particle };

    ghost view = { λ f. f.particles.now };

    ghost invariant = { λ f. HasFirstFields f.particles.now f.by_name };
}

impl<'a> Fields<'a> {
    /// The fields of particles.
    pub(crate) fn of(alloc: Global, particles: &'a List<Particle>) -> Result<Fields<'a>, NoMemory>
        requires { length particles.now ≤ MOST_PARTICLE_LINES }
        ensures { IfOk result (λ f. f ≡ particles.now) }
    {
        let by_name = first_fields(alloc, particles.as_slice())?;
        Ok(Fields { particles, by_name })
    }

    /// The field that a name means: that of the first particle that has it as its name or its antiname. None exactly
    /// where no particle has. The time it takes grows with the logarithm of the number of particles.
    pub(crate) fn named(&self, name: &[u8]) -> Option<u16>
        ensures { result ≡ field_named self.now name.now }
    {
        self.by_name.get(name).copied()
    }
}

// The first field that each name means.
fn first_fields<'a>(
    alloc: Global,
    particles: &'a [Particle],
) -> Result<BTreeMap<&'a [u8], u16>, NoMemory>
    requires { length particles.now ≤ MOST_PARTICLE_LINES }
    ensures { IfOk result (λ m. HasFirstFields particles.now m) }
{
    let mut by_name = BTreeMap::new(alloc);
    for (row, particle) in particles.iter().enumerate() {
        let field = 2 * row as u16;
        put_first(&mut by_name, particle.name.bytes(), field)?;
        put_first(&mut by_name, particle.anti.bytes(), field + 1)?;
    }
    Ok(by_name)
}

// Puts a field in at its name, where none is there yet.
fn put_first<'a>(
    by_name: &mut BTreeMap<&'a [u8], u16>,
    name: &'a [u8],
    field: u16,
) -> Result<(), NoMemory>
    ensures { OnOk result ((q : ListOf ℕ) → named_in by_name.new q ≡ or_else (named_in by_name.old q) (where_named q name.now field)) }
{
    if by_name.contains_key(name) {
        return Ok(());
    }
    match by_name.insert(name, field) {
        Ok(_) => Ok(()),
        Err(_) => Err(NoMemory),
    }
}
