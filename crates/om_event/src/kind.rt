//! The kinds of the waves that enter through the legs.
ghost use Rattle.std.specs.Prelude.{◌≡◌};
ghost use Rattle.om_machine.specs.Events.{kind_of_field};
ghost use Rattle.om_event.specs.Kinds.{kind_named};

use om_code::Code;
use om_lorentz::Spin;
use om_model::spin_of_field;

/// What the wave of a leg is.
#[derive(Clone, Copy, Debug, PartialEq, Eq)]
pub enum WaveKind {
    /// One component.
    Scalar,
    /// Four components: an outgoing spinor, of the antiname of a Dirac particle.
    Row,
    /// Four components: a spinor, of the name of a Dirac particle.
    Column,
    /// Four components, with upper index.
    Vector,
}

/// The kind of the wave that enters with a field.
pub(crate) fn kind_of_field(code: &Code, field: u16) -> WaveKind
    ensures { kind_named result ≡ kind_of_field code.now.model.particles field }
{
    match spin_of_field(code.model.particles.as_slice(), field) {
        Spin::Scalar => WaveKind::Scalar,
        Spin::Vector => WaveKind::Vector,
        Spin::Dirac if field % 2 == 0 => WaveKind::Column,
        Spin::Dirac => WaveKind::Row,
    }
}
