//! Where the numbers of a line are put.
ghost use Rattle.std.specs.Prelude.{◌≡◌, ◌≤◌, ◌-◌, length, slice_set};
ghost use Rattle.om_kernel.specs.Waves.{kind_of};
ghost use Rattle.om_machine.specs.Events.{HasKindAt};
ghost use Rattle.om_event.specs.Kinds.{kind_named};
ghost use Rattle.om_event.specs.Written.{wave_of};

use crate::WaveKind;
use om_kernel::Wave;
use om_lorentz::Four;
use om_machine::Event;
use om_ring::{Numeral, Ring};

/// The numerals or values of a leg: its momentum, and the components of its wave, of which a scalar's is the first.
#[derive(Clone, Copy)]
pub(crate) struct Fours<E> {
    pub(crate) momentum: Four<E>,
    pub(crate) wave: Four<E>,
}

/// What lines are read into, made once for an event: a leg that is handed on is copied at each call.
#[derive(Clone, Copy)]
pub(crate) struct Scratch<E> {
    pub(crate) numerals: Fours<Numeral>,
    pub(crate) values: Fours<E>,
}

const ZERO: Numeral = Numeral {
    neg: false,
    num: 0,
    den: 1,
    imag: false,
};

// Four times the same.
fn four_of<E: Copy>(x: E) -> Four<E>
    ensures t { result.t ≡ x }
    ensures x { result.x ≡ x }
    ensures y { result.y ≡ x }
    ensures z { result.z ≡ x }
{
    Four {
        t: x,
        x,
        y: x,
        z: x,
    }
}

/// Zeros, which no line has written.
pub(crate) fn make_scratch<R: Ring>(ring: &R) -> Scratch<R::E> {
    let numerals = four_of(ZERO);
    let values = four_of(ring.zero());
    Scratch {
        numerals: Fours {
            momentum: numerals,
            wave: numerals,
        },
        values: Fours {
            momentum: values,
            wave: values,
        },
    }
}

// The wave of a kind.
#[inline(always)]
fn wave_of<E: Copy>(kind: WaveKind, p: &Four<E>) -> Wave<E>
    ensures { result ≡ wave_of kind p.now }
{
    match kind {
        WaveKind::Scalar => Wave::Scalar(p.t),
        WaveKind::Row => Wave::Row(*p),
        WaveKind::Column => Wave::Column(*p),
        WaveKind::Vector => Wave::Vector(*p),
    }
}

/// Puts the values of a leg, counted from 1, into an event.
#[inline(always)]
pub(crate) fn set_leg<E: Copy>(event: &mut Event<E>, leg: u8, kind: WaveKind, values: &Fours<E>)
    requires some { 1 ≤ leg }
    requires within { leg ≤ length event.old.momenta }
    requires kind { HasKindAt event.old.waves (leg - 1) (wave_of kind values.now.wave) }
    ensures momenta { event.new.momenta ≡ slice_set event.old.momenta (leg - 1) values.now.momentum }
    ensures waves { event.new.waves ≡ slice_set event.old.waves (leg - 1) (wave_of kind values.now.wave) }
{
    let wave = wave_of(kind, &values.wave);
    event.set(leg, values.momentum, wave);
}

/// Puts the components of a wave of this kind.
#[tactic(auto, using(crate::proofs::Components::scalar_again, crate::proofs::Components::row_again, crate::proofs::Components::column_again, crate::proofs::Components::vector_again))]
pub(crate) fn put_components<E: Copy>(kind: WaveKind, wave: Wave<E>, to: &mut Four<E>)
    requires { kind_of wave ≡ kind_named kind }
    ensures { wave_of kind to.new ≡ wave }
{
    let _kind = kind;
    match wave {
        Wave::Scalar(x) => to.t = x,
        Wave::Row(p) => *to = p,
        Wave::Column(p) => *to = p,
        Wave::Vector(p) => *to = p,
    }
}
