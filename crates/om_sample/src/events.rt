//! The events of a sample.
ghost use Rattle.std.specs.Prelude.{◌≡◌, ◌≤◌, ◌+◌, ◌*◌, ◌-◌};
ghost use Rattle.om_kernel.specs.declared.waves.Wave.TheVariants.{Scalar as a_scalar};
ghost use Rattle.om_code.specs.Waves.{minus_four, zero_four};
ghost use Rattle.om_code.specs.declared.code.Code.{Code};
ghost use Rattle.om_machine.specs.Events.{IsMadeFor};
ghost use Rattle.om_sample.specs.Generator.{state_after};
ghost use Rattle.om_sample.specs.Events.{IsOfScalars, draws_of_event, drawn, drawn_event, drawn_momentum};

use crate::generator::Generator;
use om_kernel::{Wave, plus_four};
use om_lorentz::Four;
use om_machine::Event;
use om_ring::{Ring, Steps};

fn zero_four<R: Ring>(ring: &R) -> Four<R::E>
    ensures { result ≡ zero_four (R.ops ring.now) }
{
    Four {
        t: ring.zero(),
        x: ring.zero(),
        y: ring.zero(),
        z: ring.zero(),
    }
}

fn minus_four<R: Ring<Mark = L>, L>(ring: &R, p: Four<R::E>, steps: &mut Steps<L>) -> Four<R::E>
    ensures value { result ≡ minus_four (R.ops ring.now) p }
    ensures at_most { steps.new ≤ steps.old + 4 * R.cost ring.now }
{
    Four {
        t: ring.neg(p.t, steps),
        x: ring.neg(p.x, steps),
        y: ring.neg(p.y, steps),
        z: ring.neg(p.z, steps),
    }
}

// The momentum of a leg below the last.
fn draw_momentum<R: Ring>(ring: &R, generator: &mut Generator) -> Four<R::E>
    ensures value { result ≡ drawn_momentum (R.ops ring.now) generator.old.state 1 }
    ensures state { generator.new.state ≡ state_after generator.old.state 4 }
{
    Four {
        t: generator.draw_element(ring),
        x: generator.draw_element(ring),
        y: generator.draw_element(ring),
        z: generator.draw_element(ring),
    }
}

fn draw_wave<R: Ring>(ring: &R, generator: &mut Generator) -> Wave<R::E>
    ensures value { result ≡ a_scalar (drawn (R.ops ring.now) generator.old.state 0) }
    ensures state { generator.new.state ≡ state_after generator.old.state 1 }
{
    Wave::Scalar(generator.draw_element(ring))
}

/// Draws the next event, of scalars alone: leg by leg the components of the momentum and the wave function, but for the last leg
/// the wave function alone, since its momentum is minus the sum of the others. Numbers become elements by `number`. It takes no
/// memory, and makes 4 ring calls a leg.
pub fn draw_event<R: Ring<Mark = L>, L>(
    ring: &R,
    generator: &mut Generator,
    legs: u8,
    event: &mut Event<R::E>,
    steps: &mut Steps<L>,
)
    requires some { 1 ≤ legs }
    requires scalars { IsOfScalars legs event.old }
    ensures event { event.new ≡ drawn_event (R.ops ring.now) generator.old.state legs }
    ensures state { generator.new.state ≡ state_after generator.old.state (draws_of_event legs) }
    ensures scalars { IsOfScalars legs event.new }
    ensures made { (c : Code) → IsMadeFor c event.old → IsMadeFor c event.new }
    ensures at_most { steps.new ≤ steps.old + 4 * legs * R.cost ring.now }
{
    let mut sum = zero_four(ring);
    for leg in 1..legs {
        let momentum = draw_momentum(ring, generator);
        sum = plus_four(ring, &sum, &momentum, steps);
        let wave = draw_wave(ring, generator);
        event.set(leg, momentum, wave);
    }
    let last = minus_four(ring, sum, steps);
    let wave = draw_wave(ring, generator);
    event.set(legs, last, wave);
}
