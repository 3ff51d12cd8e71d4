//! What the events of a sample sum up to.
ghost use Rattle.std.specs.Prelude.{◌≡◌, ◌≤◌, ◌<◌, ◌+◌, ◌*◌, ◌^◌, length, Some};
ghost use Rattle.om_ring.specs.Sums.{sum_list};
ghost use Rattle.om_machine.specs.Bound.{part};
ghost use Rattle.om_machine.specs.Events.{IsMadeFor};
ghost use Rattle.om_machine.specs.Machines.{KeepsInverses, table_of};
ghost use Rattle.om_machine.specs.declared.answer.Outcome.TheVariants.{Values};
ghost use Rattle.om_sample.specs.Events.{HasScalarLegs, sample_event};
ghost use Rattle.om_sample.specs.Sums.{AddUpTo, CodeGives};
ghost use Rattle.om_sample.specs.declared.limits.TheConstants.{SAMPLE_EVENTS};

use crate::events::draw_event;
use crate::generator::Generator;
use crate::limits::SAMPLE_EVENTS;
use om_machine::{Event, Machine, Outcome};
use om_ring::{Ring, Steps};

/// How many events of a sample have a pole, and the sum of the values of the others.
#[derive(Clone, Copy, Debug, PartialEq, Eq)]
pub struct Sums<E> {
    pub poles: u32,
    pub total: E,
}

// The sum over the flows of what the last event gave.
fn value_of_event<R: Ring<Mark = L>, L>(
    ring: &R,
    machine: &Machine<R::E>,
    steps: &mut Steps<L>,
) -> R::E
    requires last { machine.now.outcome ≡ Some Values }
    requires few { length machine.now.code.flows < 2 ^ 32 }
    requires sums { length machine.now.sums ≡ length machine.now.code.flows }
    ensures value { result ≡ sum_list (R.ops ring.now) machine.now.sums }
    ensures at_most { steps.new ≤ steps.old + length machine.now.code.flows * R.cost ring.now }
{
    let mut value = ring.zero();
    for flow in 0..machine.code().flows.len() as u32 {
        value = ring.add(value, machine.value(flow), steps);
    }
    value
}

/// What the events that are drawn from a seed sum up to, by the meaning of the code. The numbers of the event at hand are lost.
/// It takes no memory. For each event it makes as many ring calls as the code may, 4 for each leg, 1 for each flow
/// and 1 more.
pub fn sum_sample<R: Ring<Mark = L>, L>(
    ring: &R,
    machine: &mut Machine<R::E>,
    event: &mut Event<R::E>,
    seed: u64,
    steps: &mut Steps<L>,
) -> Sums<R::E>
    requires made { IsMadeFor machine.old.code event.old }
    requires scalars { HasScalarLegs machine.old.code }
    requires few { length machine.old.code.flows < 2 ^ 32 }
    requires kept { KeepsInverses (R.ops ring.now) machine.old.code machine.old.masses }
    ensures sums { let o = R.ops ring.now in let c = machine.old.code in
        AddUpTo o (CodeGives o c (table_of o machine.old)) (sample_event o seed (length c.legs)) SAMPLE_EVENTS result.poles result.total }
    ensures code { machine.new.code ≡ machine.old.code }
    ensures at_most { let c = machine.old.code in
        steps.new ≤ steps.old + SAMPLE_EVENTS * ((part c + 4 * length c.legs + length c.flows + 1) * R.cost ring.now) }
{
    let legs = machine.code().legs.len() as u8;
    let mut generator = Generator { state: seed };
    let mut sums = Sums {
        poles: 0,
        total: ring.zero(),
    };
    for _event in 0..SAMPLE_EVENTS {
        draw_event(ring, &mut generator, legs, event, steps);
        match machine.evaluate(ring, event, steps) {
            Outcome::Values => {
                let value = value_of_event(ring, machine, steps);
                sums.total = ring.add(sums.total, value, steps);
            }
            Outcome::Pole { .. } => sums.poles += 1,
            // It doesn't come: the momenta that are drawn balance.
            Outcome::Unbalanced => {}
        }
    }
    sums
}
