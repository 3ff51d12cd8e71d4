//! The answers to the events of an input.
ghost use Rattle.std.specs.Prelude.{◌≡◌, ◌*◌, ◌+◌, ◌≤◌, ℕ};
ghost use Rattle.om_machine.specs.Events.{IsMadeFor};
ghost use Rattle.om_top.specs.Cost.{EventsMayCall};
ghost use Rattle.om_top.specs.Loads.{IsLoaded};
ghost use Rattle.om_top.specs.Outside.{side};
ghost use Rattle.om_top.specs.RunRan.{OwesMeaning, RunsOrNot};
ghost use Rattle.om_top.specs.Streamed.{Streamed, ending_of, kinds_of};

use crate::answer_text::write_answer;
use crate::ending::Ending;
use crate::faults::EventFault;
use crate::write::write_text;
use om_event::{MOST_EVENTS, Next, Reader};
use om_io::{Failed, Sink, Source};
use om_machine::{Event, Machine};
use om_ring::{Ring, Steps};
use std::alloc::Global;

/// Answers each event of the input by the machine, or says that there is no amplitude where its code has no flow. All memory is taken
/// before anything is read or written.
pub(crate) fn answer_events<R: Ring<Mark = L>, S: Source, O: Sink, L>(
    alloc: Global,
    ring: &R,
    machine: &mut Machine<R::E>,
    input: &mut S,
    out: &mut O,
    steps: &mut Steps<L>,
) -> Ending
    requires { IsLoaded (R.ops ring.now) machine.old }
    ensures ran { RunsOrNot (R.ops ring.now) (R.text ring.now) machine.old.code (side S.left S.faults input.old input.new) (side O.written O.faults out.old out.new) result }
    ensures calls { (n : ℕ) × EventsMayCall (R.ops ring.now) machine.old.code (side S.left S.faults input.old input.new) n × (steps.new ≤ steps.old + n * R.cost ring.now) }
{
    if machine.code().flows.is_empty() {
        return write_text(out, b"no amplitude\n");
    }
    let Ok(mut event) = Event::new(alloc, ring, machine.code()) else {
        return Ending::NoMemory;
    };
    stream(ring, machine, &mut event, input, out, steps)
}

// Answers one event after the other, up to the end of the input, the first bad line or the first fault.
fn stream<R: Ring<Mark = L>, S: Source, O: Sink, L>(
    ring: &R,
    machine: &mut Machine<R::E>,
    event: &mut Event<R::E>,
    input: &mut S,
    out: &mut O,
    steps: &mut Steps<L>,
) -> Ending
    requires loaded { IsLoaded (R.ops ring.now) machine.old }
    requires made { IsMadeFor machine.old.code event.old }
    ensures streamed { let c = machine.old.code in
        Streamed (OwesMeaning (R.ops ring.now) (R.text ring.now) c) (R.ops ring.now) (kinds_of c.model.particles c.legs) (side S.left S.faults input.old input.new) (side O.written O.faults out.old out.new) result }
    ensures calls { (n : ℕ) × EventsMayCall (R.ops ring.now) machine.old.code (side S.left S.faults input.old input.new) n × (steps.new ≤ steps.old + n * R.cost ring.now) }
{
    let mut reader = Reader::new(machine.code());
    for number in 0..MOST_EVENTS {
        let next = reader.next(ring, input, event, steps);
        if let Some(ending) = ending_of(next) {
            return ending;
        }
        let outcome = machine.evaluate(ring, event, steps);
        if let Err(Failed) = write_answer(ring, machine, number + 1, outcome, out) {
            return Ending::OutFault;
        }
    }
    match ending_of(reader.next(ring, input, event, steps)) {
        Some(ending) => ending,
        // After the last event that is read none comes.
        None => unreachable!(),
    }
}

// How the run ends, unless an event came.
fn ending_of(next: Next) -> Option<Ending>
    ensures { result ≡ ending_of next }
{
    match next {
        Next::Event => None,
        Next::End => Some(Ending::Done),
        Next::Bad { event, line, cause } => {
            Some(Ending::EventFault(EventFault::Bad { event, line, cause }))
        }
        Next::TooMany => Some(Ending::EventFault(EventFault::TooMany)),
        Next::Failed => Some(Ending::InputFault),
    }
}
