//! `sample` evaluates events that are drawn.
ghost use Rattle.std.specs.Prelude.{ℕ, ◌+◌, ◌*◌, ◌≤◌, IfOk};
ghost use Rattle.om_legs.specs.declared.leg_set.TheConstants.{MOST_LEGS};
ghost use Rattle.om_model.specs.declared.limits.TheConstants.{FEWEST_LEGS};
ghost use Rattle.om_sample.specs.Model.{sample_model};
ghost use Rattle.om_sample.specs.Sums.{IsSample};
ghost use Rattle.om_top.specs.Cost.{IsSampleCode, SampleMayCall, rows_calls};
ghost use Rattle.om_top.specs.Loads.{IsLoaded};
ghost use Rattle.om_top.specs.Outside.{side};
ghost use Rattle.om_top.specs.SampleRan.{SampleRan};

use crate::ending::Ending;
use crate::load::{load_graph, load_machine};
use om_io::{Failed, Sink};
use om_machine::{Event, Machine};
use om_ring::{NoMemory, Ring, Steps};
use om_sample::{Sums, sample_model, sample_process, sum_sample, write_sample};
use std::alloc::Global;

/// Evaluates the sample of a seed with so many legs, and writes its line.
pub(crate) fn sample<R: Ring<Mark = L>, O: Sink, L>(
    alloc: Global,
    ring: &R,
    seed: u64,
    legs: u8,
    out: &mut O,
    steps: &mut Steps<L>,
) -> Ending
    requires fewest { FEWEST_LEGS ≤ legs }
    requires most { legs ≤ MOST_LEGS }
    ensures ran { SampleRan (R.ops ring.now) (R.text ring.now) seed legs (side O.written O.faults out.old out.new) result }
    ensures calls { (n : ℕ) × SampleMayCall legs n × (steps.new ≤ steps.old + n * R.cost ring.now) }
{
    let sums = match sums_of_sample(alloc, ring, seed, legs, steps) {
        Ok(sums) => sums,
        Err(NoMemory) => return Ending::NoMemory,
    };
    match write_sample(ring, legs, &sums, out) {
        Ok(()) => Ending::Done,
        Err(Failed) => Ending::OutFault,
    }
}

// What the events of a sample sum up to.
fn sums_of_sample<R: Ring<Mark = L>, L>(
    alloc: Global,
    ring: &R,
    seed: u64,
    legs: u8,
    steps: &mut Steps<L>,
) -> Result<Sums<R::E>, NoMemory>
    requires fewest { FEWEST_LEGS ≤ legs }
    requires most { legs ≤ MOST_LEGS }
    ensures sums { IfOk result (λ s. IsSample (R.ops ring.now) seed legs s.poles s.total) }
    ensures calls { (n : ℕ) × SampleMayCall legs n × (steps.new ≤ steps.old + n * R.cost ring.now) }
{
    let mut machine = match load_sample(alloc, ring, legs, steps) {
        Ok(machine) => machine,
        Err(NoMemory) => return Err(NoMemory),
    };
    let mut event = match Event::new(alloc, ring, machine.code()) {
        Ok(event) => event,
        Err(NoMemory) => return Err(NoMemory),
    };
    Ok(sum_sample(ring, &mut machine, &mut event, seed, steps))
}

// The machine of the code of a sample's process.
fn load_sample<R: Ring<Mark = L>, L>(
    alloc: Global,
    ring: &R,
    legs: u8,
    steps: &mut Steps<L>,
) -> Result<Machine<R::E>, NoMemory>
    requires fewest { FEWEST_LEGS ≤ legs }
    requires most { legs ≤ MOST_LEGS }
    ensures loaded { IfOk result (IsLoaded (R.ops ring.now)) }
    ensures code { IfOk result (λ m. IsSampleCode legs m.code) }
    ensures calls { steps.new ≤ steps.old + rows_calls sample_model * R.cost ring.now }
{
    let model = sample_model(alloc)?;
    let process = sample_process(alloc, legs)?;
    let Ok(graph) = load_graph(alloc, &model, &process) else {
        return Err(NoMemory);
    };
    match load_machine(alloc, ring, &model, &process, &graph, steps) {
        Ok(machine) => Ok(machine),
        Err(_) => Err(NoMemory),
    }
}
