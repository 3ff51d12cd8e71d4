//! `eval` answers events.
ghost use Rattle.std.specs.Prelude.{ℕ, ◌+◌, ◌*◌, ◌<◌, ◌≤◌, length};
ghost use Rattle.om_top.specs.Cost.{EvalMayCall};
ghost use Rattle.om_top.specs.EvalRan.{EvalRan};
ghost use Rattle.om_top.specs.Outside.{file_side, side};
ghost use Rattle.om_top.specs.declared.words.TheConstants.{WORD_LIMIT};

use crate::ending::Ending;
use crate::load::{load_machine, load_named};
use crate::stream::answer_events;
use om_emit::laws::emitted_code_gives_answer;
use om_io::{Folder, Sink, Source};
use om_ring::{Ring, Steps};
use std::alloc::Global;

/// Answers the events of the input for the process that the text names in the model of the file. All memory is taken before anything
/// is read from the input or written.
pub(crate) fn eval<R: Ring<Mark = L>, F: Folder, S: Source, O: Sink, L>(
    alloc: Global,
    ring: &R,
    files: &mut F,
    name: &str,
    process: &str,
    input: &mut S,
    out: &mut O,
    steps: &mut Steps<L>,
) -> Ending
    requires { length process.now < WORD_LIMIT }
    ensures ran { EvalRan (R.ops ring.now) (R.text ring.now) (file_side F.file F.faults name.now files.old files.new) process.now (side S.left S.faults input.old input.new) (side O.written O.faults out.old out.new) result }
    ensures calls { (n : ℕ) × EvalMayCall (R.ops ring.now) (file_side F.file F.faults name.now files.old files.new) process.now (side S.left S.faults input.old input.new) n × (steps.new ≤ steps.old + n * R.cost ring.now) }
{
    let named = match load_named(alloc, ring, files, name, process, steps) {
        Ok(named) => named,
        Err(ending) => return ending,
    };
    // what the machine of the graph answers is the answer by all diagrams
    emitted_code_gives_answer(ring);
    match load_machine(
        alloc,
        ring,
        &named.model,
        &named.process,
        &named.graph,
        steps,
    ) {
        Ok(mut machine) => answer_events(alloc, ring, &mut machine, input, out, steps),
        Err(ending) => ending,
    }
}
