//! `run` answers events by a program.
ghost use Rattle.std.specs.Prelude.{ℕ, ◌+◌, ◌*◌, ◌≤◌};
ghost use Rattle.om_top.specs.Cost.{RunMayCall};
ghost use Rattle.om_top.specs.Outside.{file_side, side};
ghost use Rattle.om_top.specs.RunRan.{RunRan};

use crate::ending::Ending;
use crate::load::load_program;
use crate::stream::answer_events;
use om_io::{Folder, Sink, Source};
use om_ring::{Ring, Steps};
use std::alloc::Global;

/// Answers the events of the input by the program of the file. All memory is taken before anything is read from the input or written.
pub(crate) fn run_program<R: Ring<Mark = L>, F: Folder, S: Source, O: Sink, L>(
    alloc: Global,
    ring: &R,
    files: &mut F,
    name: &str,
    input: &mut S,
    out: &mut O,
    steps: &mut Steps<L>,
) -> Ending
    ensures ran { RunRan (R.ops ring.now) (R.text ring.now) (file_side F.file F.faults name.now files.old files.new) (side S.left S.faults input.old input.new) (side O.written O.faults out.old out.new) result }
    ensures calls { (n : ℕ) × RunMayCall (R.ops ring.now) (file_side F.file F.faults name.now files.old files.new) (side S.left S.faults input.old input.new) n × (steps.new ≤ steps.old + n * R.cost ring.now) }
{
    match load_program(alloc, ring, files, name, steps) {
        Ok(mut machine) => answer_events(alloc, ring, &mut machine, input, out, steps),
        Err(ending) => ending,
    }
}
