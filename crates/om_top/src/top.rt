//! The top call.
ghost use Rattle.std.specs.Prelude.{◌≡◌, ℕ, ◌+◌, ◌*◌, ◌≤◌, map, string_bytes};
ghost use Rattle.om_top.specs.declared.ending.Ending.{Ending as EndingOf};
ghost use Rattle.om_top.specs.Command.{command_of as asked_of};
ghost use Rattle.om_top.specs.Cost.{MayCall};
ghost use Rattle.om_top.specs.Limits.{IsWithinLimits};
ghost use Rattle.om_top.specs.Message.{Told, status_of};
ghost use Rattle.om_top.specs.Outside.{outside, side};
ghost use Rattle.om_top.specs.Ran.{Ran};

use crate::command::{Command, command_of};
use crate::commands::{check, eval, run_program, sample, write_named};
use crate::ending::{Ending, status};
use crate::message::report;
use om_io::{Folder, Sink, Source};
use om_ring::{Ring, Steps};
use std::alloc::Global;

/// Does what the words after the program's name ask for, says on `err` how it ended, and answers the exit status.
///
/// `check MODEL` reads the file MODEL and writes the name of the model and how many particles and vertices it has to `out`.
/// `eval MODEL PROCESS` reads the file MODEL, then the events of the input, and writes their answers to `out`. `run PROGRAM` does the
/// same by the program of the file PROGRAM. `compile MODEL PROCESS` writes that program, `graph MODEL PROCESS` the graph that it
/// is made of, and `sample SEED LEGS` what the events of a sample add up to. All memory is taken before the first byte of the
/// input is asked for. Each sum, product and inverse in `ring` is counted on `steps`.
///
/// The first clause names an ending. It has the status and the line on `err`, which is missing only where `err` failed; what
/// stands outside then is what `Ran` says of it. So a status comes exactly where no other ending fits, but for want of
/// memory, which may come at any time before anything is read from the input or written to `out`, and for failures, which
/// come only where the object's own count of faults rose. The second clause bounds the calls of the ring by the file of the
/// model or program and, for `eval` and `run`, by the code and the number of events of which a byte was read.
pub fn run<R: Ring<Mark = L>, F: Folder, S: Source, O: Sink, E: Sink, L>(
    alloc: Global,
    ring: &R,
    words: &[String],
    files: &mut F,
    input: &mut S,
    out: &mut O,
    err: &mut E,
    steps: &mut Steps<L>,
) -> u8
    requires { IsWithinLimits (map (λ w. string_bytes w) words.now) }
    ensures ran { let x = outside F.file F.faults files.old files.new (side S.left S.faults input.old input.new) (side O.written O.faults out.old out.new) in
        (ending : EndingOf) × (result ≡ status_of ending)
        × Ran (R.ops ring.now) (R.text ring.now) (asked_of (map (λ w. string_bytes w) words.now)) x ending
        × Told (side E.written E.faults err.old err.new) ending }
    ensures calls { let x = outside F.file F.faults files.old files.new (side S.left S.faults input.old input.new) (side O.written O.faults out.old out.new) in
        (n : ℕ) × MayCall (R.ops ring.now) (asked_of (map (λ w. string_bytes w) words.now)) x n × (steps.new ≤ steps.old + n * R.cost ring.now) }
{
    let ending = perform(alloc, ring, words, files, input, out, steps);
    report(err, ending);
    status(ending)
}

// Does what the words ask for.
fn perform<R: Ring<Mark = L>, F: Folder, S: Source, O: Sink, L>(
    alloc: Global,
    ring: &R,
    words: &[String],
    files: &mut F,
    input: &mut S,
    out: &mut O,
    steps: &mut Steps<L>,
) -> Ending
    requires { IsWithinLimits (map (λ w. string_bytes w) words.now) }
    ensures ran { let x = outside F.file F.faults files.old files.new (side S.left S.faults input.old input.new) (side O.written O.faults out.old out.new) in
        Ran (R.ops ring.now) (R.text ring.now) (asked_of (map (λ w. string_bytes w) words.now)) x result }
    ensures calls { let x = outside F.file F.faults files.old files.new (side S.left S.faults input.old input.new) (side O.written O.faults out.old out.new) in
        (n : ℕ) × MayCall (R.ops ring.now) (asked_of (map (λ w. string_bytes w) words.now)) x n × (steps.new ≤ steps.old + n * R.cost ring.now) }
{
    match command_of(words) {
        Command::Check(name) => check(alloc, ring, files, name, out, steps),
        Command::Eval(name, process) => eval(alloc, ring, files, name, process, input, out, steps),
        Command::Write(written, name, process) => write_named(
            alloc, ring, files, name, process, written, out, steps,
        ),
        Command::Run(name) => run_program(alloc, ring, files, name, input, out, steps),
        Command::Sample(seed, legs) => sample(alloc, ring, seed, legs, out, steps),
        Command::Unknown => Ending::Usage,
    }
}
