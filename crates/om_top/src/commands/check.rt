//! `check` tells what stands in a model.
ghost use Rattle.std.specs.Prelude.{◌≡◌, ℕ, ◌+◌, ◌*◌, ◌≤◌, []};
ghost use Rattle.om_top.specs.CheckRan.{CheckRan, check_text};
ghost use Rattle.om_top.specs.Cost.{FileMayCall};
ghost use Rattle.om_top.specs.Outside.{file_side, side};

use crate::ending::Ending;
use crate::load::load_model;
use crate::write::write_text;
use om_io::{Folder, Sink};
use om_model::Model;
use om_ring::{Line, Ring, Steps};
use std::alloc::Global;

/// Writes the name of the model of the file, and how many particles and vertices it has.
pub(crate) fn check<R: Ring<Mark = L>, F: Folder, O: Sink, L>(
    alloc: Global,
    ring: &R,
    files: &mut F,
    name: &str,
    out: &mut O,
    steps: &mut Steps<L>,
) -> Ending
    ensures ran { CheckRan (R.ops ring.now) (file_side F.file F.faults name.now files.old files.new) (side O.written O.faults out.old out.new) result }
    ensures calls { (n : ℕ) × FileMayCall (file_side F.file F.faults name.now files.old files.new) n × (steps.new ≤ steps.old + n * R.cost ring.now) }
{
    let model = match load_model(alloc, ring, files, name, steps) {
        Ok(model) => model,
        Err(ending) => return ending,
    };
    let mut line = Line::new();
    push_check(&model, &mut line);
    write_text(out, line.bytes())
}

// Appends the line that `check` writes.
fn push_check(model: &Model, line: &mut Line)
    requires { line.old ≡ [] }
    ensures { line.new ≡ check_text model.now }
{
    line.push(b"model ");
    line.push(model.name.bytes());
    line.push(b" particles ");
    line.push_number(model.particles.len() as u64);
    line.push(b" vertices ");
    line.push_number(model.vertices.len() as u64);
    line.push(b"\n");
}
