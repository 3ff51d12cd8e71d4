//! `compile` and `graph` write what belongs to a process.
ghost use Rattle.std.specs.Prelude.{ℕ, ◌+◌, ◌*◌, ◌<◌, ◌≤◌, length};
ghost use Rattle.om_top.specs.Cost.{FileMayCall};
ghost use Rattle.om_top.specs.Outside.{file_side, side};
ghost use Rattle.om_top.specs.WriteRan.{WriteRan};
ghost use Rattle.om_top.specs.declared.words.TheConstants.{WORD_LIMIT};

use crate::command::Written;
use crate::ending::Ending;
use crate::load::load_named;
use crate::range::InRange;
use om_asm::write_code;
use om_emit::emit;
use om_io::{Failed, Folder, Sink};
use om_listing::write_listing;
use om_ring::{NoMemory, Ring, Steps};
use std::alloc::Global;

/// Writes the program, or the listing of the graph, of the process that the text names in the model of the file.
pub(crate) fn write_named<R: Ring<Mark = L>, F: Folder, O: Sink, L>(
    alloc: Global,
    ring: &R,
    files: &mut F,
    name: &str,
    process: &str,
    written: Written,
    out: &mut O,
    steps: &mut Steps<L>,
) -> Ending
    requires { length process.now < WORD_LIMIT }
    ensures ran { WriteRan written (R.ops ring.now) (file_side F.file F.faults name.now files.old files.new) process.now (side O.written O.faults out.old out.new) result }
    ensures calls { (n : ℕ) × FileMayCall (file_side F.file F.faults name.now files.old files.new) n × (steps.new ≤ steps.old + n * R.cost ring.now) }
{
    let named = match load_named(alloc, ring, files, name, process, steps) {
        Ok(named) => named,
        Err(ending) => return ending,
    };
    match written {
        Written::Program => {
            let program = match emit(alloc, &named.model, &named.process, &named.graph) {
                Ok(program) => program,
                Err(NoMemory) => return Ending::NoMemory,
            };
            let code = program.code();
            code.read_range();
            match write_code(code, out) {
                Ok(()) => Ending::Done,
                Err(Failed) => Ending::OutFault,
            }
        }
        Written::Listing => match write_listing(&named.model, &named.graph, out) {
            Ok(()) => Ending::Done,
            Err(Failed) => Ending::OutFault,
        },
    }
}
