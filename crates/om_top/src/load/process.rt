//! The process of a text.
ghost use Rattle.std.specs.Prelude.{◌<◌, ◌≤◌, ◌^◌, length, IfOk};
ghost use Rattle.om_model.specs.ProcessOf.{IsProcessOf};
ghost use Rattle.om_top.specs.declared.words.TheConstants.{WORD_LIMIT};
ghost use Rattle.om_top.specs.Loads.{LoadsProcess};

use crate::ending::Ending;
use om_model::{Model, Process, ProcessFault, read_process};
use std::alloc::Global;

/// The process of the model that a text is. Where there is none, the answer is how the run ends.
pub(crate) fn load_process(alloc: Global, model: &Model, text: &str) -> Result<Process, Ending>
    requires rows { length model.now.particles ≤ 2 ^ 15 }
    requires bytes { length text.now < WORD_LIMIT }
    ensures process { LoadsProcess model.now text.now result }
    ensures fits { IfOk result (λ p. IsProcessOf model.now p) }
{
    match read_process(alloc, model, text.as_bytes()) {
        Ok(process) => Ok(process),
        Err(ProcessFault::Memory) => Err(Ending::NoMemory),
        Err(fault) => Err(Ending::ProcessFault(fault)),
    }
}
