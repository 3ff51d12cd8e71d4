//! The model of a file.
ghost use Rattle.std.specs.Prelude.{ℕ, ◌+◌, ◌*◌, ◌≤◌};
ghost use Rattle.om_top.specs.Cost.{LoadMayCall, file_calls};
ghost use Rattle.om_top.specs.Loads.{LoadsModel, ReadsModel};
ghost use Rattle.om_top.specs.Outside.{file_side};

use crate::ending::Ending;
use om_io::{FileFault, Folder, read_file};
use om_model::Model;
use om_modelfile::{ModelFault, read_model};
use om_ring::{Ring, Steps};
use std::alloc::Global;

/// The most bytes of the file of a model.
pub const MOST_MODEL_BYTES: u64 = 1_048_576;

/// The model of the file of this name. Where there is none, the answer is how the run ends.
pub(crate) fn load_model<R: Ring<Mark = L>, F: Folder, L>(
    alloc: Global,
    ring: &R,
    files: &mut F,
    name: &str,
    steps: &mut Steps<L>,
) -> Result<Model, Ending>
    ensures model { LoadsModel (R.ops ring.now) (file_side F.file F.faults name.now files.old files.new) result }
    ensures calls { let file = file_side F.file F.faults name.now files.old files.new in
        (n : ℕ) × LoadMayCall file result n × (steps.new ≤ steps.old + n * R.cost ring.now) }
{
    match read_file(alloc, files, name, MOST_MODEL_BYTES) {
        Ok(bytes) => model_of(alloc, ring, &bytes, steps),
        Err(FileFault::TooLong) => Err(Ending::ModelTooLong),
        Err(FileFault::Failed) => Err(Ending::FileFault),
        Err(FileFault::Memory) => Err(Ending::NoMemory),
    }
}

// The model of which these bytes are the file. Where there is none, the answer is how the run ends.
fn model_of<R: Ring<Mark = L>, L>(
    alloc: Global,
    ring: &R,
    bytes: &[u8],
    steps: &mut Steps<L>,
) -> Result<Model, Ending>
    ensures model { ReadsModel (R.ops ring.now) bytes.now result }
    ensures calls { steps.new ≤ steps.old + file_calls bytes.now * R.cost ring.now }
{
    match read_model(alloc, ring, bytes, steps) {
        Ok(model) => Ok(model),
        Err(ModelFault::Memory) => Err(Ending::NoMemory),
        Err(fault) => Err(Ending::ModelFault(fault)),
    }
}
