//! The graph of a process.
ghost use Rattle.om_model.specs.ProcessOf.{IsProcessOf};
ghost use Rattle.om_model.specs.WellFormed.{IsWellFormed};
ghost use Rattle.om_top.specs.Loads.{LoadsGraph};

use crate::ending::Ending;
use om_graph::{BuildFault, build};
use om_keystone::{Pruned, prune};
use om_model::{Model, Process};
use om_ring::NoMemory;
use std::alloc::Global;

/// The canonical graph of a process. Where there is none, the answer is how the run ends.
pub(crate) fn load_graph(alloc: Global, model: &Model, process: &Process) -> Result<Pruned, Ending>
    requires accepted { IsWellFormed model.now }
    requires process { IsProcessOf model.now process.now }
    ensures { LoadsGraph model.now process.now result }
{
    let graph = match build(alloc, model, process) {
        Ok(graph) => graph,
        Err(BuildFault::TooLarge) => return Err(Ending::GraphTooLarge),
        Err(BuildFault::Memory) => return Err(Ending::NoMemory),
    };
    match prune(alloc, model, process, graph) {
        Ok(pruned) => Ok(pruned),
        Err(NoMemory) => Err(Ending::NoMemory),
    }
}
