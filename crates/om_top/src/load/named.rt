//! A model, a process and its graph, by their names.
ghost use Rattle.std.specs.Prelude.{ℕ, ◌+◌, ◌*◌, ◌<◌, ◌≤◌, length};
ghost use Rattle.om_top.specs.Cost.{NamedMayCall};
ghost use Rattle.om_top.specs.Loads.{LoadsNamed};
ghost use Rattle.om_top.specs.Outside.{file_side};
ghost use Rattle.om_top.specs.declared.words.TheConstants.{WORD_LIMIT};

use super::graph::load_graph;
use super::model::load_model;
use super::process::load_process;
use crate::ending::Ending;
use om_io::Folder;
use om_keystone::Pruned;
use om_model::{Model, Process};
use om_ring::{Ring, Steps};
use std::alloc::Global;

/// A model, a process of it and the canonical graph of the process.
#[derive(Drop)]
pub(crate) struct Named {
    pub(crate) model: Model,
    pub(crate) process: Process,
    pub(crate) graph: Pruned,
}

/// The model of the file, the process that the text names in it, and its graph. Where there is none, the answer is how the run
/// ends.
pub(crate) fn load_named<R: Ring<Mark = L>, F: Folder, L>(
    alloc: Global,
    ring: &R,
    files: &mut F,
    name: &str,
    text: &str,
    steps: &mut Steps<L>,
) -> Result<Named, Ending>
    requires { length text.now < WORD_LIMIT }
    ensures named { LoadsNamed (R.ops ring.now) (file_side F.file F.faults name.now files.old files.new) text.now result }
    ensures calls { (n : ℕ) × NamedMayCall (file_side F.file F.faults name.now files.old files.new) result n × (steps.new ≤ steps.old + n * R.cost ring.now) }
{
    let model = match load_model(alloc, ring, files, name, steps) {
        Ok(model) => model,
        Err(ending) => return Err(ending),
    };
    let process = match load_process(alloc, &model, text) {
        Ok(process) => process,
        Err(ending) => return Err(ending),
    };
    match load_graph(alloc, &model, &process) {
        Ok(graph) => Ok(Named {
            model,
            process,
            graph,
        }),
        Err(ending) => Err(ending),
    }
}
