//! The machine of a graph.
ghost use Rattle.std.specs.Prelude.{◌≡◌, ◌+◌, ◌*◌, ◌≤◌, IfOk, IfErr};
ghost use Rattle.om_model.specs.ProcessOf.{IsProcessOf};
ghost use Rattle.om_model.specs.Rules.{IsAccepted};
ghost use Rattle.om_graph.specs.Reactions.{reaction_of};
ghost use Rattle.om_keystone.specs.CanonicalGraph.{IsCanonicalOf};
ghost use Rattle.om_emit.specs.GraphCode.{IsCodeOf};
ghost use Rattle.om_top.specs.Cost.{rows_calls};
ghost use Rattle.om_top.specs.Loads.{IsLoaded};
ghost use Rattle.om_top.specs.declared.ending.Ending.TheVariants.{NoMemory as NoMoreMemory};

use crate::ending::Ending;
use om_emit::emit;
use om_keystone::Pruned;
use om_machine::{LoadFault, Machine, load};
use om_model::{Model, Process};
use om_ring::{Ring, Steps};
use std::alloc::Global;

/// The machine of the code of a canonical graph, with all memory that events need. Where memory runs out, the answer is how the run
/// ends.
pub(crate) fn load_machine<R: Ring<Mark = L>, L>(
    alloc: Global,
    ring: &R,
    model: &Model,
    process: &Process,
    graph: &Pruned,
    steps: &mut Steps<L>,
) -> Result<Machine<R::E>, Ending>
    requires accepted { IsAccepted (R.ops ring.now) model.now }
    requires process { IsProcessOf model.now process.now }
    requires canonical { IsCanonicalOf (reaction_of model.now process.now) graph.now }
    ensures loaded { IfOk result (IsLoaded (R.ops ring.now)) }
    ensures code { IfOk result (λ m. IsCodeOf model.now process.now graph.now m.code) }
    ensures fault { IfErr result (λ e. e ≡ NoMoreMemory) }
    ensures calls { steps.new ≤ steps.old + rows_calls model.now * R.cost ring.now }
{
    let Ok(code) = emit(alloc, model, process, graph) else {
        return Err(Ending::NoMemory);
    };
    match load(alloc, ring, code, steps) {
        Ok(machine) => Ok(machine),
        Err(LoadFault::Memory) => Err(Ending::NoMemory),
        // An accepted model has all inverses.
        Err(LoadFault::NoInverse { .. }) => unreachable!(),
    }
}
