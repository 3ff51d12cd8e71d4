//! The code of a canonical graph.
ghost use Rattle.std.specs.Prelude.{◌≡◌, ◌<◌, ◌≤◌, length, map, IfOk};
ghost use Rattle.std.specs.List.{AllByRecursion};
ghost use Rattle.om_model.specs.ProcessOf.{IsProcessOf};
ghost use Rattle.om_model.specs.WellFormed.{IsWellFormed};
ghost use Rattle.om_graph.specs.Reactions.{reaction_of};
ghost use Rattle.om_keystone.specs.Built.{IsBuilt};
ghost use Rattle.om_keystone.specs.CanonicalGraph.{IsCanonicalOf};
ghost use Rattle.om_emit.specs.Counts.{CountsNodes};
ghost use Rattle.om_emit.specs.GraphCode.{IsCodeOf};
ghost use Rattle.om_emit.specs.Laws.{HasFewestSlots};

use crate::dens::{edges_above, listed};
use crate::placed::{place_all, push_keys};
use crate::registers::node_code;
use crate::slot_plan::plan_with_keys;
use om_code::{Code, Verified};
use om_graph::Graph;
use om_keystone::Pruned;
use om_model::{Model, Process};
use om_ring::{List, NoMemory};
use std::alloc::Global;

/// How many nodes and how many flows a graph may have, so that each has a number in a program.
pub const MOST_NUMBERED: usize = 2_147_483_647;

/// The code of the canonical graph of a process, in version 2: the loads of its legs, the terms of each inner node in order with its
/// propagator behind them, and its keystone terms in order, with the slots of the first-fit plan in place of its registers, which are
/// the numbers of its nodes.
///
/// It has as many slots as the width of its instruction list, and no slot plan of that list has fewer. It keeps all rules of programs,
/// so nothing is verified again. Takes time n log n in the graph. `NoMemory` is also the answer where
/// the graph has more nodes or flows than [`MOST_NUMBERED`], far beyond what `build` lets through.
pub fn emit(
    alloc: Global,
    model: &Model,
    process: &Process,
    pruned: &Pruned,
) -> Result<Verified, NoMemory>
    requires accepted { IsWellFormed model.now }
    requires process { IsProcessOf model.now process.now }
    requires canonical { IsCanonicalOf (reaction_of model.now process.now) pruned.now }
    ensures code { IfOk result (IsCodeOf model.now process.now pruned.now) }
    ensures slots { IfOk result (HasFewestSlots model.now process.now pruned.now) }
    ensures few { IfOk result (λ code. length code.flows ≤ MOST_NUMBERED) }
{
    let graph = pruned.graph();
    if graph.nodes.len() > MOST_NUMBERED || graph.flows.len() > MOST_NUMBERED {
        return Err(NoMemory);
    }
    let code = code_of(alloc, model, process, graph)?;
    Ok(Verified::of(code))
}

// The code of a graph whose nodes are made of earlier ones.
fn code_of(alloc: Global, model: &Model, process: &Process, graph: &Graph) -> Result<Code, NoMemory>
    requires some { 0 < length process.now.legs }
    requires within { length process.now.legs ≤ 12 }
    requires few_nodes { length graph.now.nodes ≤ MOST_NUMBERED }
    requires built { IsBuilt graph.now }
    ensures code { IfOk result (IsCodeOf model.now process.now graph.now) }
    ensures counted { IfOk result (λ code. AllByRecursion CountsNodes code.instrs) }
{
    let particles = model.particles.as_slice();
    let n = process.legs.len() as u8;
    let nodes = graph.nodes.as_slice();
    let edges = edges_above(alloc, particles, n, nodes)?;
    let dens = listed(alloc, &edges)?;
    let in_order = dens.as_slice();
    let mut instrs = node_code(alloc, particles, n, in_order, graph)?;
    let named = instrs.as_slice();
    let keys = graph.keys.as_slice();
    let plan = plan_with_keys(alloc, named, keys, nodes.len() as u32)?;
    place_all(&mut instrs, &plan);
    push_keys(&mut instrs, keys, &plan)?;
    let slots = plan.count();
    Ok(Code {
        version: 2,
        model: model.copy(alloc)?,
        legs: fields_of(alloc, process)?,
        flows: graph.flows.copy(alloc)?,
        dens,
        slots,
        instrs,
    })
}

// The field of each leg.
fn fields_of(alloc: Global, process: &Process) -> Result<List<u16>, NoMemory>
    ensures { IfOk result (λ fields. fields ≡ map (λ leg. leg.field) process.now.legs) }
{
    let mut fields = List::new(alloc);
    for leg in process.legs.as_slice() {
        fields.push(leg.field)?;
    }
    Ok(fields)
}
