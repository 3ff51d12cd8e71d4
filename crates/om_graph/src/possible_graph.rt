//! The possible graph: the walk over the sets, and what closes.
ghost use Rattle.std.specs.Prelude.{◌≡◌, ◌<◌, IfOk, IfErr, []};
ghost use Rattle.om_graph.specs.Possible.{Builds};
ghost use Rattle.om_graph.specs.Reactions.{reaction_in, reaction_of};
ghost use Rattle.om_graph.specs.SetSearch.{leg_keys};
ghost use Rattle.om_graph.specs.SetWalk.{CanCloseAll, ClosesAll};
ghost use Rattle.om_model.specs.ProcessOf.{IsProcessOf};
ghost use Rattle.om_model.specs.WellFormed.{IsWellFormed};

use crate::closed_rows::ClosedRows;
use crate::key_terms::add_key_terms;
use crate::linked::Linked;
use crate::nodes::Nodes;
use crate::partitions::add_closings;
use crate::reaction::Reaction;
use crate::walk::add_sets;
use crate::{BuildFault, Graph, KeyTerm, MOST_TERMS};
use om_colour::Flow;
use om_cons::Table;
use om_model::{Model, Process};
use om_ring::List;
use std::alloc::Global;

/// The possible graph of a process of an accepted model, or `TooLarge` exactly where it has more than 4,194,304 terms and
/// keystone terms together. It stops at the first one past the limit, and keeps no more of them than the limit.
pub fn build(alloc: Global, model: &Model, process: &Process) -> Result<Graph, BuildFault>
    requires accepted { IsWellFormed model.now }
    requires process { IsProcessOf model.now process.now }
    ensures { Builds (reaction_of model.now process.now) result }
{
    let Ok(reaction) = Reaction::new(alloc, model, process) else {
        return Err(BuildFault::Memory);
    };
    let mut nodes = match leg_nodes(alloc, &reaction) {
        Ok(nodes) => nodes,
        Err(fault) => return Err(fault),
    };
    let mut terms = List::new(alloc);
    if let Err(fault) = add_sets(alloc, &reaction, &mut nodes, &mut terms) {
        return Err(fault);
    }
    let mut keys = List::new(alloc);
    let mut flows = Table::new(alloc);
    let limit = MOST_TERMS - terms.len();
    if let Err(fault) = add_keystones(alloc, &reaction, &nodes, limit, &mut keys, &mut flows) {
        return Err(fault);
    }
    let Ok(nodes) = copied(alloc, nodes.keys()) else {
        return Err(BuildFault::Memory);
    };
    let Ok(flows) = copied(alloc, flows.as_slice()) else {
        return Err(BuildFault::Memory);
    };
    Ok(Graph {
        nodes,
        terms,
        keys,
        flows,
    })
}

// The legs as nodes, leg 1 first.
fn leg_nodes(alloc: Global, reaction: &Reaction<'_>) -> Result<Nodes, BuildFault>
    ensures nodes { IfOk result (λ nodes. nodes ≡ leg_keys (reaction_in reaction.now)) }
    ensures fault { IfErr result (λ fault. fault ≡ BuildFault.Memory) }
{
    let Ok(mut nodes) = Nodes::new(alloc) else {
        return Err(BuildFault::Memory);
    };
    for leg in 1..reaction.size() + 1 {
        if let Err(_) = nodes.add(reaction.leg_key(leg)) {
            return Err(BuildFault::Memory);
        }
    }
    Ok(nodes)
}

// All that closes, in order, with its flows.
fn add_keystones(
    alloc: Global,
    reaction: &Reaction<'_>,
    nodes: &Nodes,
    limit: usize,
    keys: &mut List<KeyTerm>,
    flows: &mut Table<Flow>,
) -> Result<(), BuildFault>
    requires can { CanCloseAll (reaction_in reaction.now) nodes.now }
    requires no_keys { keys.old ≡ [] }
    requires no_flows { flows.old ≡ [] }
    ensures { ClosesAll (reaction_in reaction.now) nodes.now limit keys.new flows.new result }
{
    let Ok(linked) = Linked::new(alloc, nodes) else {
        return Err(BuildFault::Memory);
    };
    add_linked(alloc, reaction, &linked, limit, keys, flows)
}

// The same by nodes with their lines.
fn add_linked(
    alloc: Global,
    reaction: &Reaction<'_>,
    nodes: &Linked<'_>,
    limit: usize,
    keys: &mut List<KeyTerm>,
    flows: &mut Table<Flow>,
) -> Result<(), BuildFault>
    requires can { CanCloseAll (reaction_in reaction.now) nodes.now }
    requires no_keys { keys.old ≡ [] }
    requires no_flows { flows.old ≡ [] }
    ensures { ClosesAll (reaction_in reaction.now) nodes.now limit keys.new flows.new result }
{
    let Ok(mut found) = ClosedRows::new(alloc) else {
        return Err(BuildFault::Memory);
    };
    if let Err(fault) = add_closings(alloc, reaction, nodes, limit, &mut found) {
        return Err(fault);
    }
    match add_key_terms(alloc, flows, keys, found) {
        Ok(()) => Ok(()),
        Err(_) => Err(BuildFault::Memory),
    }
}

fn copied<T: Copy + Drop>(alloc: Global, items: &[T]) -> Result<List<T>, BuildFault>
    ensures items { IfOk result (λ list. list ≡ items.now) }
    ensures fault { IfErr result (λ fault. fault ≡ BuildFault.Memory) }
{
    let mut list = List::new(alloc);
    for item in items {
        if let Err(_) = list.push(*item) {
            return Err(BuildFault::Memory);
        }
    }
    Ok(list)
}
