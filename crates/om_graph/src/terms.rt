//! Terms, numbered and added in order.
ghost use Rattle.std.specs.Prelude.{◌≡◌, ℕ, ◌≤◌, map, All, OnOk, IfErr};
ghost use Rattle.om_graph.specs.Caches.{StandLast};
ghost use Rattle.om_graph.specs.Loops.{chosen_nodes, fused_found};
ghost use Rattle.om_graph.specs.Possible.{key_lt, state_of};
ghost use Rattle.om_legs.specs.BranchNodes.{nodes_of};
ghost use Rattle.om_graph.specs.Search.{add, add_all};
ghost use Rattle.om_graph.specs.SetWalk.{HasFoundSign, HaveSigns};
ghost use Rattle.om_graph.specs.Vertices.{Reaction as ReactionOf};

use crate::chosen::Chosen;
use crate::fusions::Fused;
use crate::nodes::Nodes;
use crate::{BuildFault, Term};
use om_legs::Branches;
use om_ring::List;

/// Numbers what was found over a set, in order, and adds it.
pub(crate) fn add_terms(
    nodes: &mut Nodes,
    terms: &mut List<Term>,
    found: &[Fused],
) -> Result<(), BuildFault>
    requires over { (set : ℕ) × StandLast nodes.old set × All (λ x. x.key.legs ≡ set) found.now }
    requires counts { All (λ x. 2 ≤ x.branches.count) found.now }
    ensures state { OnOk result (state_of nodes.new terms.new ≡ add_all key_lt (state_of nodes.old terms.old) (map fused_found found.now)) }
    ensures signs { OnOk result ((r : ReactionOf) → HaveSigns r nodes.old terms.old → All (HasFoundSign r nodes.old) found.now → HaveSigns r nodes.new terms.new) }
    ensures fault { IfErr result (λ fault. fault ≡ BuildFault.Memory) }
{
    for one in found {
        if let Err(fault) = add_term(nodes, terms, *one) {
            return Err(fault);
        }
    }
    Ok(())
}

fn add_term(nodes: &mut Nodes, terms: &mut List<Term>, one: Fused) -> Result<(), BuildFault>
    requires some { 2 ≤ one.branches.count }
    requires last { StandLast nodes.old one.key.legs }
    ensures state { OnOk result (state_of nodes.new terms.new ≡ add key_lt (state_of nodes.old terms.old) (fused_found one)) }
    ensures signs { OnOk result ((r : ReactionOf) → HaveSigns r nodes.old terms.old → HasFoundSign r nodes.old one → HaveSigns r nodes.new terms.new) }
    ensures last { OnOk result (StandLast nodes.new one.key.legs) }
    ensures fault { IfErr result (λ fault. fault ≡ BuildFault.Memory) }
{
    let Ok(node) = nodes.add(one.key) else {
        return Err(BuildFault::Memory);
    };
    let term = Term {
        node,
        minus: one.minus,
        vertex: one.vertex,
        choice: one.choice,
        branches: branches_of(one.branches),
    };
    match terms.push(term) {
        Ok(()) => Ok(()),
        Err(_) => Err(BuildFault::Memory),
    }
}

/// The nodes that are chosen, two to four.
pub(crate) fn branches_of(chosen: Chosen) -> Branches
    requires { 2 ≤ chosen.count }
    ensures { nodes_of result ≡ chosen_nodes chosen }
{
    Branches::first_of(
        chosen.count,
        [chosen.first, chosen.second, chosen.third, chosen.fourth],
    )
}
