//! Whether keystone terms stand in order, each once.
ghost use Rattle.std.specs.Prelude.{◌≡◌, map, IsTrue, true};
ghost use Rattle.om_graph.specs.Graph.{numbered_lt};
ghost use Rattle.om_graph.specs.Possible.{unsigned_key};
ghost use Rattle.om_legs.specs.BranchNodes.{nodes_of};
ghost use Rattle.om_model.specs.Order.{Rising, numbers_lt};

use crate::KeyTerm;
use om_legs::Branches;
use std::cmp::Ordering;

/// Whether each is before the next by flow, vertex, choice and nodes. Two that have as many nodes as each other are told apart by
/// these; of others that agree so far it answers no.
pub(crate) fn are_rising(keys: &[KeyTerm]) -> bool
    ensures { IsTrue result → Rising numbered_lt (map unsigned_key keys.now) }
{
    for k in 1..keys.len() {
        if !is_before(&keys[k - 1], &keys[k]) {
            return false;
        }
    }
    true
}

fn is_before(a: &KeyTerm, b: &KeyTerm) -> bool
    ensures { IsTrue result → numbered_lt (unsigned_key a.now) (unsigned_key b.now) ≡ true }
{
    if a.flow != b.flow {
        return a.flow < b.flow;
    }
    if a.vertex != b.vertex {
        return a.vertex < b.vertex;
    }
    if a.choice != b.choice {
        return a.choice < b.choice;
    }
    are_nodes_before(&a.branches, &b.branches)
}

fn are_nodes_before(a: &Branches, b: &Branches) -> bool
    ensures { IsTrue result → numbers_lt (nodes_of a.now) (nodes_of b.now) ≡ true }
{
    let count = a.count as usize;
    b.count as usize == count && are_before(&a.nodes[..count], &b.nodes[..count])
}

fn are_before(a: &[u32], b: &[u32]) -> bool
    ensures { result ≡ numbers_lt a.now b.now }
{
    matches!(a.cmp(b), Ordering::Less)
}
