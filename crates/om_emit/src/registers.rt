//! The instructions of the nodes of a graph, where a register is the number of its node.
ghost use Rattle.std.specs.Prelude.{◌≡◌, ◌++◌, ◌^◌, ◌<◌, ◌≤◌, map, drop, length, IfOk, OnOk, All};
ghost use Rattle.std.specs.List.Sorted.{IsStrictlySortedBy};
ghost use Rattle.om_model.specs.Model.{anti_field as anti_field_of};
ghost use Rattle.om_code.specs.Ops.{op_of};
ghost use Rattle.om_code.specs.DenOrder.{den_order};
ghost use Rattle.om_emit.specs.GraphCode.{den_of as den_of_node, place_of, fuse_op};
ghost use Rattle.om_emit.specs.GraphWalk.{front, behind, step_ops, step_rest, walk_ops, HasDen};

use crate::dens::{den_of, is_inner, place};
use om_code::{Den, Instr};
use om_graph::{Graph, Key, Term};
use om_model::Particle;
use om_ring::{List, NoMemory};
use std::alloc::Global;

/// The loads of the legs, and the terms of each inner node with its propagator behind them.
pub(crate) fn node_code(
    alloc: Global,
    particles: &[Particle],
    n: u8,
    dens: &[Den],
    graph: &Graph,
) -> Result<List<Instr>, NoMemory>
    requires some { 0 < n }
    requires within { n ≤ 12 }
    requires few_nodes { length graph.now.nodes < 2 ^ 31 }
    requires few_dens { length dens.now < 2 ^ 31 }
    requires ordered { IsStrictlySortedBy den_order dens.now }
    requires there { All (HasDen (anti_field_of particles.now) n dens.now) graph.now.nodes }
    ensures { IfOk result (λ instrs. map op_of instrs
        ≡ walk_ops (λ node. place_of dens.now (den_of_node (anti_field_of particles.now) n node)) 0 graph.now.nodes graph.now.terms) }
{
    let mut instrs = List::with_room(alloc, most_instrs(graph))?;
    let terms = graph.terms.as_slice();
    let mut next = 0;
    for (k, node) in graph.nodes.as_slice().iter().enumerate() {
        let left = terms_from(terms, next);
        let count = push_node(&mut instrs, particles, n, dens, k as u32, node, left)?;
        next += count;
    }
    Ok(instrs)
}

// How many instructions the code of a graph has: one a node, its load or its propagator, one a term and one a keystone term.
fn most_instrs(graph: &Graph) -> usize {
    let made = graph.nodes.len().saturating_add(graph.terms.len());
    made.saturating_add(graph.keys.len())
}

// The terms from a place on.
fn terms_from(terms: &[Term], place: usize) -> &[Term]
    requires { place ≤ length terms.now }
    ensures { result.now ≡ drop place terms.now }
{
    &terms[place..]
}

// Appends the instructions of a node whose terms stand at the front, and answers how many terms they are.
#[tactic(auto, unfolding(crate::specs::GraphWalk::step_ops, crate::specs::GraphWalk::step_rest))]
fn push_node(
    instrs: &mut List<Instr>,
    particles: &[Particle],
    n: u8,
    dens: &[Den],
    number: u32,
    node: &Key,
    terms: &[Term],
) -> Result<usize, NoMemory>
    requires some { 0 < n }
    requires within { n ≤ 12 }
    requires few_dens { length dens.now < 2 ^ 31 }
    requires ordered { IsStrictlySortedBy den_order dens.now }
    requires there { HasDen (anti_field_of particles.now) n dens.now node.now }
    ensures ops { OnOk result (map op_of instrs.new
        ≡ map op_of instrs.old ++ step_ops (λ node. place_of dens.now (den_of_node (anti_field_of particles.now) n node)) number node.now terms.now) }
    ensures rest { IfOk result (λ count. drop count terms.now ≡ step_rest number node.now terms.now) }
    ensures within { IfOk result (λ count. count ≤ length terms.now) }
{
    if !is_inner(node) {
        instrs.push(Instr::Load {
            to: number,
            leg: node.legs.least(),
        })?;
        return Ok(0);
    }
    let count = push_terms(instrs, terms, number)?;
    let den = place(dens, den_of(particles, n, node)) as u32;
    instrs.push(Instr::Prop { of: number, den })?;
    Ok(count)
}

// Appends the terms of a node that stand at the front, and answers how many they are.
fn push_terms(instrs: &mut List<Instr>, terms: &[Term], number: u32) -> Result<usize, NoMemory>
    ensures ops { OnOk result (map op_of instrs.new ≡ map op_of instrs.old ++ map fuse_op (front number terms.now)) }
    ensures rest { IfOk result (λ count. drop count terms.now ≡ behind number terms.now) }
    ensures within { IfOk result (λ count. count ≤ length terms.now) }
{
    for (count, term) in terms.iter().enumerate() {
        if term.node != number {
            return Ok(count);
        }
        instrs.push(Instr::Fuse {
            to: number,
            minus: term.minus,
            vertex: term.vertex,
            choice: term.choice,
            branches: term.branches,
        })?;
    }
    Ok(terms.len())
}
