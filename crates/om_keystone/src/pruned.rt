//! The canonical graph out of the possible one.
ghost use Rattle.std.specs.Prelude.{◌≡◌, IfOk, length, map};
ghost use Rattle.om_graph.specs.Graph.{numbered_lt};
ghost use Rattle.om_graph.specs.Possible.{IsPossible, unsigned, unsigned_key};
ghost use Rattle.om_legs.specs.BranchNodes.{nodes_of};
ghost use Rattle.om_graph.specs.Reactions.{reaction_of};
ghost use Rattle.om_model.specs.Order.{Rising};
ghost use Rattle.om_model.specs.WellFormed.{IsWellFormed};
ghost use Rattle.om_model.specs.ProcessOf.{IsProcessOf};
ghost use Rattle.om_keystone.specs.CanonicalGraph.{IsCanonicalOf};
ghost use Rattle.om_keystone.specs.Pruning.{AreLow, IsMarkedPart, IsReachedPart, NamesItsNodes, kept_signs, kept_terms, marked_of, new_number, numbers_from, renumbered_key};

use crate::marking::{has_all_marks, has_mark, marks_of};
use om_graph::{Graph, Key, KeyTerm, Term};
use om_legs::Branches;
use om_model::Process;
use om_ring::{List, NoMemory};
use std::alloc::Global;
use std::marker::Model;

/// A graph that was pruned. Contracts see it as the graph, whose terms stand in order.
#[derive(Drop)]
pub struct Pruned {
    graph: Graph,
}

impl Model for Pruned {
    ghost use Rattle.std.specs.Prelude.{map};
    ghost use Rattle.om_model.specs.Order.{Rising};
    ghost use Rattle.om_graph.specs.Graph.{numbered_lt};
    ghost use Rattle.om_graph.specs.Possible.{unsigned};
    ghost use Rattle.om_graph.specs.declared.Graph.{Graph};

    ghost Value = { Graph };

    ghost view = { λ pruned. pruned.graph };

    ghost invariant = { λ pruned. Rising numbered_lt (map unsigned pruned.graph.terms) };
}

impl Pruned {
    /// The graph.
    pub fn graph(&self) -> &Graph
        ensures graph { result.now ≡ self.now }
        ensures order { Rising numbered_lt (map unsigned self.now.terms) }
    {
        &self.graph
    }
}

/// Makes the canonical graph of a process out of its possible graph: keeps the nodes that keystone terms reach by terms, with their
/// terms and new numbers.
///
/// Takes time linear in the graph, and beside the lists that it answers a mark and a number for each node. On `NoMemory` the graph is
/// dropped.
pub fn prune(
    alloc: Global,
    model: &om_model::Model,
    process: &Process,
    graph: Graph,
) -> Result<Pruned, NoMemory>
    requires accepted { IsWellFormed model.now }
    requires process { IsProcessOf model.now process.now }
    requires possible { IsPossible (reaction_of model.now process.now) graph }
    ensures canonical { IfOk result (λ pruned. IsCanonicalOf (reaction_of model.now process.now) pruned) }
{
    // they say what the graph is the graph of
    let _model = model;
    let _process = process;
    let graph = reached_part(alloc, graph)?;
    Ok(Pruned { graph })
}

// The part of a graph that its keystone terms reach: the graph itself where they reach all of it.
fn reached_part(alloc: Global, graph: Graph) -> Result<Graph, NoMemory>
    requires within { NamesItsNodes graph }
    ensures part { IfOk result (λ part. IsReachedPart graph part) }
{
    let marks = marks_of(
        alloc,
        graph.nodes.len(),
        graph.terms.as_slice(),
        graph.keys.as_slice(),
    )?;
    if has_all_marks(marks.as_slice()) {
        return Ok(graph);
    }
    let part = marked_part(alloc, marks.as_slice(), graph)?;
    Ok(part)
}

// The graph of the nodes with marks.
fn marked_part(alloc: Global, marks: &[bool], graph: Graph) -> Result<Graph, NoMemory>
    requires same_length { length marks.now ≡ length graph.nodes }
    ensures part { IfOk result (λ part. IsMarkedPart marks.now graph part) }
{
    let Graph {
        nodes,
        terms,
        keys,
        flows,
    } = graph;
    let numbers = numbers_of(alloc, marks)?;
    Ok(Graph {
        nodes: marked_nodes(alloc, marks, nodes.as_slice())?,
        terms: marked_terms(alloc, marks, numbers.as_slice(), terms.as_slice())?,
        keys: renumbered_keys(alloc, numbers.as_slice(), keys.as_slice())?,
        flows,
    })
}

// The new number of each node: how many nodes before it are kept.
fn numbers_of(alloc: Global, marks: &[bool]) -> Result<Vec<usize>, NoMemory>
    ensures numbers { IfOk result (λ numbers. numbers.items ≡ numbers_from 0 marks.now) }
{
    let mut numbers = Vec::new(alloc);
    let mut count: usize = 0;
    for mark in marks {
        if numbers.push(count).is_err() {
            return Err(NoMemory);
        }
        if *mark {
            count += 1;
        }
    }
    Ok(numbers)
}

fn marked_nodes(alloc: Global, marks: &[bool], nodes: &[Key]) -> Result<List<Key>, NoMemory>
    requires same_length { length marks.now ≡ length nodes.now }
    ensures nodes { IfOk result (λ kept. kept ≡ marked_of marks.now nodes.now) }
{
    let mut kept = List::new(alloc);
    for i in 0..nodes.len() {
        if marks[i] {
            kept.push(nodes[i])?;
        }
    }
    Ok(kept)
}

fn marked_terms(
    alloc: Global,
    marks: &[bool],
    numbers: &[usize],
    terms: &[Term],
) -> Result<List<Term>, NoMemory>
    requires low { AreLow numbers.now }
    ensures terms { IfOk result (λ kept. map unsigned kept ≡ kept_terms marks.now numbers.now (map unsigned terms.now)) }
    ensures signs { IfOk result (λ kept. map (λ (x : Term). x.minus) kept ≡ kept_signs marks.now terms.now) }
{
    let mut kept = List::new(alloc);
    for term in terms {
        if has_mark(marks, term.node) {
            kept.push(Term {
                node: new_number(numbers, term.node),
                minus: term.minus,
                vertex: term.vertex,
                choice: term.choice,
                branches: renumbered(numbers, &term.branches),
            })?;
        }
    }
    Ok(kept)
}

fn renumbered_keys(
    alloc: Global,
    numbers: &[usize],
    keys: &[KeyTerm],
) -> Result<List<KeyTerm>, NoMemory>
    requires low { AreLow numbers.now }
    ensures keys { IfOk result (λ new. map unsigned_key new ≡ map (renumbered_key numbers.now) (map unsigned_key keys.now)) }
    ensures signs { IfOk result (λ new. map (λ (y : KeyTerm). y.minus) new ≡ map (λ (y : KeyTerm). y.minus) keys.now) }
{
    let mut new = List::new(alloc);
    for key in keys {
        new.push(KeyTerm {
            flow: key.flow,
            minus: key.minus,
            vertex: key.vertex,
            choice: key.choice,
            branches: renumbered(numbers, &key.branches),
        })?;
    }
    Ok(new)
}

// The new number of a node, which is no greater than the old one.
fn new_number(numbers: &[usize], node: u32) -> u32
    requires low { AreLow numbers.now }
    ensures { result ≡ new_number numbers.now node }
{
    let node = node as usize;
    if node < numbers.len() {
        numbers[node] as u32
    } else {
        0
    }
}

// The same branches by their new numbers.
fn renumbered(numbers: &[usize], branches: &Branches) -> Branches
    requires low { AreLow numbers.now }
    ensures { nodes_of result ≡ map (new_number numbers.now) (nodes_of branches.now) }
{
    let [a, b, c, d] = branches.nodes;
    Branches::first_of(
        branches.count,
        [
            new_number(numbers, a),
            new_number(numbers, b),
            new_number(numbers, c),
            new_number(numbers, d),
        ],
    )
}
