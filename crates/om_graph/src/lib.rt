//! The possible graph of a process: which wave functions can be fused out of its legs, and at which vertices they can close
//! to a diagram.
//!
//! A node is a set of legs with the field that leaves it and the partial flow of its colour lines, its [`Key`]. A [`Term`]
//! says that some nodes meet at a vertex and make a node, a [`KeyTerm`] that they meet at a keystone and make a flow.
//! [`build`] finds all of them, set by set, by number of legs: the parts of a set have fewer legs, so their nodes are
//! known by then. The nodes of a set stand side by side, and a table from sets to ranges of numbers gives them without a search.
#![tactic(auto)]

mod chosen;
mod closed_rows;
mod closings;
mod edges;
mod fields;
mod fillings;
mod fusions;
mod key_order;
mod key_terms;
mod kinds;
mod known_row;
pub mod laws;
mod limit;
mod lines;
mod linked;
mod lookup;
mod meets;
mod nodes;
mod ordered_keys;
mod partitions;
mod parts;
mod possible_graph;
mod reaction;
mod recent;
mod runs;
mod set_fusions;
mod signs;
mod slots;
mod terms;
#[cfg(test)]
mod tests;
mod valence;
mod walk;

use om_colour::{Flow, Partial};
use om_legs::{Branches, LegSet};
use om_ring::List;
pub use possible_graph::build;

/// How many terms and keystone terms a graph may have together.
pub const MOST_TERMS: usize = 4_194_304;

/// What a wave function is known by: the legs behind it, the field that leaves them and the colour lines among them.
///
/// Keys of equally many legs are ordered by the set as a number, then by field, then by partial flow.
#[derive(Clone, Copy, PartialEq, Eq, PartialOrd, Ord, Hash, Debug)]
pub struct Key {
    pub legs: LegSet,
    pub field: u16,
    pub partial: Partial,
}

/// Nodes that meet at a vertex and make a node. Numbers count from 0.
#[derive(Clone, Copy, PartialEq, Eq, Debug)]
pub struct Term {
    pub node: u32,
    pub vertex: u32,
    pub branches: Branches,
    pub choice: u8,
    /// The sign is -1.
    pub minus: bool,
}

/// Nodes that meet at a keystone and make a flow. Numbers count from 0.
#[derive(Clone, Copy, PartialEq, Eq, Debug)]
pub struct KeyTerm {
    pub flow: u32,
    pub vertex: u32,
    pub branches: Branches,
    pub choice: u8,
    /// The sign is -1.
    pub minus: bool,
}

/// Nodes, terms, keystone terms and flows, each once and in order. Nodes are ordered by number of legs, then set, field and
/// partial flow; terms by node, vertex, choice and branches; keystone terms by flow, vertex, choice and branches; flows by
/// their ends.
#[derive(Drop)]
pub struct Graph {
    pub nodes: List<Key>,
    pub terms: List<Term>,
    pub keys: List<KeyTerm>,
    pub flows: List<Flow>,
}

/// Why there is no graph.
#[derive(Clone, Copy, Debug, Drop, PartialEq, Eq)]
pub enum BuildFault {
    /// The possible graph has more than 4,194,304 terms and keystone terms together.
    TooLarge,
    /// Want of memory.
    Memory,
}
