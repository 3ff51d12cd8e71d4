//! The canonical graph of a process: what its diagrams have, each opened at its keystone.
//!
//! Each diagram has one vertex, its keystone, at which no branch has more than half of the legs. [`keystones`] gives the partitions of
//! the legs at which a vertex can be one. Seen away from the keystone, the edges of all diagrams are the nodes of the canonical graph.
//! [`prune`] makes it out of the possible graph: it keeps what the keystone terms reach by terms.
#![tactic(auto)]

mod keystone_parts;
pub mod laws;
mod marking;
mod pruned;

pub use keystone_parts::{KeystoneParts, keystones};
pub use pruned::{Pruned, prune};

#[cfg(test)]
mod keystone_tests;
#[cfg(test)]
mod prune_tests;
