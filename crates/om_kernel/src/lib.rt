//! Fusing and closing wave functions at a vertex, and taking them over an edge, by components, over any ring.
//!
//! A vertex sees at each slot a wave and the momentum that enters. `fuse` gives what a vertex makes of the
//! waves at all slots but one, and `close` what it makes of all of them. Both equal the sum over the indices
//! of the slots of the vertex entry, times i, as `specs/IndexSums.antt` states it; neither goes over indices.
//! `propagate` gives what an edge makes of a wave, the index sum of `specs/EdgeSums.antt`. `dot`, `plain_dot`,
//! `lower_difference` and `plus_four` are the products, differences and sums of vectors that these are made of.
//!
//! No call takes memory.
#![tactic(auto)]

pub mod edges;
mod gluons;
mod orders;
mod slots;
mod spinors;
mod structures;
mod vectors;
pub mod vertices;
pub mod waves;

pub use edges::propagate;
pub use vectors::{dot, lower_difference, plain_dot, plus_four};
pub use vertices::{close, fuse};
pub use waves::{Place, Places, Slots, Wave};

#[cfg(test)]
mod edge_tests;
#[cfg(test)]
mod test_slots;
#[cfg(test)]
mod test_sums;
#[cfg(test)]
mod test_waves;
#[cfg(test)]
mod tests;
