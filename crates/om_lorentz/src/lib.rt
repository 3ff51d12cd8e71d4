//! The Feynman rules by index, over any ring: gamma matrices, vertex entries and propagator numerators.
//!
//! The metric is diag(1, -1, -1, -1) and the gamma matrices are in the chiral basis. All momenta enter
//! the vertex. The vector slots of a vertex have lower indices, and propagators, momenta and vector wave
//! functions have upper ones. The rules stand as tables in `specs/`: `Matrices`, `Entries`, `Propagators`.
//!
//! No call takes memory.
#![tactic(auto)]

pub mod entries;
pub mod laws;
pub mod matrices;
mod phases;
pub mod propagators;
pub mod structures;
pub mod vectors;

pub use entries::entry;
pub use matrices::gamma;
pub use propagators::propagator;
pub use structures::{Factors, Reading, Spin, Structure};
pub use vectors::{Four, Momenta};

#[cfg(test)]
mod tests;
