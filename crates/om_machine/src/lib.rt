//! The register machine: events, and the evaluation of verified codes.
//!
//! `load` decodes each instruction once: the structure and the reading of its vertex, and slot by slot where the wave comes from
//! and which legs lie behind it. Runs of steps that add products of two scalars to one place become one block, a sum of products.
//! `evaluate` walks over the blocks, and calls the kernels for all other steps; it takes no memory.
#![tactic(auto)]

mod additions;
mod answer;
mod block;
mod blocking;
mod blocks;
mod decoding;
mod edges;
mod event;
mod filling;
mod flow_sums;
mod inverses;
mod kept_products;
pub mod laws;
mod loading;
mod machine;
mod momenta;
mod numbers;
mod prepared;
mod products;
mod readings;
mod reads;
mod rows;
mod run;
mod sets;
mod slots;
mod step;
mod summing;
mod terms;
mod vectors;

pub use answer::Outcome;
pub use event::Event;
pub use loading::{LoadFault, load};
pub use machine::Machine;

#[cfg(test)]
mod loading_tests;
#[cfg(test)]
mod test_codes;
#[cfg(test)]
mod test_events;
#[cfg(test)]
mod test_models;
#[cfg(test)]
mod tests;
