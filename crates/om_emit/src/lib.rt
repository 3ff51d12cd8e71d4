//! The code of a canonical graph, with slots in place of registers.
//!
//! The registers of a graph are the numbers of its nodes: a leg is loaded, an inner node is fused term by term and then propagated,
//! and the keystones close. [`emit`] gives each register a slot by first fit, so that a slot is used again once its register is no
//! longer needed, and there are as few slots as any such renaming can do with.
#![tactic(auto)]

mod dens;
mod emitter;
pub mod laws;
mod placed;
mod planner;
mod registers;
mod slot_plan;

pub use emitter::{MOST_NUMBERED, emit};
pub use slot_plan::{SlotPlan, first_fit};

#[cfg(test)]
mod tests;
