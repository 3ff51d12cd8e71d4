//! Samples: events out of a generator, what they sum up to, and the line that tells it.
//!
//! The numbers come from a linear congruential generator, so a seed and a number of legs fix all events.
#![tactic(auto)]

mod events;
mod generator;
pub mod laws;
mod limits;
mod line;
mod model;
mod sums;
#[cfg(test)]
mod tests;

pub use events::draw_event;
pub use generator::Generator;
pub use limits::{DRAW_UNIT, INCREMENT, MULTIPLIER, SAMPLE_EVENTS};
pub use line::{read_legs, write_sample};
pub use model::{sample_model, sample_process};
pub use sums::{Sums, sum_sample};
