//! Sets of external legs, their splits into parts, and the parity of crossings.
#![tactic(auto)]

mod branch_nodes;
mod branches;
mod four_parts;
pub mod laws;
mod leg_set;
mod parity;
mod splits;
mod three_parts;
mod two_parts;

pub use branches::Branches;
pub use four_parts::FourParts;
pub use leg_set::{LegSet, MOST_LEGS};
pub use parity::cross_parity;
pub use splits::{partitions3, partitions4, splits2, splits3};
pub use three_parts::ThreeParts;
pub use two_parts::TwoParts;

#[cfg(test)]
mod tests;
