//! The listing of a graph: its flows, its nodes, each with the fusions that make it, and its
//! keystones, line by line. What words a line has is said in `specs/Listing`.
#![tactic(auto)]

mod flows;
mod listing;
mod nodes;
mod terms;
#[cfg(test)]
mod tests;

pub use listing::write_listing;
