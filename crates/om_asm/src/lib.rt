//! The text of a code, both ways.
#![tactic(auto)]

mod fault;
mod field_lines;
mod fields;
mod flow_line;
mod groups;
mod head_lines;
mod instr_groups;
mod instr_line;
pub mod laws;
mod lines;
mod numbers;
mod particle_line;
mod reader;
mod rows;
mod slots;
#[cfg(test)]
mod tests;
mod vertex_line;
mod words;

pub use fault::{AsmFault, AsmKind};
pub use om_program_text::write_code;
pub use reader::read_code;
