//! The text of a code, a program text, and its writer.
//!
//! A program text is lines of words with single spaces between; what words a line has is said in `specs/ProgramText`.
#![tactic(auto)]

mod block;
mod instr_lines;
mod model_lines;
mod pieces;
mod process_lines;
mod spellings;
mod writer;

pub use writer::write_code;
