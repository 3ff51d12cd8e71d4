//! What the words of a command name: a model, a process, a graph, a program. Each is read, or the run ends.

mod graph;
mod machine;
mod model;
mod named;
mod process;
mod program;

pub(crate) use graph::load_graph;
pub(crate) use machine::load_machine;
pub use model::MOST_MODEL_BYTES;
pub(crate) use model::load_model;
pub(crate) use named::{Named, load_named};
pub use program::MOST_PROGRAM_BYTES;
pub(crate) use program::load_program;
