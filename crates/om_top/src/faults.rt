//! What is wrong with a model, a process, a program or an input, and the texts that say it.

mod event;
mod model;
mod process;
mod program;

pub use event::EventFault;
pub(crate) use event::push_event_fault;
pub(crate) use model::push_model_fault;
pub(crate) use process::push_process_fault;
pub use program::ProgramFault;
pub(crate) use program::push_program_fault;
