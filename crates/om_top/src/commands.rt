//! The commands, each of which does what its words ask for and says how the run ends.

mod check;
mod eval;
mod run_program;
mod sample;
mod write_named;

pub(crate) use check::check;
pub(crate) use eval::eval;
pub(crate) use run_program::run_program;
pub(crate) use sample::sample;
pub(crate) use write_named::write_named;
