//! Model files in TOML.
//!
//! The top has the keys `model`, `particle`, `vertex` and perhaps `parameter`: a name and three arrays of tables, which are
//! the rows. A parameter is a name for a numeral. Masses, widths, norms and factors are products, of at most 8 numerals and
//! names of parameters with stars between them. [`read_model`] gives the model or the first fault.
#![tactic(auto)]

mod fault;
mod keys;
pub mod laws;
pub mod limits;
mod parameter;
mod particle;
mod product;
mod read;
mod rows;
#[cfg(test)]
mod tests;
mod texts;
mod vertex;

pub use fault::ModelFault;
pub use read::read_model;
