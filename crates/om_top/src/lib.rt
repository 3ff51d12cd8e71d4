//! The top call: all that the program does, over what it is handed.
#![tactic(auto)]

mod answer_text;
mod command;
mod commands;
mod ending;
mod faults;
pub mod laws;
mod load;
mod message;
mod range;
mod stream;
mod top;
mod words;
mod write;

pub use ending::Ending;
pub use faults::{EventFault, ProgramFault};
pub use top::run;
pub use words::{refuse_words, within_limits};

#[cfg(test)]
mod tests;
