//! Events out of a stream, in whatever pieces it comes.
//!
//! A reader keeps the bytes that it was given and hasn't used in a buffer of fixed size, and takes no memory.
#![tactic(auto)]

mod cause;
mod digits;
mod eights;
mod fours;
mod front;
mod hold;
mod kind;
pub mod laws;
mod limits;
mod line;
mod pieces;
mod reader;
#[cfg(test)]
mod test_code;
#[cfg(test)]
mod tests;
mod value;
mod waited;
mod written;

pub use cause::Cause;
pub use kind::WaveKind;
pub use limits::{MOST_EVENTS, MOST_HELD_BYTES, MOST_LINE_BYTES};
pub use reader::{Next, Reader};
