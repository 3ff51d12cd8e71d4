//! The outside of the program: sources, folders and sinks, each of which may fail and counts its faults.
//!
//! What an object holds is told where the object can know it, as one in memory does, and else nothing is claimed
//! of it. Counts of faults are always known. A counter that has reached `2^64 - 1` stands still.
#![tactic(auto)]

#[cfg(test)]
mod adapter_tests;
mod adapters;
mod buffer;
mod calls;
mod folder;
mod memory;
mod rows;
mod sink;
mod source;
mod sure;
#[cfg(test)]
mod tests;
mod whole;

pub use adapters::{StdFolder, StdSink, StdSource};
pub use buffer::{ROOM_BYTES, flush, make_room};
pub use folder::Folder;
pub use memory::{MemFolder, MemSink, MemSource};
pub use rows::{RowKind, write_each, write_rows};
pub use sink::Sink;
pub use source::Source;
pub use sure::{SureFolder, SureSink, SureSource};
pub use whole::{FileFault, read_file, write_all};

/// A call on an object of the outside failed. The object's count of faults has risen.
#[derive(Clone, Copy, Debug, Drop, PartialEq, Eq)]
pub struct Failed;
