//! How long a line, and how many the events may be.

/// The most bytes of a line, before its line feed.
pub const MOST_LINE_BYTES: usize = 511;

/// The most events that are read from one input.
pub const MOST_EVENTS: u32 = 1_000_000;

/// The most bytes that a reader holds, more than a line has.
pub const MOST_HELD_BYTES: usize = 65536;
