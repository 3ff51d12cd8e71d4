//! The numbers that fix a sample.

/// How many events a sample has.
pub const SAMPLE_EVENTS: u32 = 200;

/// What the generator multiplies its state with.
pub const MULTIPLIER: u64 = 6_364_136_223_846_793_005;

/// What the generator then adds, modulo 2^64.
pub const INCREMENT: u64 = 1_442_695_040_888_963_407;

/// What the state is divided by to give a number below 2^16.
pub const DRAW_UNIT: u64 = 281_474_976_710_656;
