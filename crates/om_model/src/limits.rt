//! How large a model and a process may be.

/// The most rows of particles.
pub const MOST_PARTICLES: usize = 64;

/// The most rows of vertices.
pub const MOST_VERTICES: usize = 512;

/// The most numerals in a product, which has one at least.
pub const MOST_NUMERALS: usize = 8;

/// The most bytes of a name.
pub const MOST_NAME_BYTES: usize = 15;

/// The highest order of a vertex.
pub const HIGHEST_ORDER: u8 = 12;

/// The fewest legs of a process.
pub const FEWEST_LEGS: usize = 3;
