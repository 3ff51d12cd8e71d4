//! Vectors and momenta.

/// The four components of a vector or a spinor, with indices 0, 1, 2, 3. A vector's are upper indices
/// unless it is said otherwise.
#[derive(Clone, Copy)]
pub struct Four<E> {
    pub t: E,
    pub x: E,
    pub y: E,
    pub z: E,
}

/// The momenta that enter a vertex through its slots. Past three slots `fourth` isn't read.
#[derive(Clone, Copy)]
pub struct Momenta<E> {
    pub first: Four<E>,
    pub second: Four<E>,
    pub third: Four<E>,
    pub fourth: Four<E>,
}
