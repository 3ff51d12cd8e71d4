//! Waves, and the slots of a vertex through which they enter.

use om_lorentz::Four;

/// A wave function by components.
///
/// The components of a spinor have the indices 0 to 3, those of a vector are upper ones unless it is said
/// otherwise: `fuse` gives lower components, which a propagator takes.
#[derive(Clone, Copy)]
pub enum Wave<E> {
    /// A scalar, with the index 0 alone.
    Scalar(E),
    /// A spinor that stands on the left, at the antifermion's slot.
    Row(Four<E>),
    /// A spinor that stands on the right, at the fermion's slot.
    Column(Four<E>),
    /// A vector.
    Vector(Four<E>),
}

/// Where what enters a vertex through one of its slots stands: the number of its wave, none at the hole and
/// past the vertex, and that of the momentum, with upper components.
#[derive(Clone, Copy)]
pub struct Place {
    pub wave: Option<u32>,
    pub momentum: u32,
}

/// The places of the slots of a vertex, in the order in which the structure names them. Of three slots
/// `fourth` has no wave, and its momentum isn't read.
#[derive(Clone, Copy)]
pub struct Places {
    pub first: Place,
    pub second: Place,
    pub third: Place,
    pub fourth: Place,
}

/// The slots of a vertex: places among waves and momenta. A number that is out of range stands for 0.
#[derive(Clone, Copy)]
pub struct Slots<'a, E> {
    pub waves: &'a [Wave<E>],
    pub momenta: &'a [Four<E>],
    pub places: &'a Places,
}
