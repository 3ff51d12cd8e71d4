//! The structures of vertices, the spins of their slots, and what a vertex is read with.
ghost use Rattle.std.specs.Prelude.{◌≡◌};
ghost use Rattle.om_lorentz.specs.Structures.{factor_count, slot_count, spins};

/// The Lorentz structure of a vertex: the spins of its slots, in order, and how they are joined.
///
/// S is a scalar, V a vector, and FF an antifermion (a row of spinor components, psi-bar) followed by
/// a fermion (a column, psi). The entry of each structure stands in `specs/Entries.antt`.
#[derive(Clone, Copy, PartialEq, Eq, Debug)]
pub enum Structure {
    /// Three scalars.
    Sss,
    /// Four scalars.
    Ssss,
    /// A vector and two scalars, joined by the difference of the scalars' momenta.
    Vss,
    /// Two vectors and a scalar, joined by the metric.
    Vvs,
    /// Two vectors and two scalars, joined by the metric.
    Vvss,
    /// An antifermion, a fermion and a scalar, joined by a + b gamma5.
    Ffs,
    /// An antifermion, a fermion and a vector, joined by gamma_mu (a + b gamma5).
    Ffv,
    /// Three vectors, joined as three gluons of one cyclic order are.
    Vvv,
    /// Four vectors, joined by the three pairs of metrics with a factor each.
    Vvvv,
    /// Four vectors, joined as four gluons of one cyclic order are.
    Gluon4,
}

impl Structure {
    /// The spins of the slots, in order.
    pub fn spins(self) -> &'static [Spin]
        ensures { result.now ≡ spins self }
    {
        match self {
            Structure::Sss => &[Spin::Scalar, Spin::Scalar, Spin::Scalar],
            Structure::Ssss => &[Spin::Scalar, Spin::Scalar, Spin::Scalar, Spin::Scalar],
            Structure::Vss => &[Spin::Vector, Spin::Scalar, Spin::Scalar],
            Structure::Vvs => &[Spin::Vector, Spin::Vector, Spin::Scalar],
            Structure::Vvss => &[Spin::Vector, Spin::Vector, Spin::Scalar, Spin::Scalar],
            Structure::Ffs => &[Spin::Dirac, Spin::Dirac, Spin::Scalar],
            Structure::Ffv => &[Spin::Dirac, Spin::Dirac, Spin::Vector],
            Structure::Vvv => &[Spin::Vector, Spin::Vector, Spin::Vector],
            Structure::Vvvv | Structure::Gluon4 => &[
                Spin::Vector,
                Spin::Vector,
                Spin::Vector,
                Spin::Vector,
            ],
        }
    }

    /// How many slots a vertex of the structure has.
    #[inline(always)]
    pub fn slot_count(self) -> u8
        ensures { result ≡ slot_count self }
    {
        match self {
            Structure::Ssss | Structure::Vvss | Structure::Vvvv | Structure::Gluon4 => 4,
            _ => 3,
        }
    }

    /// How many factors a vertex of the structure has.
    pub fn factor_count(self) -> usize
        ensures { result ≡ factor_count self }
    {
        match self {
            Structure::Ffs | Structure::Ffv => 2,
            Structure::Vvvv => 3,
            _ => 1,
        }
    }
}

/// The spin of a field. A scalar has the index 0 alone, all else the indices 0 to 3.
#[derive(Clone, Copy, PartialEq, Eq, Debug)]
pub enum Spin {
    /// Spin 0.
    Scalar,
    /// Spin 1/2, with four spinor components.
    Dirac,
    /// Spin 1, with four vector components.
    Vector,
}

/// The factors of a vertex, in the order in which the structure names them. A structure with fewer
/// than three leaves the rest unread.
#[derive(Clone, Copy)]
pub struct Factors<E> {
    pub a: E,
    pub b: E,
    pub c: E,
}

/// The order in which `Vvv` and `Gluon4` read their slots.
///
/// `slots` holds each slot of the vertex, counted from 1, once, and then 0 where the vertex has three
/// slots. All other structures read their slots as they are written.
#[derive(Clone, Copy)]
pub struct Reading {
    pub slots: [u8; 4],
}
