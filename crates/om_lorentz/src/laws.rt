//! The laws of the tables, for every ring. Each is the contract of an empty function.
ghost use Rattle.om_lorentz.specs.Laws.{Clifford, IsEven, IsSymmetric, RotatesFour, RotatesThree};

use om_ring::ring::Ring;

/// gamma_mu gamma_nu + gamma_nu gamma_mu = 2 g_mu_nu at all indices.
pub fn clifford<R: Ring>(_ring: &R)
    ensures { Clifford (R.ops _ring.now) }
{}

/// The entries of `Vvv` and `Gluon4` don't change under a rotation of their reading order.
pub fn rotations<R: Ring>(_ring: &R)
    ensures three { RotatesThree (R.ops _ring.now) }
    ensures four { RotatesFour (R.ops _ring.now) }
{}

/// The numerator of a scalar or a vector doesn't change with the sign of the momentum, nor with its two
/// indices exchanged. So it needs no direction of its edge.
pub fn undirected<R: Ring>(_ring: &R)
    ensures even { IsEven (R.ops _ring.now) }
    ensures symmetric { IsSymmetric (R.ops _ring.now) }
{}
