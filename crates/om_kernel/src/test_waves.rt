//! Waves of whole numbers, for tests.
use crate::waves::Wave;
use om_lorentz::Four;
use om_ring::{Elem, Ring, Zp};

/// The vector with the components t, x, y, z.
pub(crate) fn four(t: u64, x: u64, y: u64, z: u64) -> Four<Elem> {
    Four {
        t: Zp.number(t),
        x: Zp.number(x),
        y: Zp.number(y),
        z: Zp.number(z),
    }
}

/// The component of a wave at an index.
pub(crate) fn component(wave: &Wave<Elem>, n: u8) -> Elem {
    match wave {
        Wave::Scalar(x) => *x,
        Wave::Row(p) | Wave::Column(p) | Wave::Vector(p) => match n {
            0 => p.t,
            1 => p.x,
            2 => p.y,
            _ => p.z,
        },
    }
}
