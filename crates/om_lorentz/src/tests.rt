//! Single entries beside values that were worked out from the matrices of a textbook.
ghost use Rattle.om_lorentz.specs.Structures.{HasIndices, IsIndex, IsReading};

use crate::structures::{Factors, Reading, Spin, Structure};
use crate::vectors::{Four, Momenta};
use crate::{entry, gamma, propagator};
use om_ring::{Book, Elem, Ring, Steps, Zp};

// P, modulo which the numbers are.
const P: u64 = 18446744069414584321;

// i modulo P.
const IMAG: u64 = 281474976710656;

// The vector with the components t, x, y, z.
fn four(t: u64, x: u64, y: u64, z: u64) -> Four<Elem> {
    Four {
        t: Zp.number(t),
        x: Zp.number(x),
        y: Zp.number(y),
        z: Zp.number(z),
    }
}

// An entry with the factors 5, 7, 11 and four fixed momenta.
fn entry_at(structure: Structure, slots: [u8; 4], indices: [u8; 4]) -> u64
    requires indices_in { HasIndices structure indices }
    requires reads { IsReading structure (record { slots = slots }) }
{
    let factors = Factors {
        a: Zp.number(5),
        b: Zp.number(7),
        c: Zp.number(11),
    };
    let momenta = Momenta {
        first: four(2, 3, 5, 7),
        second: four(11, 13, 17, 19),
        third: four(23, 29, 31, 37),
        fourth: four(41, 43, 47, 53),
    };
    let mut steps = Steps::new(Book);
    let reading = Reading { slots };
    entry(
        &Zp, structure, reading, &factors, &momenta, indices, &mut steps,
    )
    .get()
}

#[test]
fn gamma_matrices(rt: HostRuntime) {
    let mut steps = Steps::new(Book);
    assert_eq!(rt; gamma(&Zp, 1, 0, 3, &mut steps).get(), P - 1);
    assert_eq!(rt; gamma(&Zp, 2, 0, 3, &mut steps).get(), IMAG);
    assert_eq!(rt; gamma(&Zp, 0, 0, 2, &mut steps).get(), 1);
    assert_eq!(rt; gamma(&Zp, 3, 3, 3, &mut steps).get(), 0);
}

#[test]
fn three_slots(rt: HostRuntime) {
    let order = [1, 2, 3, 0];
    assert_eq!(rt; entry_at(Structure::Sss, order, [0, 0, 0, 0]), 5);
    assert_eq!(rt; entry_at(Structure::Vss, order, [2, 0, 0, 0]), 70);
    assert_eq!(rt; entry_at(Structure::Vvs, order, [3, 3, 0, 0]), P - 5);
    assert_eq!(rt; entry_at(Structure::Ffs, order, [1, 1, 0, 0]), P - 2);
    assert_eq!(rt; entry_at(Structure::Ffv, order, [0, 3, 2, 0]), 12 * IMAG);
    assert_eq!(rt; entry_at(Structure::Vvv, order, [1, 1, 0, 0]), 45);
    assert_eq!(rt;
        entry_at(Structure::Vvv, [1, 3, 2, 0], [1, 1, 0, 0]),
        P - 45
    );
}

#[test]
fn four_slots(rt: HostRuntime) {
    let order = [1, 2, 3, 4];
    assert_eq!(rt; entry_at(Structure::Ssss, order, [0, 0, 0, 0]), 5);
    assert_eq!(rt; entry_at(Structure::Vvss, order, [0, 0, 0, 0]), 5);
    assert_eq!(rt; entry_at(Structure::Vvvv, order, [0, 2, 0, 2]), P - 7);
    assert_eq!(rt; entry_at(Structure::Gluon4, order, [1, 2, 1, 2]), 10);
    assert_eq!(rt;
        entry_at(Structure::Gluon4, [1, 3, 2, 4], [0, 0, 2, 2]),
        P - 10
    );
}

// A numerator at the momentum p, or nothing where the mass isn't 0 and has no inverse.
fn numerator_at(spin: Spin, mass: u64, p: &Four<Elem>, left: u8, right: u8) -> Option<u64>
    requires left_in { IsIndex spin left }
    requires right_in { IsIndex spin right }
{
    let mut steps = Steps::new(Book);
    let mass = Zp.number(mass);
    let numerator = if Zp.same(mass, Zp.zero()) {
        propagator(&Zp, spin, mass, mass, false, p, left, right, &mut steps)
    } else {
        let inverse = Zp.inverse(mass, &mut steps)?;
        propagator(&Zp, spin, mass, inverse, true, p, left, right, &mut steps)
    };
    Some(numerator.get())
}

#[test]
fn numerators(rt: HostRuntime) {
    let p = four(2, 3, 5, 7);
    let still = four(3, 0, 0, 0);
    assert_eq!(rt; numerator_at(Spin::Scalar, 0, &p, 0, 0), Some(IMAG));
    assert_eq!(rt; numerator_at(Spin::Dirac, 11, &p, 2, 2), Some(11 * IMAG));
    assert_eq!(rt;
        numerator_at(Spin::Dirac, 11, &p, 0, 3),
        Some(P - 5 - 3 * IMAG)
    );
    assert_eq!(rt; numerator_at(Spin::Vector, 0, &p, 1, 1), Some(IMAG));
    assert_eq!(rt;
        numerator_at(Spin::Vector, 2, &p, 2, 0),
        Some(5 * (IMAG / 2))
    );
    assert_eq!(rt; numerator_at(Spin::Vector, 1, &still, 0, 0), Some(8 * IMAG));
}
