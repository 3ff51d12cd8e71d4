//! What an edge makes of waves, beside index sums over the entries of propagators.
ghost use Rattle.std.specs.Prelude.{◌<◌};
ghost use Rattle.om_lorentz.specs.Propagators.{MassAgrees};
ghost use Rattle.om_ring.specs.ZpOps.{zp};
ghost use Rattle.om_kernel.specs.EdgeSums.{spin_of};

use crate::edges::propagate;
use crate::test_waves::{component, four};
use crate::waves::Wave;
use om_lorentz::{Four, Spin, propagator};
use om_ring::{Book, Elem, Ring, Steps, Zp};

// An edge that a wave enters.
#[derive(Clone, Copy)]
struct Edge {
    wave: Wave<Elem>,
    mass: Elem,
    inverse_mass: Elem,
    massive: bool,
    momentum: Four<Elem>,
}

// The numerator between the far end and the near end of an edge.
fn numerator(edge: &Edge, far: u8, near: u8, steps: &mut Steps<Book>) -> Elem
    requires far_in { far < 4 }
    requires near_in { near < 4 }
    requires agrees { let e = edge.now in MassAgrees zp (spin_of e.wave) e.mass e.inverse_mass e.massive }
{
    let (mass, inverse, massive) = (edge.mass, edge.inverse_mass, edge.massive);
    let p = &edge.momentum;
    match edge.wave {
        Wave::Scalar(_) => propagator(&Zp, Spin::Scalar, mass, inverse, massive, p, 0, 0, steps),
        Wave::Row(_) => {
            let back = Four {
                t: Zp.neg(p.t, steps),
                x: Zp.neg(p.x, steps),
                y: Zp.neg(p.y, steps),
                z: Zp.neg(p.z, steps),
            };
            propagator(
                &Zp,
                Spin::Dirac,
                mass,
                inverse,
                massive,
                &back,
                near,
                far,
                steps,
            )
        }
        Wave::Column(_) => {
            propagator(
                &Zp,
                Spin::Dirac,
                mass,
                inverse,
                massive,
                p,
                far,
                near,
                steps,
            )
        }
        Wave::Vector(_) => {
            propagator(
                &Zp,
                Spin::Vector,
                mass,
                inverse,
                massive,
                p,
                far,
                near,
                steps,
            )
        }
    }
}

// The index sum at an index of the far end.
fn index_sum(edge: &Edge, far: u8, steps: &mut Steps<Book>) -> Elem
    requires far_in { far < 4 }
    requires agrees { let e = edge.now in MassAgrees zp (spin_of e.wave) e.mass e.inverse_mass e.massive }
{
    let indices = match edge.wave {
        Wave::Scalar(_) => 1,
        _ => 4,
    };
    let mut sum = Zp.zero();
    for near in 0..indices {
        let entry = numerator(edge, far, near, steps);
        let summand = Zp.mul(entry, component(&edge.wave, near), steps);
        sum = Zp.add(sum, summand, steps);
    }
    sum
}

// What an edge makes of its wave.
fn far_end(edge: &Edge, factor: Elem, steps: &mut Steps<Book>) -> Wave<Elem>
    requires { let e = edge.now in MassAgrees zp (spin_of e.wave) e.mass e.inverse_mass e.massive }
{
    propagate(
        &Zp,
        &edge.wave,
        edge.mass,
        edge.inverse_mass,
        edge.massive,
        factor,
        &edge.momentum,
        steps,
    )
}

// The calls that an edge takes, where it gives the factor times the index sum at each index.
fn edge_calls(edge: &Edge) -> Option<u64>
    requires { let e = edge.now in MassAgrees zp (spin_of e.wave) e.mass e.inverse_mass e.massive }
{
    let factor = Zp.number(17);
    let mut steps = Steps::new(Book);
    let far = far_end(edge, factor, &mut steps);
    let mut slow = Steps::new(Book);
    for n in 0..4 {
        let sum = index_sum(edge, n, &mut slow);
        let wanted = Zp.mul(factor, sum, &mut slow);
        if component(&far, n).get() != wanted.get() {
            return None;
        }
    }
    Some(steps.count())
}

// Whether an edge without mass and one with a mass give the index sums, and take this many calls.
fn takes(wave: Wave<Elem>, massless: u64, massive: u64) -> bool {
    let (zero, mass) = (Zp.zero(), Zp.number(19));
    let mut edge = Edge {
        wave,
        mass: zero,
        inverse_mass: zero,
        massive: false,
        momentum: four(2, 3, 5, 7),
    };
    if edge_calls(&edge) != Some(massless) || Zp.same(mass, zero) {
        return false;
    }
    let Some(inverse_mass) = Zp.inverse(mass, &mut Steps::new(Book)) else {
        return false;
    };
    edge.mass = mass;
    edge.inverse_mass = inverse_mass;
    edge.massive = true;
    edge.momentum = four(11, 18446744069414584320, 0, 13);
    edge_calls(&edge) == Some(massive)
}

#[test]
fn index_sums(rt: HostRuntime) {
    let numbers = four(1, 10, 100, 1000);
    assert!(rt; takes(Wave::Scalar(numbers.x), 2, 2));
    assert!(rt; takes(Wave::Row(numbers), 36, 36));
    assert!(rt; takes(Wave::Column(numbers), 34, 34));
    assert!(rt; takes(Wave::Vector(numbers), 6, 23));
}

// i, 0, 0, -i with lower components, divided by 4, is 1/4, 0, 0, 1/4 with upper ones.
#[test]
fn massless_vector(rt: HostRuntime) {
    let edge = Edge {
        wave: Wave::Vector(four(281474976710656, 0, 0, 18446462594437873665)),
        mass: Zp.zero(),
        inverse_mass: Zp.zero(),
        massive: false,
        momentum: four(2, 0, 0, 0),
    };
    let quarter = 13835058052060938241;
    let far = far_end(&edge, Zp.number(quarter), &mut Steps::new(Book));
    for (n, wanted) in [(0, quarter), (1, 0), (2, 0), (3, quarter)] {
        assert_eq!(rt; component(&far, n).get(), wanted, "index {n}");
    }
}
