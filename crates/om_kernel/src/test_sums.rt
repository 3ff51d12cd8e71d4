//! Slow sums over the indices of the slots, by the entries of `om_lorentz`, for tests.
ghost use Rattle.std.specs.Prelude.{◌≡◌, ◌≤◌, length, IsTrue};
ghost use Rattle.om_lorentz.specs.Structures.{HasIndices, IsReading, IsSlot, slot_indices};

use crate::test_slots::{Held, factors, slots_of};
use crate::test_waves::component;
use crate::waves::{Place, Wave};
use om_lorentz::{Momenta, Reading, Structure, entry};
use om_ring::{Book, Elem, Ring, Steps, Zp};

/// How many indices a slot has.
pub(crate) fn index_count(structure: Structure, slot: u8) -> u8
    requires { IsSlot slot }
    ensures { result ≡ length (slot_indices structure slot) }
{
    match slot {
        1 => match structure {
            Structure::Sss | Structure::Ssss => 1,
            Structure::Vss | Structure::Vvs | Structure::Vvss | Structure::Ffs => 4,
            Structure::Ffv | Structure::Vvv | Structure::Vvvv | Structure::Gluon4 => 4,
        },
        2 => match structure {
            Structure::Sss | Structure::Ssss | Structure::Vss => 1,
            Structure::Vvs | Structure::Vvss | Structure::Ffs | Structure::Ffv => 4,
            Structure::Vvv | Structure::Vvvv | Structure::Gluon4 => 4,
        },
        3 => match structure {
            Structure::Sss | Structure::Ssss | Structure::Vss => 1,
            Structure::Vvs | Structure::Vvss | Structure::Ffs => 1,
            Structure::Ffv | Structure::Vvv | Structure::Vvvv | Structure::Gluon4 => 4,
        },
        4 => match structure {
            Structure::Vvvv | Structure::Gluon4 => 4,
            Structure::Ssss | Structure::Vvss | Structure::Sss | Structure::Vss => 1,
            Structure::Vvs | Structure::Ffs | Structure::Ffv | Structure::Vvv => 1,
        },
        _ => unreachable!(),
    }
}

// What a slot multiplies at an index: its component, or 1 where it has no wave.
fn weight(wave: &Wave<Elem>, place: Place, index: u8) -> Elem {
    match place.wave {
        Some(_) => component(wave, index),
        None => Zp.one(),
    }
}

// One summand of an index sum.
fn summand(structure: Structure, reading: Reading, held: &Held, indices: [u8; 4]) -> Elem
    requires in_range { HasIndices structure indices }
    requires reads { IsReading structure reading }
{
    let mut steps = Steps::new(Book);
    let [first, second, third, fourth] = held.momenta;
    let momenta = Momenta {
        first,
        second,
        third,
        fourth,
    };
    let [one, two, three, four] = &held.waves;
    let places = &held.places;
    let mut product = entry(
        &Zp,
        structure,
        reading,
        &factors(),
        &momenta,
        indices,
        &mut steps,
    );
    product = Zp.mul(product, weight(one, places.first, indices[0]), &mut steps);
    product = Zp.mul(product, weight(two, places.second, indices[1]), &mut steps);
    product = Zp.mul(product, weight(three, places.third, indices[2]), &mut steps);
    Zp.mul(product, weight(four, places.fourth, indices[3]), &mut steps)
}

// Whether each slot has the index, and the hole, where there is one, the index n.
fn has_indices(structure: Structure, indices: [u8; 4], hole: u8, n: u8) -> bool
    ensures { IsTrue result → HasIndices structure indices }
{
    let [first, second, third, fourth] = indices;
    let in_range = first < index_count(structure, 1)
        && second < index_count(structure, 2)
        && third < index_count(structure, 3)
        && fourth < index_count(structure, 4);
    let at_hole = match hole {
        1 => first == n,
        2 => second == n,
        3 => third == n,
        4 => fourth == n,
        _ => true,
    };
    in_range && at_hole
}

/// The index sum with the hole, where there is one, at n, times i.
pub(crate) fn slow_sum(structure: Structure, reading: Reading, hole: u8, n: u8) -> Elem
    requires high { hole ≤ 4 }
    requires reads { IsReading structure reading }
{
    let mut steps = Steps::new(Book);
    let held = slots_of(structure, hole);
    let mut total = Zp.zero();
    for code in 0..256u32 {
        let indices = [
            (code / 64) as u8,
            (code / 16 % 4) as u8,
            (code / 4 % 4) as u8,
            (code % 4) as u8,
        ];
        if has_indices(structure, indices, hole, n) {
            let part = summand(structure, reading, &held, indices);
            total = Zp.add(total, part, &mut steps);
        }
    }
    Zp.mul(Zp.imag(), total, &mut steps)
}
