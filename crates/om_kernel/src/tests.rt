//! Each structure, hole and slot at numbers, beside slow index sums over the entries of `om_lorentz`.
ghost use Rattle.std.specs.Prelude.{◌≤◌};
ghost use Rattle.om_lorentz.specs.Structures.{IsReading, slot_count};

use crate::test_slots::{factors, slots_of};
use crate::test_sums::{index_count, slow_sum};
use crate::test_waves::{component, four};
use crate::waves::{Place, Places, Slots, Wave};
use crate::{close, fuse};
use om_lorentz::{Factors, Reading, Structure};
use om_ring::{Book, Elem, Ring, Steps, Zp};

// i modulo P.
const IMAG: u64 = 281474976710656;

// The calls that fusing at a hole takes, where it gives the index sums.
fn fused_calls(structure: Structure, reading: Reading, hole: u8) -> Option<u64>
    requires low { 1 ≤ hole }
    requires high { hole ≤ slot_count structure }
    requires reads { IsReading structure reading }
{
    let mut steps = Steps::new(Book);
    let held = slots_of(structure, hole);
    let slots = Slots {
        waves: &held.waves,
        momenta: &held.momenta,
        places: &held.places,
    };
    let wave = fuse(
        &Zp,
        structure,
        reading,
        &factors(),
        &slots,
        hole,
        &mut steps,
    );
    for n in 0..index_count(structure, hole) {
        if component(&wave, n).get() != slow_sum(structure, reading, hole, n).get() {
            return None;
        }
    }
    Some(steps.count())
}

// The calls that closing takes, where it gives the full index sum.
fn closed_calls(structure: Structure, reading: Reading) -> Option<u64>
    requires reads { IsReading structure reading }
{
    let mut steps = Steps::new(Book);
    let held = slots_of(structure, 0);
    let slots = Slots {
        waves: &held.waves,
        momenta: &held.momenta,
        places: &held.places,
    };
    let value = close(&Zp, structure, reading, &factors(), &slots, &mut steps);
    if value.get() != slow_sum(structure, reading, 0, 0).get() {
        return None;
    }
    Some(steps.count())
}

// Whether fusing at each hole and closing give the index sums, and take this many calls.
fn takes(structure: Structure, slots: [u8; 4], fusing: [u64; 4], closing: u64) -> bool
    requires reads { IsReading structure (record { slots = slots }) }
{
    let reading = Reading { slots };
    for hole in 1..structure.slot_count() + 1 {
        if fused_calls(structure, reading, hole) != Some(fusing[(hole - 1) as usize]) {
            return false;
        }
    }
    closed_calls(structure, reading) == Some(closing)
}

#[test]
fn scalars(rt: HostRuntime) {
    assert!(rt; takes(Structure::Sss, [1, 2, 3, 0], [3, 3, 3, 0], 4));
    assert!(rt; takes(Structure::Ssss, [1, 2, 3, 4], [4, 4, 4, 4], 5));
    assert!(rt; takes(Structure::Vss, [1, 2, 3, 0], [15, 18, 18, 0], 19));
    assert!(rt; takes(Structure::Vvs, [1, 2, 3, 0], [7, 7, 10, 0], 11));
    assert!(rt; takes(Structure::Vvss, [1, 2, 3, 4], [8, 8, 11, 11], 12));
}

#[test]
fn spinors(rt: HostRuntime) {
    assert!(rt; takes(Structure::Ffs, [1, 2, 3, 0], [10, 10, 13, 0], 14));
    assert!(rt; takes(Structure::Ffv, [1, 2, 3, 0], [30, 30, 31, 0], 38));
}

#[test]
fn vectors(rt: HostRuntime) {
    assert!(rt; takes(Structure::Vvv, [1, 2, 3, 0], [68, 68, 68, 0], 75));
    assert!(rt; takes(Structure::Vvv, [2, 1, 3, 0], [68, 68, 68, 0], 75));
    assert!(rt; takes(Structure::Vvvv, [1, 2, 3, 4], [50, 50, 50, 50], 57));
    assert!(rt; takes(Structure::Gluon4, [1, 2, 3, 4], [50, 50, 50, 50], 57));
    assert!(rt; takes(Structure::Gluon4, [3, 1, 2, 4], [50, 50, 50, 50], 57));
    assert!(rt; takes(Structure::Gluon4, [2, 4, 3, 1], [50, 50, 50, 50], 57));
}

// The row (1, 0, 0, 0) and the column (0, 0, 1, 0) with the factors 1 and 0, without momenta.
fn left_current() -> Wave<Elem> {
    let zero = four(0, 0, 0, 0);
    let factors = Factors {
        a: Zp.number(1),
        b: Zp.number(0),
        c: Zp.number(0),
    };
    let waves = [Wave::Row(four(1, 0, 0, 0)), Wave::Column(four(0, 0, 1, 0))];
    let none = Place {
        wave: None,
        momentum: 0,
    };
    let places = Places {
        first: Place {
            wave: Some(0),
            momentum: 0,
        },
        second: Place {
            wave: Some(1),
            momentum: 0,
        },
        third: none,
        fourth: none,
    };
    let slots = Slots {
        waves: &waves,
        momenta: &[zero],
        places: &places,
    };
    let reading = Reading {
        slots: [1, 2, 3, 0],
    };
    let mut steps = Steps::new(Book);
    fuse(
        &Zp,
        Structure::Ffv,
        reading,
        &factors,
        &slots,
        3,
        &mut steps,
    )
}

#[test]
fn current_of_one_component(rt: HostRuntime) {
    let wave = left_current();
    assert_eq!(rt; component(&wave, 0).get(), IMAG);
    assert_eq!(rt; component(&wave, 1).get(), 0);
    assert_eq!(rt; component(&wave, 2).get(), 0);
    assert_eq!(rt; component(&wave, 3).get(), 18446462594437873665);
}
