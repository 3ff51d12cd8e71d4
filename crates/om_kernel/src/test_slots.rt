//! Slots of vertices that hold whole numbers, for tests.
ghost use Rattle.std.specs.Prelude.{◌≡◌, ◌≢◌, ◌≤◌, None, option_map, unwrap_or};
ghost use Rattle.om_lorentz.specs.Structures.{IsSlot};
ghost use Rattle.om_kernel.specs.IndexSums.{Fits, FitsAll, slot_kind};
ghost use Rattle.om_kernel.specs.Slots.{slots_at};
ghost use Rattle.om_kernel.specs.Waves.{held_kind};
ghost use Rattle.om_ring.specs.ZpOps.{zp};

use crate::test_waves::four;
use crate::waves::{Place, Places, Wave};
use om_lorentz::{Factors, Four, Structure};
use om_ring::{Elem, Ring, Zp};

// Four numbers of a slot.
fn numbers(slot: u8) -> Four<Elem> {
    match slot {
        1 => four(2, 3, 5, 7),
        2 => four(11, 13, 17, 19),
        3 => four(23, 29, 31, 37),
        _ => four(41, 43, 47, 53),
    }
}

// The momentum that enters through a slot.
fn momentum(slot: u8) -> Four<Elem> {
    match slot {
        1 => four(59, 61, 67, 71),
        2 => four(73, 79, 83, 89),
        3 => four(97, 101, 103, 107),
        _ => four(109, 113, 127, 131),
    }
}

pub(crate) fn factors() -> Factors<Elem> {
    Factors {
        a: Zp.number(137),
        b: Zp.number(139),
        c: Zp.number(149),
    }
}

// A wave of the kind of a slot.
fn wave_in(structure: Structure, slot: u8) -> Option<Wave<Elem>>
    requires { IsSlot slot }
    ensures { held_kind result ≡ slot_kind structure slot }
{
    let p = numbers(slot);
    match slot {
        1 => match structure {
            Structure::Sss | Structure::Ssss => Some(Wave::Scalar(p.t)),
            Structure::Ffs | Structure::Ffv => Some(Wave::Row(p)),
            Structure::Vss | Structure::Vvs | Structure::Vvss => Some(Wave::Vector(p)),
            Structure::Vvv | Structure::Vvvv | Structure::Gluon4 => Some(Wave::Vector(p)),
        },
        2 => match structure {
            Structure::Sss | Structure::Ssss | Structure::Vss => Some(Wave::Scalar(p.t)),
            Structure::Ffs | Structure::Ffv => Some(Wave::Column(p)),
            Structure::Vvs | Structure::Vvss => Some(Wave::Vector(p)),
            Structure::Vvv | Structure::Vvvv | Structure::Gluon4 => Some(Wave::Vector(p)),
        },
        3 => match structure {
            Structure::Sss | Structure::Ssss | Structure::Vss => Some(Wave::Scalar(p.t)),
            Structure::Vvs | Structure::Vvss | Structure::Ffs => Some(Wave::Scalar(p.t)),
            Structure::Ffv | Structure::Vvv => Some(Wave::Vector(p)),
            Structure::Vvvv | Structure::Gluon4 => Some(Wave::Vector(p)),
        },
        4 => match structure {
            Structure::Ssss | Structure::Vvss => Some(Wave::Scalar(p.t)),
            Structure::Vvvv | Structure::Gluon4 => Some(Wave::Vector(p)),
            Structure::Sss | Structure::Vss | Structure::Vvs => None,
            Structure::Ffs | Structure::Ffv | Structure::Vvv => None,
        },
        _ => unreachable!(),
    }
}

// The wave of a slot, none where it is the hole.
fn wave_beside(structure: Structure, slot: u8, hole: u8) -> Option<Wave<Elem>>
    requires { IsSlot slot }
    ensures beside { slot ≢ hole → held_kind result ≡ slot_kind structure slot }
    ensures empty { slot ≡ hole → result ≡ None }
{
    if slot == hole {
        return None;
    }
    wave_in(structure, slot)
}

// The place with a number, of a wave if there is one.
fn place(number: u32, wave: &Option<Wave<Elem>>) -> Place
    ensures { result.wave ≡ option_map (λ w. number) wave.now }
{
    Place {
        wave: match wave {
            Some(_) => Some(number),
            None => None,
        },
        momentum: number,
    }
}

fn or_zero(wave: Option<Wave<Elem>>) -> Wave<Elem>
    ensures { result ≡ unwrap_or wave (Wave.Scalar zp.zero) }
{
    match wave {
        Some(found) => found,
        None => Wave::Scalar(Zp.zero()),
    }
}

/// Waves and momenta, and the places of the slots of a vertex among them.
#[derive(Clone, Copy)]
pub(crate) struct Held {
    pub(crate) waves: [Wave<Elem>; 4],
    pub(crate) momenta: [Four<Elem>; 4],
    pub(crate) places: Places,
}

/// The slots of a vertex with a hole, or with none where `hole` is 0.
pub(crate) fn slots_of(structure: Structure, hole: u8) -> Held
    requires { hole ≤ 4 }
    ensures hole { 1 ≤ hole → Fits structure hole (slots_at zp result.waves result.momenta result.places) }
    ensures all { hole ≡ 0 → FitsAll structure (slots_at zp result.waves result.momenta result.places) }
{
    let first = wave_beside(structure, 1, hole);
    let second = wave_beside(structure, 2, hole);
    let third = wave_beside(structure, 3, hole);
    let fourth = wave_beside(structure, 4, hole);
    Held {
        waves: [
            or_zero(first),
            or_zero(second),
            or_zero(third),
            or_zero(fourth),
        ],
        momenta: [momentum(1), momentum(2), momentum(3), momentum(4)],
        places: Places {
            first: place(0, &first),
            second: place(1, &second),
            third: place(2, &third),
            fourth: place(3, &fourth),
        },
    }
}
