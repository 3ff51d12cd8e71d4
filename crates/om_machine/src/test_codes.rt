//! Three programs as values: four scalars, five scalars, and electrons to muons.
ghost use Rattle.std.specs.Prelude.{◌^◌, ◌<◌, IsTrue};
ghost use Rattle.om_code.specs.Lines.{line_count};

use crate::test_models::{listed, muon_model, scalar_model};
use om_code::{Code, Den, Instr, Verified, is_plain, verify};
use om_colour::Flow;
use om_legs::{Branches, LegSet};
use om_ring::List;
use std::alloc::Global;
use std::process::Abort;
use std::test::Fail;

/// Which of the three.
#[derive(Clone, Copy, Debug)]
pub(crate) enum Program {
    Scalars,
    FiveScalars,
    Muons,
}

/// No row is bad.
pub(crate) const NOWHERE: usize = 99;

/// The program, with a numeral that has no value in a particle or vertex row, counted from 0, where there is such a row.
pub(crate) fn code_of(alloc: Global, which: Program, bad: usize) -> Option<Code> {
    match which {
        Program::Scalars => scalar_code(alloc, bad),
        Program::FiveScalars => five_code(alloc, bad),
        Program::Muons => muon_code(alloc, bad),
    }
}

fn load_leg(leg: u8) -> Option<Instr> {
    match leg {
        0 => None,
        _ => Some(Instr::Load {
            to: u32::from(leg - 1),
            leg,
        }),
    }
}

fn fuse(to: u32, vertex: u32, branches: [u32; 2]) -> Instr {
    signed_fuse(to, false, vertex, branches)
}

fn signed_fuse(to: u32, minus: bool, vertex: u32, branches: [u32; 2]) -> Instr {
    let [a, b] = branches;
    Instr::Fuse {
        to,
        minus,
        vertex,
        choice: 0,
        branches: Branches {
            count: 2,
            nodes: [a, b, 0, 0],
        },
    }
}

fn key(minus: bool, branches: [u32; 3]) -> Instr {
    let [a, b, c] = branches;
    Instr::Key {
        flow: 0,
        minus,
        vertex: 0,
        choice: 0,
        branches: Branches {
            count: 3,
            nodes: [a, b, c, 0],
        },
    }
}

fn dens(alloc: Global, sets: &[u16], field: u16) -> Option<List<Den>> {
    let mut list = List::new(alloc);
    for set in sets {
        if *set >= 4096 {
            return None;
        }
        list.push(Den {
            legs: LegSet::from_number(*set),
            field,
        })
        .ok()?;
    }
    Some(list)
}

fn instrs(alloc: Global, legs: &[u8], rest: &[Instr]) -> Option<List<Instr>> {
    let mut list = List::new(alloc);
    for leg in legs {
        list.push(load_leg(*leg)?).ok()?;
    }
    for instr in rest {
        list.push(*instr).ok()?;
    }
    Some(list)
}

// Four scalars: what leads to the three diagrams.
fn scalar_code(alloc: Global, bad: usize) -> Option<Code> {
    let rest = [
        fuse(4, 0, [1, 2]),
        Instr::Prop { of: 4, den: 0 },
        fuse(5, 0, [1, 3]),
        Instr::Prop { of: 5, den: 1 },
        fuse(6, 0, [2, 3]),
        Instr::Prop { of: 6, den: 2 },
        key(false, [0, 1, 6]),
        key(false, [0, 4, 3]),
        key(false, [0, 5, 2]),
    ];
    Some(Code {
        version: 1,
        model: scalar_model(alloc, bad)?,
        legs: listed(alloc, &[0, 0, 0, 0])?,
        flows: listed(alloc, &[Flow { ends: [0; 12] }])?,
        dens: dens(alloc, &[6, 10, 12], 0)?,
        slots: 7,
        instrs: instrs(alloc, &[1, 2, 3, 4], &rest)?,
    })
}

// Five scalars: three products make one wave, two of them with a minus, and all keystone terms share the first leg.
fn five_code(alloc: Global, bad: usize) -> Option<Code> {
    let rest = [
        fuse(5, 0, [1, 2]),
        Instr::Prop { of: 5, den: 0 },
        fuse(6, 0, [1, 3]),
        Instr::Prop { of: 6, den: 1 },
        fuse(7, 0, [2, 3]),
        Instr::Prop { of: 7, den: 2 },
        fuse(8, 0, [1, 4]),
        Instr::Prop { of: 8, den: 4 },
        fuse(9, 0, [2, 4]),
        Instr::Prop { of: 9, den: 5 },
        fuse(10, 0, [3, 4]),
        Instr::Prop { of: 10, den: 6 },
        signed_fuse(11, true, 0, [5, 3]),
        signed_fuse(11, true, 0, [6, 2]),
        signed_fuse(11, false, 0, [1, 7]),
        Instr::Prop { of: 11, den: 3 },
        key(false, [0, 11, 4]),
        key(true, [0, 5, 10]),
        key(true, [0, 6, 9]),
        key(false, [0, 8, 7]),
    ];
    Some(Code {
        version: 1,
        model: scalar_model(alloc, bad)?,
        legs: listed(alloc, &[0, 0, 0, 0, 0])?,
        flows: listed(alloc, &[Flow { ends: [0; 12] }])?,
        dens: dens(alloc, &[6, 10, 12, 14, 18, 20, 24], 0)?,
        slots: 12,
        instrs: instrs(alloc, &[1, 2, 3, 4, 5], &rest)?,
    })
}

// Electrons to muons.
fn muon_code(alloc: Global, bad: usize) -> Option<Code> {
    let rest = [
        fuse(4, 1, [2, 3]),
        Instr::Prop { of: 4, den: 0 },
        key(true, [0, 1, 4]),
    ];
    Some(Code {
        version: 1,
        model: muon_model(alloc, bad)?,
        legs: listed(alloc, &[0, 1, 3, 2])?,
        flows: listed(alloc, &[Flow { ends: [0; 12] }])?,
        dens: dens(alloc, &[12], 4)?,
        slots: 5,
        instrs: instrs(alloc, &[1, 2, 3, 4], &rest)?,
    })
}

fn is_short(code: &Code) -> bool
    ensures { IsTrue result → line_count code.now < 2 ^ 31 }
{
    code.model.particles.len() < 1000
        && code.model.vertices.len() < 1000
        && code.legs.len() < 1000
        && code.flows.len() < 1000
        && code.dens.len() < 1000
        && code.instrs.len() < 1000
}

pub(crate) fn verified(rt: &impl Abort, alloc: Global, code: Code) -> Result<Verified, Fail> {
    assert!(rt; is_plain(&code));
    assert!(rt; is_short(&code));
    Ok(verify(alloc, code).ok().ok_or("not verified")?)
}
