//! Programs with one thing changed, and the first fault of each.
ghost use Rattle.std.specs.Prelude.{◌<◌, ◌^◌, IsTrue};
ghost use Rattle.om_code.specs.Lines.{line_count};

use crate::test_programs::{Case, Change, fuse, key, program};
use crate::{Code, CodeFault, CodeKind, is_plain, verify};
use std::alloc::Global;
use std::process::Abort;
use std::test::Fail;

// Version 1: the name stands in line 2, the particle in 3, the vertex in 4, the legs in 5 to 8, the flow in 9, the denominators
// in 10 to 12, the loads in 13 to 16, what is fused in 17 to 22, the keys in 23 to 25, and the end in 26.
const FIRST: Case = Case {
    version: 1,
    slots: 7,
    change: Change::None,
    fault: None,
};

// Version 2 has the line of the slots behind the denominators.
const SECOND: Case = Case {
    version: 2,
    ..FIRST
};

const CASES: [Case; 19] = [
    FIRST,
    SECOND,
    Case {
        slots: 13,
        ..SECOND
    },
    Case {
        slots: 14,
        fault: Some((13, CodeKind::Number)),
        ..SECOND
    },
    Case {
        slots: 6,
        fault: Some((22, CodeKind::Number)),
        ..SECOND
    },
    Case {
        change: Change::SecondParticle,
        fault: Some((4, CodeKind::Row)),
        ..FIRST
    },
    Case {
        change: Change::Legs(2),
        fault: Some((7, CodeKind::Legs)),
        ..FIRST
    },
    Case {
        change: Change::Legs(13),
        fault: Some((17, CodeKind::Legs)),
        ..FIRST
    },
    Case {
        change: Change::Legs(11),
        fault: Some((30, CodeKind::Sets)),
        ..FIRST
    },
    Case {
        change: Change::FirstEnd(2),
        fault: Some((9, CodeKind::Flow)),
        ..FIRST
    },
    Case {
        change: Change::Den { at: 2, set: 3 },
        fault: Some((12, CodeKind::Den)),
        ..FIRST
    },
    Case {
        change: Change::Prop {
            at: 5,
            of: 4,
            den: 3,
        },
        fault: Some((18, CodeKind::Number)),
        ..FIRST
    },
    Case {
        change: Change::Prop {
            at: 5,
            of: 3,
            den: 0,
        },
        fault: Some((18, CodeKind::Register)),
        ..FIRST
    },
    Case {
        change: Change::Prop {
            at: 5,
            of: 4,
            den: 1,
        },
        fault: Some((18, CodeKind::Fit)),
        ..FIRST
    },
    Case {
        change: Change::Fuse {
            at: 8,
            to: 6,
            branches: [2, 6],
        },
        fault: Some((22, CodeKind::Register)),
        ..SECOND
    },
    Case {
        change: Change::Key {
            at: 10,
            branches: [0, 1, 7],
        },
        fault: Some((23, CodeKind::Register)),
        ..FIRST
    },
    Case {
        change: Change::Key {
            at: 10,
            branches: [1, 0, 2],
        },
        fault: Some((23, CodeKind::Sets)),
        ..FIRST
    },
    Case {
        change: Change::Key {
            at: 10,
            branches: [1, 0, 6],
        },
        fault: Some((23, CodeKind::Fit)),
        ..FIRST
    },
    Case {
        change: Change::Length(9),
        fault: Some((22, CodeKind::Register)),
        ..FIRST
    },
];

fn is_short(code: &Code) -> bool
    ensures { IsTrue result → line_count code.now < 2 ^ 31 }
{
    code.model.particles.len() < 1000
        && code.model.vertices.len() < 1000
        && code.legs.len() < 1000
        && code.flows.len() < 1000
        && code.dens.len() < 1000
        && code.instrs.len() < 1000
}

fn check(rt: &impl Abort, alloc: Global, case: &Case) -> Result<(), Fail> {
    let code = program(alloc, case).ok_or("no program")?;
    assert!(rt; is_plain(&code), "{case:?}");
    assert!(rt; is_short(&code), "{case:?}");
    let found = match verify(alloc, code) {
        Ok(_verified) => None,
        Err(CodeFault::Broken { line, kind }) => Some((line, kind)),
        Err(CodeFault::Memory) => return Err("no memory".into()),
    };
    assert!(rt; found == case.fault, "{case:?} {found:?}");
    Ok(())
}

#[test]
fn faults(rt: HostRuntime) -> Result<(), Fail> {
    let alloc = rt.alloc();
    for case in &CASES {
        check(&rt, alloc, case)?;
    }
    Ok(())
}

#[test]
fn operands(rt: HostRuntime) {
    assert!(rt; fuse(4, 1, 2).operands().as_slice() == [4, 1, 2].as_slice());
    assert!(rt; key([0, 5, 2]).operands().as_slice() == [0, 5, 2].as_slice());
}
