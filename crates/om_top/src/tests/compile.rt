//! `compile`: the programs of processes.
use super::case::{Case, FOUR, check_cases, left_by};
use super::models::{CS, QED};
use super::programs::{CURRENTS_IN_SLOTS, SCALARS_IN_SLOTS};
use std::alloc::Global;
use std::process::Abort;
use std::test::Fail;

// Two real scalars to two. Nothing is read from the input.
const SCALARS: Case = Case {
    words: &["compile", "model.toml", "phi phi -> phi phi"],
    read_fails: 1,
    out: SCALARS_IN_SLOTS,
    ..FOUR
};

const CASES: &[Case] = &[
    SCALARS,
    Case {
        words: &["compile", "model.toml", "e- e+ -> mu- mu+"],
        file: Some(QED),
        out: CURRENTS_IN_SLOTS,
        ..SCALARS
    },
    // Without diagram the program has no flow.
    Case {
        words: &["compile", "model.toml", "a a -> a a a"],
        file: Some(CS),
        out: "omega 2\nmodel cs\nparticle a a~ scalar 0 0 1 1\nvertex ssss 1 a a a~ a~ : 1\nleg a\nleg a\nleg a~\nleg a~\nleg a~\nslots 0\nend\n",
        ..SCALARS
    },
    Case {
        words: &["compile", "model.toml", "phi phi"],
        status: 4,
        out: "",
        err: "process: syntax at byte 7\n",
        ..SCALARS
    },
    Case {
        file: None,
        status: 7,
        out: "",
        err: "read fault: file\n",
        ..SCALARS
    },
    Case {
        write_fails: 1,
        status: 8,
        out: "",
        err: "write fault\n",
        ..SCALARS
    },
];

#[test]
fn compile(rt: HostRuntime) -> Result<(), Fail> {
    check_cases(&rt, rt.alloc(), CASES)
}

// Two electrons to three photons.
const PHOTONS: Case = Case {
    words: &["eval", "model.toml", "e- e+ -> A A A"],
    input: "1 1 0 0 0 1 2 3 4\n2 1 2 0 0 5 6 7 8\n3 2 1 3 0 1 0 2 0\n4 3 0 1 5 0 3 0 4\n5 -7 -3 -4 -5 1 1 2 3\n",
    room: 2000,
    ..FOUR
};

// What a run leaves that has to go well.
fn written(rt: &impl Abort, alloc: Global, case: &Case, file: &[u8]) -> Result<Vec<u8>, Fail> {
    let left = left_by(rt, alloc, case, Some(file.to_vec(alloc)?))?;
    assert_eq!(rt; left.status, 0);
    Ok(left.out.bytes().to_vec(alloc)?)
}

// Whether a text has these bytes in it.
fn has(text: &[u8], part: &[u8]) -> bool {
    (0..text.len()).any(|k| text[k..].starts_with(part))
}

// A program in which a slot is used again, and which gives the answers that it was compiled for.
#[test]
fn slots_used_again(rt: HostRuntime) -> Result<(), Fail> {
    let compile = Case {
        words: &["compile", "model.toml", "e- e+ -> A A A"],
        ..PHOTONS
    };
    let run = Case {
        words: &["run", "model.toml"],
        ..PHOTONS
    };
    let program = written(&rt, rt.alloc(), &compile, QED.as_bytes())?;
    assert!(rt; has(&program, b"\nslots 10\n"));
    assert!(rt; has(&program, b"\nprop 10 3\nfuse 1 + 1 0 2 5\nprop 1 4\n"));
    assert!(rt; has(&program, b"\nkey 1 - 1 0 6 1 4\n"));
    let by_program = written(&rt, rt.alloc(), &run, &program)?;
    let by_model = written(&rt, rt.alloc(), &PHOTONS, QED.as_bytes())?;
    assert!(rt; by_model.starts_with(b"1 - "));
    assert_eq!(rt; by_program, by_model);
    Ok(())
}
