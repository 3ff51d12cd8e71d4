//! The first fault of a program.
use super::case::{Case, check_with};
use super::programs::{CURRENTS_IN_SLOTS, SCALARS};
use super::run_program::RUN;
use om_ring::Line;
use std::alloc::Global;
use std::process::Abort;
use std::test::Fail;

// A program, the number of a line of it, from 1, how many lines are left out from there on, the text in their place, and what
// `run` says.
type Changed = (&'static str, usize, usize, &'static str, &'static str);

const CHANGED: &[Changed] = &[
    // Lines that are in no program.
    (SCALARS, 1, 26, "", "program: line 1: Grammar\n"),
    (SCALARS, 1, 1, "omega 3\n", "program: line 1: Grammar\n"),
    (SCALARS, 2, 1, "", "program: line 2: Grammar\n"),
    (
        SCALARS,
        10,
        1,
        "den 3+2 phi\n",
        "program: line 10: Grammar\n",
    ),
    (SCALARS, 13, 1, "load 01\n", "program: line 13: Grammar\n"),
    (SCALARS, 26, 1, "", "program: line 26: Grammar\n"),
    (SCALARS, 26, 1, "end", "program: line 26: Grammar\n"),
    (SCALARS, 26, 1, "end\n\n", "program: line 27: Grammar\n"),
    (CURRENTS_IN_SLOTS, 14, 1, "", "program: line 14: Grammar\n"),
    (
        CURRENTS_IN_SLOTS,
        15,
        1,
        "load 1\n",
        "program: line 15: Grammar\n",
    ),
    // Fields that no particle line above has.
    (
        SCALARS,
        4,
        1,
        "vertex sss 1 phi phi chi : 1\n",
        "program: line 4: Name\n",
    ),
    (SCALARS, 5, 1, "leg chi\n", "program: line 5: Name\n"),
    (SCALARS, 10, 1, "den 2+3 chi\n", "program: line 10: Name\n"),
    // Each rule of programs.
    (
        SCALARS,
        4,
        0,
        "particle phi phi scalar 0 0 1 1\n",
        "program: line 4: Row\n",
    ),
    (
        SCALARS,
        4,
        1,
        "vertex vss 1 phi phi phi : 1\n",
        "program: line 4: Row\n",
    ),
    (SCALARS, 7, 2, "", "program: line 7: Legs\n"),
    (
        SCALARS,
        9,
        0,
        "leg phi\nleg phi\nleg phi\nleg phi\nleg phi\nleg phi\nleg phi\nleg phi\nleg phi\n",
        "program: line 17: Legs\n",
    ),
    (SCALARS, 10, 0, "flow -\n", "program: line 10: Flow\n"),
    (SCALARS, 12, 0, "den 1+2 phi\n", "program: line 12: Den\n"),
    (SCALARS, 11, 1, "den 2+3 phi\n", "program: line 11: Den\n"),
    (SCALARS, 14, 1, "load 5\n", "program: line 14: Number\n"),
    (
        SCALARS,
        23,
        1,
        "key 1 + 2 0 1 2 7\n",
        "program: line 23: Number\n",
    ),
    (
        CURRENTS_IN_SLOTS,
        14,
        1,
        "slots 8\n",
        "program: line 14: Number\n",
    ),
    (
        CURRENTS_IN_SLOTS,
        14,
        1,
        "slots 4\n",
        "program: line 19: Number\n",
    ),
    (
        SCALARS,
        23,
        1,
        "key 1 + 1 0 1 2 8\n",
        "program: line 23: Register\n",
    ),
    (SCALARS, 22, 2, "", "program: line 24: Register\n"),
    (
        CURRENTS_IN_SLOTS,
        19,
        1,
        "fuse 4 + 2 0 3 4\n",
        "program: line 19: Register\n",
    ),
    (
        SCALARS,
        23,
        1,
        "key 1 + 1 0 1 3 7\n",
        "program: line 23: Sets\n",
    ),
    (
        SCALARS,
        9,
        0,
        "leg phi\nleg phi\nleg phi\nleg phi\nleg phi\nleg phi\nleg phi\n",
        "program: line 30: Sets\n",
    ),
    (
        SCALARS,
        23,
        1,
        "key 1 + 1 0 2 1 7\n",
        "program: line 23: Fit\n",
    ),
    (SCALARS, 18, 1, "prop 5 2\n", "program: line 18: Fit\n"),
    // A number without inverse is told last, behind what is wrong in later lines.
    (
        SCALARS,
        3,
        1,
        "particle phi phi scalar 1/18446744069414584321 0 1 1\n",
        "program: line 3: NoInverse\n",
    ),
    (
        SCALARS,
        4,
        1,
        "vertex sss 1 phi phi phi : 1/18446744069414584321\n",
        "program: line 4: NoInverse\n",
    ),
    (
        SCALARS,
        4,
        2,
        "vertex sss 1 phi phi phi : 1/18446744069414584321\nleg chi\n",
        "program: line 5: Name\n",
    ),
    (
        SCALARS,
        3,
        1,
        "particle phi phi scalar 1/18446744069414584321 0 1 1\nparticle phi phi scalar 0 0 1 1\n",
        "program: line 4: Row\n",
    ),
];

// The bytes of a changed program.
fn bytes_of(alloc: Global, changed: &Changed) -> Result<Vec<u8>, Fail> {
    let (program, first, lines, text, _) = *changed;
    let mut bytes = Vec::new(alloc);
    for (k, line) in program.split_inclusive('\n').enumerate() {
        if k + 1 == first {
            bytes.extend_from_slice(text.as_bytes())?;
        }
        if k + 1 < first || lines <= k + 1 - first {
            bytes.extend_from_slice(line.as_bytes())?;
        }
    }
    Ok(bytes)
}

// A program with so many particles and nothing else.
fn with_particles(alloc: Global, count: u64) -> Result<Vec<u8>, Fail> {
    let mut bytes = Vec::new(alloc);
    bytes.extend_from_slice(b"omega 2\nmodel many\n")?;
    for number in 0..count {
        let mut line = Line::new();
        line.push(b"particle p");
        line.push_number(number);
        line.push(b" q");
        line.push_number(number);
        line.push(b" scalar 0 0 1 1\n");
        bytes.extend_from_slice(line.bytes())?;
    }
    bytes.extend_from_slice(b"slots 0\nend\n")?;
    Ok(bytes)
}

// `run` refuses the program so.
fn check_refused(
    rt: &impl Abort,
    alloc: Global,
    file: Vec<u8>,
    err: &'static str,
) -> Result<(), Fail> {
    let case = Case {
        read_fails: 1,
        status: 5,
        out: "",
        err,
        ..RUN
    };
    check_with(rt, alloc, &case, Some(file))
}

#[test]
fn faulty_programs(rt: HostRuntime) -> Result<(), Fail> {
    for changed in CHANGED {
        let file = bytes_of(rt.alloc(), changed)?;
        check_refused(&rt, rt.alloc(), file, changed.4)?;
    }
    let many = with_particles(rt.alloc(), 65)?;
    check_refused(&rt, rt.alloc(), many, "program: line 67: Row\n")?;
    let most = with_particles(rt.alloc(), 64)?;
    check_refused(&rt, rt.alloc(), most, "program: line 67: Legs\n")
}
