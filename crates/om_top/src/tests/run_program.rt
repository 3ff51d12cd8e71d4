//! `run`: answers by a program.
use super::case::{Case, FOUR, check_cases};
use super::programs::{CURRENTS, CURRENTS_IN_SLOTS, NO_FLOW, SCALARS, SCALARS_IN_SLOTS};
use std::test::Fail;

/// Two particles to two.
pub(crate) const RUN: Case = Case {
    words: &["run", "model.toml"],
    file: Some(SCALARS),
    ..FOUR
};

// Two currents of spinors.
const SPINORS: Case = Case {
    file: Some(CURRENTS),
    input: "1 1 0 0 0 0 0 1 0\n2 1 0 0 0 1 0 0 0\n3 1 0 0 0 0 1 0 0\n4 -3 0 0 0 0 0 0 1\n",
    out: "1 - 18446603331926228993\n",
    ..RUN
};

const CASES: &[Case] = &[
    RUN,
    SPINORS,
    Case {
        file: Some(SCALARS_IN_SLOTS),
        ..RUN
    },
    Case {
        file: Some(CURRENTS_IN_SLOTS),
        ..SPINORS
    },
    Case { cut: 1, ..RUN },
    Case {
        file: Some(NO_FLOW),
        read_fails: 1,
        out: "no amplitude\n",
        ..RUN
    },
    Case {
        input: "1 1 0 0 0 1\n2 1 0 0 0 1\n3 -1 0 0 0 1\n4 -1 0 0 0 1\n1 1 0 0 0 1\n2 1 0 0 0 1\n3 1 0 0 0 1\n4 -4 0 0 0 1\n1 1 0 0 0 1\n2",
        status: 6,
        out: "1 pole 2+3 phi\n2 unbalanced\n",
        err: "events: event 3 line 2: Cut\n",
        ..RUN
    },
    Case {
        file: None,
        status: 7,
        out: "",
        err: "read fault: file\n",
        ..RUN
    },
    Case {
        read_fails: 1,
        status: 7,
        out: "",
        err: "read fault: input\n",
        ..RUN
    },
    Case {
        write_fails: 1,
        status: 8,
        out: "",
        err: "write fault\n",
        ..RUN
    },
];

#[test]
fn run_program(rt: HostRuntime) -> Result<(), Fail> {
    check_cases(&rt, rt.alloc(), CASES)
}
