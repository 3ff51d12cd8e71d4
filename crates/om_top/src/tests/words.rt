//! Words that have the form of a command, and words that don't.
use super::case::{Case, FOUR, USAGE, check_cases};
use std::test::Fail;

const NO_USAGE: Case = Case {
    read_fails: 1,
    status: 2,
    out: "",
    err: USAGE,
    ..FOUR
};

const CASES: &[Case] = &[
    Case {
        words: &[],
        ..NO_USAGE
    },
    Case {
        words: &["check"],
        ..NO_USAGE
    },
    Case {
        words: &["eval", "model.toml"],
        ..NO_USAGE
    },
    Case {
        words: &["run", "model.toml", "phi -> phi phi"],
        ..NO_USAGE
    },
    Case {
        words: &["eval", "model.toml", "phi -> phi phi", "more"],
        ..NO_USAGE
    },
    Case {
        words: &["sample", "1", "2"],
        ..NO_USAGE
    },
    Case {
        words: &["sample", "1", "13"],
        ..NO_USAGE
    },
    Case {
        words: &["sample", "01", "4"],
        ..NO_USAGE
    },
    Case {
        words: &["sample", "18446744073709551616", "4"],
        ..NO_USAGE
    },
    Case {
        words: &["sample", "+1", "4"],
        ..NO_USAGE
    },
    Case {
        words: &[],
        err_fails: 1,
        err: "",
        ..NO_USAGE
    },
];

#[test]
fn words(rt: HostRuntime) -> Result<(), Fail> {
    check_cases(&rt, rt.alloc(), CASES)
}
