//! `eval`: answers, and processes without any.
use super::case::{Case, FOUR, check_cases};
use super::models::{CS, PHI3M, PHI34, QCD, QED, SZ, YUK};
use std::test::Fail;

// One particle to two.
const THREE: Case = Case {
    words: &["eval", "model.toml", "phi -> phi phi"],
    input: "1 1 0 0 0 1\n2 1 0 0 0 1\n3 -2 0 0 0 1\n",
    out: "1 - 281474976710656\n",
    ..FOUR
};

/// Two massive particles to eight, at rest.
pub(super) const TEN: Case = Case {
    words: &[
        "eval",
        "model.toml",
        "phi phi -> phi phi phi phi phi phi phi phi",
    ],
    file: Some(PHI3M),
    input: "1 0 0 0 0 1\n2 0 0 0 0 1\n3 0 0 0 0 1\n4 0 0 0 0 1\n5 0 0 0 0 1\n6 0 0 0 0 1\n7 0 0 0 0 1\n8 0 0 0 0 1\n9 0 0 0 0 1\n10 0 0 0 0 1\n",
    out: "1 - 17154492584479948770\n",
    ..FOUR
};

/// Two currents of spinors.
pub(super) const CURRENTS: Case = Case {
    words: &["eval", "model.toml", "e- e+ -> mu- mu+"],
    file: Some(QED),
    input: "1 1 0 0 0 0 0 1 0\n2 1 0 0 0 1 0 0 0\n3 1 0 0 0 0 1 0 0\n4 -3 0 0 0 0 0 0 1\n",
    out: "1 - 18446603331926228993\n",
    ..FOUR
};

const CASES: &[Case] = &[
    THREE,
    FOUR,
    Case { cut: 1, ..FOUR },
    Case {
        file: Some(PHI34),
        out: "1 - 70368744177664\n",
        ..FOUR
    },
    Case {
        input: "1 1 0 0 0 1\n2 1 0 0 0 1\n3 -1 0 0 0 1\n4 -1 0 0 0 1\n",
        out: "1 pole 2+3 phi\n",
        ..FOUR
    },
    Case {
        input: "1 1 0 0 0 1\n2 1 0 0 0 1\n3 1 0 0 0 1\n4 -4 0 0 0 1\n1 1 0 0 0 1\n2 1 0 0 0 1\n3 1 0 0 0 1\n4 -3 0 0 0 1\n",
        out: "1 unbalanced\n2 - 18446532963182051329\n",
        ..FOUR
    },
    CURRENTS,
    Case {
        words: &["eval", "model.toml", "e- e+ -> e- e+"],
        out: "1 - 18446462594437873665\n",
        ..CURRENTS
    },
    Case {
        words: &["eval", "model.toml", "e- e- -> mu- mu+"],
        read_fails: 1,
        out: "no amplitude\n",
        ..CURRENTS
    },
    Case {
        words: &["eval", "model.toml", "q q~ -> Q Q~"],
        file: Some(QCD),
        out: "1 1>2,4>3 6148961602300979883\n1 1>3,4>2 18446603331926228993\n",
        ..CURRENTS
    },
    Case {
        words: &["eval", "model.toml", "g -> g g"],
        file: Some(QCD),
        input: "1 1 0 0 0 0 1 0 0\n2 2 0 0 0 0 1 0 0\n3 -3 0 0 0 1 0 0 0\n",
        out: "1 1>2,2>3,3>1 281474976710656\n1 1>3,2>1,3>2 18446462594437873665\n",
        ..FOUR
    },
    Case {
        words: &["eval", "model.toml", "f s -> f s"],
        file: Some(YUK),
        input: "1 1 0 0 0 0 0 1 0\n2 2 0 0 0 1\n3 2 0 0 0 1 0 0 0\n4 -5 0 0 0 1\n",
        out: "1 - 4919162244966366140\n",
        ..FOUR
    },
    Case {
        words: &["eval", "model.toml", "a a~ -> b b~"],
        file: Some(SZ),
        input: "1 1 0 0 0 1\n2 2 0 0 0 1\n3 1 0 0 0 1\n4 -4 0 0 0 1\n",
        out: "1 - 18445336694531031041\n",
        ..FOUR
    },
    Case {
        words: &["eval", "model.toml", "a a~ -> a a"],
        file: Some(CS),
        read_fails: 1,
        out: "no amplitude\n",
        ..FOUR
    },
    Case {
        words: &["eval", "model.toml", "a a~ -> a a"],
        file: Some(CS),
        read_fails: 1,
        room: 2,
        status: 8,
        out: "no",
        err: "write fault\n",
        ..FOUR
    },
    Case {
        words: &["eval", "model.toml", "phi phi -> phi phi / 1+2"],
        file: Some(PHI34),
        out: "1 - 18446673700670406657\n",
        ..FOUR
    },
];

#[test]
fn eval(rt: HostRuntime) -> Result<(), Fail> {
    check_cases(&rt, rt.alloc(), CASES)
}

const LARGE: &[Case] = &[
    TEN,
    Case {
        words: &[
            "eval",
            "model.toml",
            "phi phi -> phi phi phi phi phi phi phi phi / 1+2",
        ],
        out: "1 - 1143632838965329918\n",
        ..TEN
    },
    Case {
        words: &[
            "eval",
            "model.toml",
            "phi phi -> phi phi phi phi phi phi phi phi / 1+2 / 1+3",
        ],
        read_fails: 1,
        out: "no amplitude\n",
        ..TEN
    },
    Case {
        words: &[
            "eval",
            "model.toml",
            "phi phi -> phi phi phi phi phi phi phi phi phi phi",
        ],
        input: "1 0 0 0 0 1\n2 0 0 0 0 1\n3 0 0 0 0 1\n4 0 0 0 0 1\n5 0 0 0 0 1\n6 0 0 0 0 1\n7 0 0 0 0 1\n8 0 0 0 0 1\n9 0 0 0 0 1\n10 0 0 0 0 1\n11 0 0 0 0 1\n12 0 0 0 0 1\n",
        out: "1 - 6877883962648156410\n",
        ..TEN
    },
];

#[test]
fn large_processes(rt: HostRuntime) -> Result<(), Fail> {
    check_cases(&rt, rt.alloc(), LARGE)
}
