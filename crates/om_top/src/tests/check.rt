//! `check`, and the faults of models.
use super::case::{Case, FOUR, check_cases};
use super::models::{MASSIVE, QED, SPIM, VSS};
use std::test::Fail;

// What stands in a model. The input isn't read.
const CHECK: Case = Case {
    words: &["check", "model.toml"],
    read_fails: 1,
    out: "model phi3 particles 1 vertices 1\n",
    ..FOUR
};

// A model that is refused.
const NO_MODEL: Case = Case {
    status: 3,
    out: "",
    ..CHECK
};

const CASES: &[Case] = &[
    CHECK,
    Case {
        file: Some(QED),
        out: "model qed particles 3 vertices 2\n",
        ..CHECK
    },
    Case {
        file: Some(MASSIVE),
        end: "-3/4i*2\"\n",
        out: "model phi3m particles 1 vertices 1\n",
        ..CHECK
    },
    Case {
        file: None,
        status: 7,
        out: "",
        err: "read fault: file\n",
        ..CHECK
    },
    Case {
        room: 9,
        status: 8,
        out: "model phi",
        err: "write fault\n",
        ..CHECK
    },
    Case {
        words: &["check", "other.toml"],
        err: "model: MissingKey at top 0\n",
        ..NO_MODEL
    },
    Case {
        file: Some("model = 'phi4'\n"),
        err: "model: MissingKey at top 0\n",
        ..NO_MODEL
    },
    Case {
        file: Some("phi3"),
        err: "model: NotToml\n",
        ..NO_MODEL
    },
    Case {
        copies: 2,
        err: "model: UnknownKey at vertex 1\n",
        ..NO_MODEL
    },
    Case {
        file: Some("#"),
        copies: 1_048_576,
        err: "model: MissingKey at top 0\n",
        ..NO_MODEL
    },
    Case {
        file: Some("#"),
        copies: 1_048_577,
        err: "model: too long\n",
        ..NO_MODEL
    },
    Case {
        file: Some(SPIM),
        err: "model: UnknownKey at particle 1\n",
        ..NO_MODEL
    },
    Case {
        file: Some(VSS),
        err: "model: NotSymmetric at vertex 1\n",
        ..NO_MODEL
    },
    Case {
        file: Some(MASSIVE),
        end: "1/18446744069414584321\"\n",
        err: "model: NoInverse at particle 1\n",
        ..NO_MODEL
    },
    Case {
        file: Some(MASSIVE),
        end: "18446744073709551616\"\n",
        err: "model: BadNumber TooBig at particle 1\n",
        ..NO_MODEL
    },
    Case {
        file: Some(MASSIVE),
        end: "1/0\"\n",
        err: "model: BadNumber ZeroDen at particle 1\n",
        ..NO_MODEL
    },
    Case {
        file: Some(MASSIVE),
        end: "1*0x\"\n",
        err: "model: BadNumber BadByte at particle 1\n",
        ..NO_MODEL
    },
    Case {
        file: Some(MASSIVE),
        end: "\"\n[[parameter]]\nname = 'm'\nvalue = ''\n",
        err: "model: BadNumber Empty at parameter 1\n",
        ..NO_MODEL
    },
];

#[test]
fn check(rt: HostRuntime) -> Result<(), Fail> {
    check_cases(&rt, rt.alloc(), CASES)
}
