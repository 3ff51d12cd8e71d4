//! `eval`: the faults of processes, events and the outside, and what stands after them.
use super::case::{Case, FOUR, check_cases};
use super::models::MASSIVE;
use std::test::Fail;

// A process that is refused.
const NO_PROCESS: Case = Case {
    read_fails: 1,
    status: 4,
    out: "",
    ..FOUR
};

// An input that is refused.
const NO_EVENT: Case = Case {
    status: 6,
    out: "",
    ..FOUR
};

const CASES: &[Case] = &[
    Case {
        words: &["eval", "model.toml", "phi -> phi"],
        err: "process: 2 legs\n",
        ..NO_PROCESS
    },
    Case {
        words: &["eval", "model.toml", "phi phi"],
        err: "process: syntax at byte 7\n",
        ..NO_PROCESS
    },
    Case {
        words: &["eval", "model.toml", "phi -> phi chi"],
        err: "process: unknown name at byte 11\n",
        ..NO_PROCESS
    },
    Case {
        words: &[
            "eval",
            "model.toml",
            "phi phi phi phi phi phi phi phi phi phi phi phi -> phi",
        ],
        err: "process: 13 legs\n",
        ..NO_PROCESS
    },
    Case {
        words: &["eval", "model.toml", "phi phi -> phi phi / 1+2+3"],
        err: "process: edge at byte 21\n",
        ..NO_PROCESS
    },
    Case {
        words: &["eval", "model.toml", "phi phi -> phi phi / 2+1"],
        err: "process: syntax at byte 21\n",
        ..NO_PROCESS
    },
    Case {
        file: None,
        status: 7,
        err: "read fault: file\n",
        ..NO_PROCESS
    },
    Case {
        file: Some(MASSIVE),
        end: "1/0\"\n",
        status: 3,
        err: "model: BadNumber ZeroDen at particle 1\n",
        ..NO_PROCESS
    },
    Case {
        input: "",
        out: "",
        ..FOUR
    },
    Case {
        input: "1 1 0 0 0 1\n2 1 0 0 0 1\n3 1 0 0 0 1\n4 -3 0 0 0 1\n1 1 0 0 0 1\n2 1 0 0 0 1\n3 1 0 0 0 1\n4 -3 0 0 0 1",
        out: "1 - 18446532963182051329\n",
        err: "events: event 2 line 4: Cut\n",
        ..NO_EVENT
    },
    Case {
        input: "x",
        err: "events: event 1 line 1: Cut\n",
        ..NO_EVENT
    },
    Case {
        input: "x\n",
        err: "events: event 1 line 1: Count\n",
        ..NO_EVENT
    },
    Case {
        input: "1 1 0 0 0 1\n2 1 0 0 0 1\n3 1 0 0 0 01\n4 -3 0 0 0 1\n",
        err: "events: event 1 line 3: BadNumeral\n",
        ..NO_EVENT
    },
    Case {
        input: "1 1 0 0 0 1\n2 1 0 0 0 1\n4 1 0 0 0 1\n4 -3 0 0 0 1\n",
        err: "events: event 1 line 3: LegNumber\n",
        ..NO_EVENT
    },
    Case {
        input: "1 1 0 0 0 1\n2 1 0 0 0 1\n3 1  0 0 0 1\n4 -3 0 0 0 1\n",
        err: "events: event 1 line 3: Count\n",
        ..NO_EVENT
    },
    Case {
        input: "1 1 0 0 0 1\n2 1 0 0 0 1\n3 1 0 0 0 1/18446744069414584321\n4 -3 0 0 0 1\n",
        err: "events: event 1 line 3: NoInverse\n",
        ..NO_EVENT
    },
    Case {
        input: "1 1 0 0 0 1\n2 1 0 0 0 1\n3 1 0 0 0 1111111111111111111111111111111111111111111111111111111111111111111111111111111111111111111111111111111111111111111111111111111111111111111111111111111111111111111111111111111111111111111111111111111111111111111111111111111111111111111111111111111111111111111111111111111111111111111111111111111111111111111111111111111111111111111111111111111111111111111111111111111111111111111111111111111111111111111111111111111111111111111111111111111111111111111111111111111111111111111111111111111111111111111111\n4 -3 0 0 0 1\n",
        err: "events: event 1 line 3: TooLong\n",
        ..NO_EVENT
    },
    Case {
        cut: 20,
        read_fails: 2,
        status: 7,
        err: "read fault: input\n",
        ..NO_EVENT
    },
    Case {
        input: "1 1 0 0 0 1\n2 1 0 0 0 1\n3 1 0 0 0 1\n4 -3 0 0 0 1\n1 1 0 0 0 1\n2 1 0 0 0 1\n3 1 0 0 0 1\n4 -3 0 0 0 1\n",
        cut: 20,
        read_fails: 4,
        status: 7,
        out: "1 - 18446532963182051329\n",
        err: "read fault: input\n",
        ..FOUR
    },
    Case {
        input: "1 1 0 0 0 1\n2 1 0 0 0 1\n3 1 0 0 0 1\n4 -3 0 0 0 1\n1 1 0 0 0 1\n2 1 0 0 0 1\n3 1 0 0 0 1\n4 -3 0 0 0 1\n1 1 0 0 0 1\n2 1 0 0 0 1\n3 1 0 0 0 1\n4 -3 0 0 0 1\n1 1 0 0 0 1\n2 1 0 0 0 1\n3 1 0 0 0 1\n4 -3 0 0 0 1\n1 1 0 0 0 1\n2 1 0 0 0 1\n3 1 0 0 0 1\n4 -3 0 0 0 1\n",
        out: "1 - 18446532963182051329\n2 - 18446532963182051329\n3 - 18446532963182051329\n4 - 18446532963182051329\n5 - 18446532963182051329\n",
        ..FOUR
    },
    Case {
        input: "1 1 0 0 0 1\n2 1 0 0 0 1\n3 1 0 0 0 1\n4 -3 0 0 0 1\n1 1 0 0 0 1\n2 1 0 0 0 1\n3 1 0 0 0 1\n4 -3 0 0 0 1\n1 1 0 0 0 1\n2 1 0 0 0 1\n3 1 0 0 0 1\n4 -3 0 0 0 1\n1 1 0 0 0 1\n2 1 0 0 0 1\n3 1 0 0 0 1\n4 -3 0 0 0 1\n1 1 0 0 0 1\n2 1 0 0 0 1\n3 1 0 0 0 1\n4 -3 0 0 0 1\n",
        room: 40,
        status: 8,
        out: "1 - 18446532963182051329\n2 - 18446532963",
        err: "write fault\n",
        ..FOUR
    },
    Case {
        input: "1 1 0 0 0 1\n2 1 0 0 0 1\n3 1 0 0 0 1\n4 -3 0 0 0 1\n1 1 0 0 0 1\n2 1 0 0 0 1\n3 1 0 0 0 1\n4 -3 0 0 0 1\n1 1 0 0 0 1\n2 1 0 0 0 1\n3 1 0 0 0 1\n4 -3 0 0 0 1\n1 1 0 0 0 1\n2 1 0 0 0 1\n3 1 0 0 0 1\n4 -3 0 0 0 1\n1 1 0 0 0 1\n2 1 0 0 0 1\n3 1 0 0 0 1\n4 -3 0 0 0 1\n",
        write_fails: 3,
        status: 8,
        out: "1 - 18446532963182051329\n2 - 18446532963182051329\n",
        err: "write fault\n",
        ..FOUR
    },
];

#[test]
fn eval_faults(rt: HostRuntime) -> Result<(), Fail> {
    check_cases(&rt, rt.alloc(), CASES)
}
