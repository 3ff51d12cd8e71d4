//! `graph`: listings.
use super::case::{Case, FOUR, check_cases};
use super::models::{PHI3, QED};
use std::test::Fail;

const LISTING: &str = "graph nodes 11 fusions 6 keystones 6 flows 1
flow 1 -
node 1 1 e- -
node 2 2 e+ -
node 3 3 A -
node 4 4 A -
node 5 5 A -
node 6 1+3 e- -
fusion 6 + 1 0 1 3
node 7 2+3 e+ -
fusion 7 + 1 0 2 3
node 8 1+4 e- -
fusion 8 + 1 0 1 4
node 9 2+4 e+ -
fusion 9 + 1 0 2 4
node 10 1+5 e- -
fusion 10 + 1 0 1 5
node 11 2+5 e+ -
fusion 11 + 1 0 2 5
keystone 1 - 1 0 6 9 5
keystone 1 - 1 0 6 11 4
keystone 1 - 1 0 8 7 5
keystone 1 - 1 0 8 11 3
keystone 1 - 1 0 10 7 4
keystone 1 - 1 0 10 9 3
";

const GRAPH: Case = Case {
    words: &["graph", "model.toml", "e- e+ -> A A A"],
    file: Some(QED),
    read_fails: 1,
    out: LISTING,
    ..FOUR
};

const CASES: &[Case] = &[
    GRAPH,
    Case {
        words: &["graph", "model.toml", "e- e- -> mu- mu+"],
        out: "graph nodes 0 fusions 0 keystones 0 flows 0\n",
        ..GRAPH
    },
    Case {
        room: 40,
        status: 8,
        out: "graph nodes 11 fusions 6 keystones 6 flo",
        err: "write fault\n",
        ..GRAPH
    },
    Case {
        words: &["graph", "model.toml", "phi -> phi chi"],
        file: Some(PHI3),
        status: 4,
        out: "",
        err: "process: unknown name at byte 11\n",
        ..GRAPH
    },
    Case {
        file_fails: 1,
        status: 7,
        out: "",
        err: "read fault: file\n",
        ..GRAPH
    },
];

#[test]
fn graph(rt: HostRuntime) -> Result<(), Fail> {
    check_cases(&rt, rt.alloc(), CASES)
}
