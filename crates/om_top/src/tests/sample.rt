//! `sample`: its line, worked out apart.
use super::case::{Case, FOUR, check_cases};
use std::test::Fail;

const SAMPLE: Case = Case {
    words: &["sample", "1", "3"],
    file: None,
    file_fails: 1,
    read_fails: 1,
    out: "sample legs 3 events 200 poles 0 sum 8452268467875381891\n",
    ..FOUR
};

const CASES: &[Case] = &[
    SAMPLE,
    Case {
        words: &["sample", "1", "4"],
        out: "sample legs 4 events 200 poles 0 sum 1501185831527272203\n",
        ..SAMPLE
    },
    Case {
        words: &["sample", "1", "5"],
        out: "sample legs 5 events 200 poles 0 sum 18079925333832091041\n",
        ..SAMPLE
    },
    Case {
        words: &["sample", "0", "3"],
        out: "sample legs 3 events 200 poles 0 sum 14460654278478884726\n",
        ..SAMPLE
    },
    Case {
        words: &["sample", "18446744073709551615", "3"],
        out: "sample legs 3 events 200 poles 0 sum 15989417107286011328\n",
        ..SAMPLE
    },
    Case {
        room: 20,
        status: 8,
        out: "sample legs 3 events",
        err: "write fault\n",
        ..SAMPLE
    },
];

#[test]
fn sample(rt: HostRuntime) -> Result<(), Fail> {
    check_cases(&rt, rt.alloc(), CASES)
}
