//! What no clause says: that memory is found, and worked numbers.

use crate::{Generator, Sums, read_legs, sample_model, sample_process, write_sample};
use om_io::MemSink;
use om_ring::{Ring, Zp};

#[test]
fn draws(rt: HostRuntime) {
    let mut generator = Generator { state: 1 };
    for number in [27_735, 33_384, 42_490, 25_091, 52_130] {
        assert_eq!(rt; generator.draw(), number);
    }
}

#[test]
fn model_and_process(rt: HostRuntime) {
    let model = sample_model(rt.alloc());
    assert!(rt; model.is_ok());
    let process = sample_process(rt.alloc(), 12);
    assert!(rt; process.is_ok());
}

const WORDS: [(&str, Option<u8>); 9] = [
    ("3", Some(3)),
    ("9", Some(9)),
    ("10", Some(10)),
    ("12", Some(12)),
    ("2", None),
    ("13", None),
    ("03", None),
    ("+3", None),
    ("", None),
];

#[test]
fn numbers_of_legs(rt: HostRuntime) {
    for (word, legs) in WORDS {
        assert_eq!(rt; read_legs(word.as_bytes()), legs, "{word}");
    }
}

const LINE: &str = "sample legs 12 events 200 poles 3 sum 281474976710656\n";

#[test]
fn line(rt: HostRuntime) {
    let sums = Sums {
        poles: 3,
        total: Zp.imag(),
    };
    let mut sink = MemSink::new(rt.alloc(), 100, Vec::new(rt.alloc())).expect(&rt, "room");
    assert!(rt; write_sample(&Zp, 12, &sums, &mut sink).is_ok());
    assert_eq!(rt; sink.bytes(), LINE.as_bytes());
    let mut short = MemSink::new(rt.alloc(), 20, Vec::new(rt.alloc())).expect(&rt, "room");
    assert!(rt; write_sample(&Zp, 12, &sums, &mut short).is_err());
    assert_eq!(rt; short.bytes(), &LINE.as_bytes()[..20]);
}
