//! `omega`: tree scattering amplitudes in exact arithmetic.
#![tactic(auto)]

use om_io::{StdFolder, StdSink, StdSource};
use om_ring::{Book, Steps, Zp};
use std::process::ExitCode;
use std::rt::Env;
use std::{env, io};

// Hands the words, the machine's files and its three streams to the top call, and ends with its status. The status is 1 where
// the system refuses the words.
fn main(rt: HostRuntime) -> ExitCode {
    let Ok(words) = words(&rt) else {
        return ExitCode::from(1);
    };
    let mut err = StdSink::new(rt.stderr());
    if !om_top::within_limits(&words) {
        return ExitCode::from(om_top::refuse_words(&mut err));
    }
    let name = match words.get(1) {
        Some(name) => name.as_str(),
        None => "",
    };
    let mut files = StdFolder::new(&rt, name);
    let mut input = StdSource::new(rt.stdin());
    let mut out = StdSink::new(rt.stdout());
    let mut steps = Steps::new(Book);
    let alloc = rt.alloc();
    ExitCode::from(om_top::run(
        alloc, &Zp, &words, &mut files, &mut input, &mut out, &mut err, &mut steps,
    ))
}

// The words after the program's name.
fn words<R: Env + AllocGlobal>(rt: &R) -> io::Result<Vec<String>> {
    let mut words = Vec::new(rt.alloc());
    for word in env::args(rt)?.skip(1) {
        words.push(word)?;
    }
    Ok(words)
}
