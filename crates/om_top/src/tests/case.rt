//! One run over objects in memory.
use super::models::PHI3;
use crate::{run, within_limits};
use om_io::{MemFolder, MemSink, MemSource};
use om_ring::{Book, Steps, Zp};
use std::alloc::Global;
use std::process::Abort;
use std::test::Fail;

pub(crate) const USAGE: &str =
    "usage: omega check MODEL, eval MODEL PROCESS, compile MODEL PROCESS, run PROGRAM, graph MODEL PROCESS, sample SEED LEGS\n";

/// A run, and what it has to leave.
#[derive(Clone, Copy)]
pub(crate) struct Case {
    pub words: &'static [&'static str],
    /// The file model.toml, where it is there: so many copies of one text and an end.
    pub file: Option<&'static str>,
    pub copies: usize,
    pub end: &'static str,
    pub input: &'static str,
    /// How many bytes a read gives at most.
    pub cut: usize,
    /// The numbers of the calls that fail, or 0.
    pub file_fails: u64,
    pub read_fails: u64,
    pub write_fails: u64,
    pub err_fails: u64,
    pub room: usize,
    pub status: u8,
    pub out: &'static str,
    pub err: &'static str,
}

/// Two particles to two, where all goes well.
pub(crate) const FOUR: Case = Case {
    words: &["eval", "model.toml", "phi phi -> phi phi"],
    file: Some(PHI3),
    copies: 1,
    end: "",
    input: "1 1 0 0 0 1\n2 1 0 0 0 1\n3 1 0 0 0 1\n4 -3 0 0 0 1\n",
    cut: 1000,
    file_fails: 0,
    read_fails: 0,
    write_fails: 0,
    err_fails: 0,
    room: 1000,
    status: 0,
    out: "1 - 18446532963182051329\n",
    err: "",
};

fn texts(alloc: Global, words: &[&str]) -> Result<Vec<String>, Fail> {
    let mut texts = Vec::new(alloc);
    for word in words {
        texts.push(String::from_str(alloc, word)?)?;
    }
    Ok(texts)
}

fn repeated(alloc: Global, text: &str, copies: usize, end: &str) -> Result<Vec<u8>, Fail> {
    let mut bytes = Vec::new(alloc);
    for _ in 0..copies {
        bytes.extend_from_slice(text.as_bytes())?;
    }
    bytes.extend_from_slice(end.as_bytes())?;
    Ok(bytes)
}

fn sink(alloc: Global, room: usize, fails: u64) -> Result<MemSink, Fail> {
    match MemSink::new(alloc, room, vec![in alloc; fails]?) {
        Ok(sink) => Ok(sink),
        Err(_) => Err(Fail::from("no room")),
    }
}

/// Each case leaves what it has to.
pub(crate) fn check_cases(rt: &impl Abort, alloc: Global, cases: &[Case]) -> Result<(), Fail> {
    for case in cases {
        check_case(rt, alloc, case)?;
    }
    Ok(())
}

fn check_case(rt: &impl Abort, alloc: Global, case: &Case) -> Result<(), Fail> {
    let file = match case.file {
        Some(text) => Some(repeated(alloc, text, case.copies, case.end)?),
        None => None,
    };
    check_with(rt, alloc, case, file)
}

/// The same with this file model.toml in place of the case's.
pub(crate) fn check_with(
    rt: &impl Abort,
    alloc: Global,
    case: &Case,
    file: Option<Vec<u8>>,
) -> Result<(), Fail> {
    let left = left_by(rt, alloc, case, file)?;
    assert_eq!(rt; left.out.bytes(), case.out.as_bytes());
    assert_eq!(rt; left.err.bytes(), case.err.as_bytes());
    assert_eq!(rt; left.status, case.status);
    Ok(())
}

/// What a run leaves.
#[derive(Drop)]
pub(crate) struct Left {
    pub status: u8,
    pub calls: u64,
    pub out: MemSink,
    pub err: MemSink,
}

/// What the run of a case leaves, with this file model.toml.
pub(crate) fn left_by(
    rt: &impl Abort,
    alloc: Global,
    case: &Case,
    file: Option<Vec<u8>>,
) -> Result<Left, Fail> {
    let words = texts(alloc, case.words)?;
    assert!(rt; within_limits(&words));
    let name = String::from_str(alloc, "model.toml")?;
    let mut files = MemFolder::new(name, file, vec![in alloc; case.file_fails]?);
    let bytes = case.input.as_bytes().to_vec(alloc)?;
    let mut input = MemSource::new(bytes, case.cut.max(1), vec![in alloc; case.read_fails]?);
    let mut out = sink(alloc, case.room, case.write_fails)?;
    let mut err = sink(alloc, 1000, case.err_fails)?;
    let mut steps = Steps::new(Book);
    let status = run(
        alloc, &Zp, &words, &mut files, &mut input, &mut out, &mut err, &mut steps,
    );
    Ok(Left {
        status,
        calls: steps.count(),
        out,
        err,
    })
}
