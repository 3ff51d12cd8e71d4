//! What a run counts is what the calls that it is made of count together.
ghost use Rattle.std.specs.Prelude.{◌<◌, IfOk};
ghost use Rattle.om_ring.specs.ZpOps.{zp};
ghost use Rattle.om_model.specs.ProcessOf.{IsProcessOf};
ghost use Rattle.om_model.specs.Rules.{IsAccepted};
ghost use Rattle.om_model.specs.WellFormed.{IsWellFormed};
ghost use Rattle.om_graph.specs.Reactions.{reaction_of};
ghost use Rattle.om_keystone.specs.CanonicalGraph.{IsCanonicalOf};
ghost use Rattle.om_machine.specs.Machines.{KeepsInverses};

use super::case::{Case, left_by};
use super::eval::{CURRENTS, TEN};
use crate::words::WORD_LIMIT;
use om_emit::emit;
use om_event::{Next, Reader};
use om_graph::build;
use om_io::MemSource;
use om_keystone::{Pruned, prune};
use om_machine::{Event, Machine, load};
use om_model::{Model, Process, read_process};
use om_modelfile::read_model;
use om_ring::{Book, Elem, Steps, Zp};
use std::alloc::Global;
use std::process::Abort;
use std::test::Fail;

fn model_of(alloc: Global, text: &str, steps: &mut Steps<Book>) -> Result<Model, Fail>
    ensures accepted { IfOk result (IsAccepted zp) }
    ensures formed { IfOk result IsWellFormed }
{
    match read_model(alloc, &Zp, text.as_bytes(), steps) {
        Ok(model) => Ok(model),
        Err(_) => Err(Fail::from("no model")),
    }
}

fn process_of(alloc: Global, model: &Model, text: &str) -> Result<Process, Fail>
    requires accepted { IsAccepted zp model.now }
    ensures process { IfOk result (λ p. IsProcessOf model.now p) }
{
    if text.len() >= WORD_LIMIT {
        return Err(Fail::from("too long a process"));
    }
    match read_process(alloc, model, text.as_bytes()) {
        Ok(process) => Ok(process),
        Err(_) => Err(Fail::from("no process")),
    }
}

fn graph_of(alloc: Global, model: &Model, process: &Process) -> Result<Pruned, Fail>
    requires formed { IsWellFormed model.now }
    requires process { IsProcessOf model.now process.now }
    ensures canonical { IfOk result (λ g. IsCanonicalOf (reaction_of model.now process.now) g) }
{
    let Ok(graph) = build(alloc, model, process) else {
        return Err(Fail::from("no graph"));
    };
    match prune(alloc, model, process, graph) {
        Ok(pruned) => Ok(pruned),
        Err(_) => Err(Fail::from("no memory")),
    }
}

fn machine_of(
    alloc: Global,
    model: &Model,
    process: &Process,
    graph: &Pruned,
    steps: &mut Steps<Book>,
) -> Result<Machine<Elem>, Fail>
    requires formed { IsWellFormed model.now }
    requires process { IsProcessOf model.now process.now }
    requires canonical { IsCanonicalOf (reaction_of model.now process.now) graph.now }
    ensures kept { IfOk result (λ m. KeepsInverses zp m.code m.masses) }
{
    let Ok(code) = emit(alloc, model, process, graph) else {
        return Err(Fail::from("no code"));
    };
    match load(alloc, &Zp, code, steps) {
        Ok(machine) => Ok(machine),
        Err(_) => Err(Fail::from("no machine")),
    }
}

// Answers the one event of a text.
fn answer_one(
    alloc: Global,
    machine: &mut Machine<Elem>,
    text: &str,
    steps: &mut Steps<Book>,
) -> Result<(), Fail>
    requires kept { KeepsInverses zp machine.old.code machine.old.masses }
{
    let Ok(mut event) = Event::new(alloc, &Zp, machine.code()) else {
        return Err(Fail::from("no memory"));
    };
    let mut reader = Reader::new(machine.code());
    let mut input = MemSource::new(text.as_bytes().to_vec(alloc)?, 1000, Vec::new(alloc));
    let Next::Event = reader.next(&Zp, &mut input, &mut event, steps) else {
        return Err(Fail::from("no event"));
    };
    machine.evaluate(&Zp, &event, steps);
    match reader.next(&Zp, &mut input, &mut event, steps) {
        Next::End => Ok(()),
        _ => Err(Fail::from("no end")),
    }
}

// Answers the one event of a text by the machine of a graph.
fn answer_graph(
    alloc: Global,
    model: &Model,
    process: &Process,
    graph: &Pruned,
    text: &str,
    steps: &mut Steps<Book>,
) -> Result<(), Fail>
    requires formed { IsWellFormed model.now }
    requires process { IsProcessOf model.now process.now }
    requires canonical { IsCanonicalOf (reaction_of model.now process.now) graph.now }
{
    let mut machine = machine_of(alloc, model, process, graph, steps)?;
    answer_one(alloc, &mut machine, text, steps)
}

// The same for the process of a model that another text is.
fn answer_process(
    alloc: Global,
    model: &Model,
    process: &str,
    text: &str,
    steps: &mut Steps<Book>,
) -> Result<(), Fail>
    requires accepted { IsAccepted zp model.now }
    requires formed { IsWellFormed model.now }
{
    let process = process_of(alloc, model, process)?;
    let graph = graph_of(alloc, model, &process)?;
    answer_graph(alloc, model, &process, &graph, text, steps)
}

// How many calls the parts of a run of `eval` make.
fn calls_of_parts(alloc: Global, file: &str, process: &str, text: &str) -> Result<u64, Fail> {
    let mut steps = Steps::new(Book);
    let model = model_of(alloc, file, &mut steps)?;
    answer_process(alloc, &model, process, text, &mut steps)?;
    Ok(steps.count())
}

fn check_calls(
    rt: &impl Abort,
    alloc: Global,
    case: &Case,
    fewest: u64,
    most: u64,
) -> Result<(), Fail> {
    let [_, _, process] = case.words else {
        return Err(Fail::from("no process in the words"));
    };
    let Some(file) = case.file else {
        return Err(Fail::from("no file"));
    };
    let calls = left_by(rt, alloc, case, Some(file.as_bytes().to_vec(alloc)?))?.calls;
    assert_eq!(rt; calls, calls_of_parts(alloc, file, process, case.input)?);
    assert!(rt; fewest <= calls);
    assert!(rt; calls <= most);
    Ok(())
}

#[test]
fn calls(rt: HostRuntime) -> Result<(), Fail> {
    let alloc = rt.alloc();
    check_calls(&rt, alloc, &CURRENTS, 1, 100_000)?;
    // one call at least for each of the 9,330 fusions and keystones
    check_calls(&rt, alloc, &TEN, 9_330, 400 * 2 + 9_851_000 + 320)
}
