//! The text of the answer to an event.
ghost use Rattle.std.specs.Prelude.{◌≡◌, ◌+◌, ◌<◌, ◌≤◌, ◌^◌, ◌++◌, [], length, flat_map, decimal, codes, OnErr, OnOk, Some};
ghost use Rattle.om_io.specs.Bytes.{AppendsPrefix, after_told};
ghost use Rattle.om_io.specs.Causes.{HasCause};
ghost use Rattle.om_io.specs.declared.buffer.TheConstants.{ROOM_BYTES};
ghost use Rattle.om_ring.specs.declared.line.TheConstants.{LINE_BYTES};
ghost use Rattle.om_code.specs.Meaning.{edge_of_den};
ghost use Rattle.om_code.specs.declared.code.Den.{Den as DenOf};
ghost use Rattle.om_emit.specs.EmittedAnswer.{answer_with, with_sums};
ghost use Rattle.om_machine.specs.Loaded.{answer_of};
ghost use Rattle.om_machine.specs.declared.answer.Outcome.TheVariants.{Values};
ghost use Rattle.om_model.specs.Answer.Answer.{values};
ghost use Rattle.om_io.specs.Writing.{Writes, outlet};
ghost use Rattle.om_top.specs.AnswerText.{answer_line, answer_text, pair_line, pole_line};

use om_code::Code;
use om_colour::{Flow, flow_text};
use om_io::{Failed, Sink, flush, make_room, write_all};
use om_legs::LegSet;
use om_machine::{Machine, Outcome};
use om_model::{field_name, push_leg_set};
use om_ring::{Line, Ring};

/// Writes the lines of the answer to event number `number`, which is what the machine answered last.
pub(crate) fn write_answer<R: Ring, O: Sink>(
    ring: &R,
    machine: &Machine<R::E>,
    number: u32,
    outcome: Outcome,
    out: &mut O,
) -> Result<(), Failed>
    requires last { machine.now.outcome ≡ Some outcome }
    requires few { length machine.now.code.flows < 2 ^ 32 }
    ensures ok { let m = machine.now in
        OnOk result (O.written out.new ≡ after_told (O.written out.old) (answer_text (R.text ring.now) m.code.model number (answer_with m.code.flows (answer_of outcome m.sums)))) }
    ensures err { let m = machine.now in
        OnErr result (AppendsPrefix (O.written out.old) (O.written out.new) (answer_text (R.text ring.now) m.code.model number (answer_with m.code.flows (answer_of outcome m.sums)))) }
    ensures cause { HasCause (O.faults out.old) (O.faults out.new) result }
{
    match outcome {
        Outcome::Values => write_values(ring, machine, number, out),
        Outcome::Pole { legs, field } => {
            let mut line = Line::new();
            push_pole(machine.code(), number, legs, field, &mut line);
            write_all(out, line.bytes())
        }
        Outcome::Unbalanced => {
            let mut line = Line::new();
            push_unbalanced(number, &mut line);
            write_all(out, line.bytes())
        }
    }
}

// Writes a line for each flow.
fn write_values<R: Ring, O: Sink>(
    ring: &R,
    machine: &Machine<R::E>,
    number: u32,
    out: &mut O,
) -> Result<(), Failed>
    requires last { machine.now.outcome ≡ Some Values }
    requires few { length machine.now.code.flows < 2 ^ 32 }
    ensures ok { let m = machine.now in
        OnOk result (O.written out.new ≡ after_told (O.written out.old) (answer_text (R.text ring.now) m.code.model number (values (with_sums m.code.flows m.sums)))) }
    ensures err { let m = machine.now in
        OnErr result (AppendsPrefix (O.written out.old) (O.written out.new) (answer_text (R.text ring.now) m.code.model number (values (with_sums m.code.flows m.sums)))) }
    ensures cause { HasCause (O.faults out.old) (O.faults out.new) result }
{
    let mut line = Line::new();
    write_lines(ring, machine, number, out, &mut line)?;
    flush(out, &mut line)
}

// Writes the lines of all flows through a buffer, so that an answer of many flows takes few writes.
fn write_lines<R: Ring, O: Sink>(
    ring: &R,
    machine: &Machine<R::E>,
    number: u32,
    out: &mut O,
    line: &mut Line,
) -> Result<(), Failed>
    requires last { machine.now.outcome ≡ Some Values }
    requires few { length machine.now.code.flows < 2 ^ 32 }
    ensures { let m = machine.now in
        Writes (outlet (O.written out.old) (O.faults out.old) line.old) (outlet (O.written out.new) (O.faults out.new) line.new) (flat_map (pair_line (R.text ring.now) number) (with_sums m.code.flows m.sums)) result }
{
    for (k, flow) in machine.code().flows.as_slice().iter().enumerate() {
        write_value(ring, number, flow, machine.value(k as u32), out, line)?;
    }
    Ok(())
}

fn write_value<R: Ring, O: Sink>(
    ring: &R,
    number: u32,
    flow: &Flow,
    value: R::E,
    out: &mut O,
    line: &mut Line,
) -> Result<(), Failed>
    ensures { Writes (outlet (O.written out.old) (O.faults out.old) line.old) (outlet (O.written out.new) (O.faults out.new) line.new) (pair_line (R.text ring.now) number (flow.now.ends, value)) result }
{
    make_room(out, line)?;
    push_value(ring, number, flow, value, line);
    Ok(())
}

// Appends the line of a flow.
fn push_value<R: Ring>(ring: &R, number: u32, flow: &Flow, value: R::E, line: &mut Line)
    requires { length line.old + ROOM_BYTES ≤ LINE_BYTES }
    ensures { line.new ≡ line.old ++ pair_line (R.text ring.now) number (flow.now.ends, value) }
{
    push_start(number, line);
    flow_text(flow, line);
    line.push(b" ");
    ring.show(value, line);
    line.push(b"\n");
}

// Appends the line of a denominator without inverse.
fn push_pole(code: &Code, number: u32, legs: LegSet, field: u16, line: &mut Line)
    requires { line.old ≡ [] }
    ensures { let d : DenOf = record { legs = legs; field = field } in line.new ≡ answer_line number (pole_line code.now.model (edge_of_den d)) }
{
    push_start(number, line);
    line.push(b"pole ");
    push_leg_set(legs, line);
    line.push(b" ");
    line.push(field_name(code.model.particles.as_slice(), field));
    line.push(b"\n");
}

// Appends the line of an event whose momenta don't add up to zero.
fn push_unbalanced(number: u32, line: &mut Line)
    requires { line.old ≡ [] }
    ensures { line.new ≡ answer_line number (codes "unbalanced") }
{
    push_start(number, line);
    line.push(b"unbalanced\n");
}

// Appends the number of an event and a space.
fn push_start(number: u32, line: &mut Line)
    requires { length line.old + ROOM_BYTES ≤ LINE_BYTES }
    ensures value { line.new ≡ line.old ++ (decimal number ++ codes " ") }
    ensures short { length line.new ≤ length line.old + 21 }
{
    line.push_number(u64::from(number));
    line.push(b" ");
}
