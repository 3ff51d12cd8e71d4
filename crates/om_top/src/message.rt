//! The line that goes with each ending.
ghost use Rattle.std.specs.Prelude.{◌≡◌, []};
ghost use Rattle.om_top.specs.Message.{message_of, Told};
ghost use Rattle.om_top.specs.Outside.{side};

use crate::ending::Ending;
use crate::faults::{push_event_fault, push_model_fault, push_process_fault, push_program_fault};
use om_graph::MOST_TERMS;
use om_io::{Sink, write_all};
use om_ring::Line;

// Appends the line of an ending with its line feed; nothing for `Done`.
fn push_message(ending: Ending, line: &mut Line)
    requires { line.old ≡ [] }
    ensures { line.new ≡ message_of ending }
{
    match ending {
        Ending::Done => {}
        Ending::Usage => push_usage(line),
        Ending::ModelTooLong => line.push(b"model: too long\n"),
        Ending::ModelFault(fault) => {
            line.push(b"model: ");
            push_model_fault(fault, line);
            line.push(b"\n");
        }
        Ending::ProcessFault(fault) => {
            line.push(b"process: ");
            push_process_fault(fault, line);
            line.push(b"\n");
        }
        Ending::GraphTooLarge => {
            line.push(b"too large: more than ");
            line.push_number(MOST_TERMS as u64);
            line.push(b" terms\n");
        }
        Ending::ProgramTooLong => line.push(b"program: too long\n"),
        Ending::ProgramFault(fault) => {
            line.push(b"program: ");
            push_program_fault(fault, line);
            line.push(b"\n");
        }
        Ending::EventFault(fault) => {
            line.push(b"events: ");
            push_event_fault(fault, line);
            line.push(b"\n");
        }
        Ending::FileFault => line.push(b"read fault: file\n"),
        Ending::InputFault => line.push(b"read fault: input\n"),
        Ending::OutFault => line.push(b"write fault\n"),
        Ending::NoMemory => line.push(b"want of memory\n"),
    }
}

// Appends the usage line.
fn push_usage(line: &mut Line)
    requires { line.old ≡ [] }
    ensures { line.new ≡ message_of Ending.Usage }
{
    line.push(b"usage: omega check MODEL, eval MODEL PROCESS, compile MODEL PROCESS, ");
    line.push(b"run PROGRAM, graph MODEL PROCESS, sample SEED LEGS\n");
}

/// Writes the line of an ending to `err`. A fault here changes nothing.
pub(crate) fn report<E: Sink>(err: &mut E, ending: Ending)
    ensures { Told (side E.written E.faults err.old err.new) ending }
{
    let mut line = Line::new();
    push_message(ending, &mut line);
    let _ = write_all(err, line.bytes());
}
