//! The lines of flows.
ghost use Rattle.std.specs.Prelude.{◌≡◌, ◌+◌, ◌<◌, ◌^◌, ◌≤◌, ◌++◌, length};
ghost use Rattle.om_ring.specs.declared.line.TheConstants.{LINE_BYTES};
ghost use Rattle.om_io.specs.declared.buffer.TheConstants.{ROOM_BYTES};
ghost use Rattle.om_io.specs.Writing.{Writes, outlet};
ghost use Rattle.om_listing.specs.Parts.{flow_part, flow_parts};

use om_colour::{Flow, flow_text};
use om_io::{Failed, Sink, make_room};
use om_ring::Line;

/// Writes a line for each flow.
pub(crate) fn write_flows<W: Sink>(
    flows: &[Flow],
    to: &mut W,
    line: &mut Line,
) -> Result<(), Failed>
    ensures { Writes (outlet (W.written to.old) (W.faults to.old) line.old) (outlet (W.written to.new) (W.faults to.new) line.new) (flow_parts flows.now) result }
{
    for (number, flow) in flows.iter().enumerate() {
        write_flow(number, flow, to, line)?;
    }
    Ok(())
}

fn write_flow<W: Sink>(
    number: usize,
    flow: &Flow,
    to: &mut W,
    line: &mut Line,
) -> Result<(), Failed>
    requires { number + 1 < 2 ^ 64 }
    ensures { Writes (outlet (W.written to.old) (W.faults to.old) line.old) (outlet (W.written to.new) (W.faults to.new) line.new) (flow_part (number, flow.now)) result }
{
    make_room(to, line)?;
    push_flow(number, flow, line);
    Ok(())
}

fn push_flow(number: usize, flow: &Flow, line: &mut Line)
    requires number { number + 1 < 2 ^ 64 }
    requires free { length line.old + ROOM_BYTES ≤ LINE_BYTES }
    ensures { line.new ≡ line.old ++ flow_part (number, flow.now) }
{
    line.push(b"flow ");
    line.push_number(number as u64 + 1);
    line.push(b" ");
    flow_text(flow, line);
    line.push(b"\n");
}
