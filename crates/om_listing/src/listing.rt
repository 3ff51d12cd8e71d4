//! Writing the listing of a graph.
ghost use Rattle.std.specs.Prelude.{◌≡◌, ◌+◌, ◌≤◌, ◌++◌, length, map, OnOk, OnErr};
ghost use Rattle.om_ring.specs.declared.line.TheConstants.{LINE_BYTES};
ghost use Rattle.om_io.specs.declared.buffer.TheConstants.{ROOM_BYTES};
ghost use Rattle.om_io.specs.Bytes.{after_told, AppendsPrefix};
ghost use Rattle.om_io.specs.Causes.{HasCause};
ghost use Rattle.om_io.specs.Lines.{line_text};
ghost use Rattle.om_io.specs.Writing.{Writes, outlet, all_of};
ghost use Rattle.om_model.specs.Order.{Rising};
ghost use Rattle.om_graph.specs.Graph.{numbered_lt};
ghost use Rattle.om_graph.specs.Possible.{unsigned};
ghost use Rattle.om_listing.specs.Listing.{listing, head_words};
ghost use Rattle.om_listing.specs.Parts.{listing_parts};

use crate::flows::write_flows;
use crate::nodes::write_nodes;
use crate::terms::KeystoneLines;
use om_graph::Graph;
use om_io::{Failed, Sink, flush, make_room, write_rows};
use om_keystone::Pruned;
use om_model::Model;
use om_ring::Line;

/// Appends the listing of a graph of the model: its flows, its nodes, each with the fusions that
/// make it, and its keystones. A field that the model hasn't has the empty name. It takes no memory.
///
/// # Errors
///
/// `Failed` only where the sink's count of faults rose. A prefix of the listing, perhaps empty, was
/// then appended.
pub fn write_listing<W: Sink>(model: &Model, pruned: &Pruned, to: &mut W) -> Result<(), Failed>
    ensures ok { OnOk result (W.written to.new ≡ after_told (W.written to.old) (listing model.now pruned.now)) }
    ensures err { OnErr result (AppendsPrefix (W.written to.old) (W.written to.new) (listing model.now pruned.now)) }
    ensures cause { HasCause (W.faults to.old) (W.faults to.new) result }
{
    let mut line = Line::new();
    write_lines(model, pruned.graph(), to, &mut line)?;
    flush(to, &mut line)
}

// Writes all lines through a buffer.
fn write_lines<W: Sink>(
    model: &Model,
    graph: &Graph,
    to: &mut W,
    line: &mut Line,
) -> Result<(), Failed>
    requires { Rising numbered_lt (map unsigned graph.now.terms) }
    ensures { Writes (outlet (W.written to.old) (W.faults to.old) line.old) (outlet (W.written to.new) (W.faults to.new) line.new) (all_of (listing_parts model.now graph.now)) result }
{
    write_head(graph, to, line)?;
    write_flows(graph.flows.as_slice(), to, line)?;
    write_nodes(
        model.particles.as_slice(),
        graph.nodes.as_slice(),
        graph.terms.as_slice(),
        to,
        line,
    )?;
    write_rows(&KeystoneLines, &graph.keys, to, line)
}

// The first line.
fn write_head<W: Sink>(graph: &Graph, to: &mut W, line: &mut Line) -> Result<(), Failed>
    ensures { let g = graph.now in Writes (outlet (W.written to.old) (W.faults to.old) line.old) (outlet (W.written to.new) (W.faults to.new) line.new) (line_text (head_words g)) result }
{
    make_room(to, line)?;
    push_head(graph, line);
    Ok(())
}

fn push_head(graph: &Graph, line: &mut Line)
    requires { length line.old + ROOM_BYTES ≤ LINE_BYTES }
    ensures { let g = graph.now in line.new ≡ line.old ++ line_text (head_words g) }
{
    line.push(b"graph nodes ");
    line.push_number(graph.nodes.len() as u64);
    line.push(b" fusions ");
    line.push_number(graph.terms.len() as u64);
    line.push(b" keystones ");
    line.push_number(graph.keys.len() as u64);
    line.push(b" flows ");
    line.push_number(graph.flows.len() as u64);
    line.push(b"\n");
}
