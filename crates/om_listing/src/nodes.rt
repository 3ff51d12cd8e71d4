//! The lines of nodes, each with those of the fusions that make it.
ghost use Rattle.std.specs.Prelude.{◌≡◌, ◌+◌, ◌<◌, ◌^◌, ◌≤◌, ◌++◌, length, map, not, eqb};
ghost use Rattle.std.specs.List.{position, position_or_len};
ghost use Rattle.om_ring.specs.declared.line.TheConstants.{LINE_BYTES};
ghost use Rattle.om_io.specs.declared.buffer.TheConstants.{ROOM_BYTES};
ghost use Rattle.om_io.specs.Writing.{Writes, outlet};
ghost use Rattle.om_model.specs.Order.{Rising};
ghost use Rattle.om_graph.specs.Graph.{numbered_lt};
ghost use Rattle.om_graph.specs.Possible.{unsigned};
ghost use Rattle.om_graph.specs.declared.Term.{Term as TermOf};
ghost use Rattle.om_listing.specs.Parts.{fusion_lines, node_line, node_parts};

use crate::terms::FusionLines;
use om_colour::partial_text;
use om_graph::{Key, Term};
use om_io::{Failed, Sink, make_room, write_each};
use om_model::{Particle, field_name, push_leg_set};
use om_ring::Line;

/// Writes a line for each node, and behind it one for each fusion that makes it. The terms stand in
/// order of the nodes that they make.
pub(crate) fn write_nodes<W: Sink>(
    particles: &[Particle],
    nodes: &[Key],
    terms: &[Term],
    to: &mut W,
    line: &mut Line,
) -> Result<(), Failed>
    requires { Rising numbered_lt (map unsigned terms.now) }
    ensures { Writes (outlet (W.written to.old) (W.faults to.old) line.old) (outlet (W.written to.new) (W.faults to.new) line.new) (node_parts particles.now terms.now nodes.now) result }
{
    let mut rest = terms;
    for (number, key) in nodes.iter().enumerate() {
        let (fusions, later) = rest.split_at(count_of_node(number, rest));
        write_node(particles, number, key, fusions, to, line)?;
        rest = later;
    }
    Ok(())
}

// How many of the terms, from the front on, make a node.
fn count_of_node(number: usize, terms: &[Term]) -> usize
    ensures { result ≡ position_or_len (λ (x : TermOf). not (eqb x.node number)) terms.now }
{
    first_of_another(number, terms).unwrap_or(terms.len())
}

// The place of the first of the terms that makes another node.
fn first_of_another(number: usize, terms: &[Term]) -> Option<usize>
    ensures { result ≡ position (λ (x : TermOf). not (eqb x.node number)) terms.now }
{
    terms.iter().position(|term| term.node as usize != number)
}

// Writes the line of a node, and those of the fusions that make it.
fn write_node<W: Sink>(
    particles: &[Particle],
    number: usize,
    key: &Key,
    fusions: &[Term],
    to: &mut W,
    line: &mut Line,
) -> Result<(), Failed>
    requires { number + 1 < 2 ^ 64 }
    ensures { Writes (outlet (W.written to.old) (W.faults to.old) line.old) (outlet (W.written to.new) (W.faults to.new) line.new) (node_line particles.now number key.now ++ fusion_lines fusions.now) result }
{
    write_node_line(particles, number, key, to, line)?;
    write_each(&FusionLines, fusions, to, line)
}

fn write_node_line<W: Sink>(
    particles: &[Particle],
    number: usize,
    key: &Key,
    to: &mut W,
    line: &mut Line,
) -> Result<(), Failed>
    requires { number + 1 < 2 ^ 64 }
    ensures { Writes (outlet (W.written to.old) (W.faults to.old) line.old) (outlet (W.written to.new) (W.faults to.new) line.new) (node_line particles.now number key.now) result }
{
    make_room(to, line)?;
    push_node(particles, number, key, line);
    Ok(())
}

fn push_node(particles: &[Particle], number: usize, key: &Key, line: &mut Line)
    requires number { number + 1 < 2 ^ 64 }
    requires free { length line.old + ROOM_BYTES ≤ LINE_BYTES }
    ensures { line.new ≡ line.old ++ node_line particles.now number key.now }
{
    line.push(b"node ");
    line.push_number(number as u64 + 1);
    line.push(b" ");
    push_leg_set(key.legs, line);
    line.push(b" ");
    line.push(field_name(particles, key.field));
    line.push(b" ");
    partial_text(&key.partial, line);
    line.push(b"\n");
}
