//! The edges of the sets of legs in the text of a process.
ghost use Rattle.std.specs.Prelude.{◌≡◌, ◌≤◌};
ghost use Rattle.om_model.specs.Tokens.{tokens_of};
ghost use Rattle.om_model.specs.ProcessText.{GivesEdges, edge_read, edges_from};

use super::tokens::next_token;
use crate::ProcessFault;
use crate::leg_set_text::{LegsRead, read_legs};
use om_legs::LegSet;
use om_ring::List;
use std::alloc::Global;

/// The edges that the sets of a text name among so many legs, or the first set that names none.
pub(crate) fn named_edges(
    alloc: Global,
    legs: u8,
    text: &[u8],
) -> Result<List<LegSet>, ProcessFault>
    requires { 2 ≤ legs }
    ensures { GivesEdges (edges_from legs (tokens_of text.now)) result }
{
    let mut edges = List::new(alloc);
    let mut at = 0;
    while let Some(token) = next_token(text, at) {
        if let Some(read) = read_legs(&text[token.start..token.end]) {
            let Some(edge) = edge_of(read, legs) else {
                return Err(ProcessFault::Edge(token.start));
            };
            let Ok(()) = edges.push(edge) else {
                return Err(ProcessFault::Memory);
            };
        }
        at = token.end;
    }
    Ok(edges)
}

// The edge among n legs; none where a leg is above n, or fewer than two or more than n - 2 legs are in the set.
fn edge_of(read: LegsRead, n: u8) -> Option<LegSet>
    requires { 2 ≤ n }
    ensures { result ≡ edge_read n read }
{
    let size = read.legs.size();
    if read.greatest > n || size < 2 || size > n - 2 {
        return None;
    }
    Some(read.legs)
}
