//! Nodes with the lines of each, for closing.
ghost use Rattle.std.specs.Prelude.{◌≡◌, ◌≤◌, Some, length, map, take, IfOk};
ghost use Rattle.om_graph.specs.Caches.{AllBelow};
ghost use Rattle.om_graph.specs.Graph.{at_numbers};
ghost use Rattle.om_graph.specs.Loops.{chosen_nodes};
ghost use Rattle.om_graph.specs.Words.{lines_of_key};

use crate::chosen::Chosen;
use crate::lines::{Lines, lines_of};
use crate::nodes::Nodes;
use om_ring::NoMemory;
use std::alloc::Global;
use std::marker::Model;

/// Seen as the nodes.
#[derive(Drop)]
pub(crate) struct Linked<'a> {
    nodes: &'a Nodes,
    lines: Vec<Lines>,
}

impl<'a> Model for Linked<'a> {
    ghost use Rattle.std.specs.Prelude.{◌≡◌, List, map};
    ghost use Rattle.om_graph.specs.Words.{lines_of_key};
    ghost use Rattle.om_graph.specs.declared.Key.{Key as KeyOf};

    ghost Value = { List KeyOf };

    ghost view = { λ x. x.nodes.now };

    ghost invariant = { λ x. x.lines.items ≡ map lines_of_key x.nodes.now };
}

impl<'a> Linked<'a> {
    pub(crate) fn new(alloc: Global, nodes: &'a Nodes) -> Result<Linked<'a>, NoMemory>
        ensures { IfOk result (λ linked. linked ≡ nodes.now) }
    {
        let mut lines = Vec::new(alloc);
        for key in nodes.keys() {
            if lines.push(lines_of(&key.partial)).is_err() {
                return Err(NoMemory);
            }
        }
        Ok(Linked { nodes, lines })
    }

    /// The nodes alone.
    pub(crate) fn nodes(&self) -> &Nodes
        ensures { result.now ≡ self.now }
    {
        self.nodes
    }

    /// The lines of three or four chosen nodes; the place past three holds the first.
    pub(crate) fn lines_of(&self, chosen: Chosen) -> [Lines; 4]
        requires some { 3 ≤ chosen.count }
        requires few { chosen.count ≤ 4 }
        requires known { AllBelow (length self.now) (chosen_nodes chosen) }
        ensures { at_numbers (map lines_of_key self.now) (chosen_nodes chosen) ≡ Some (take chosen.count result) }
    {
        let known = self.lines.as_slice();
        let (a, b) = (chosen.first as usize, chosen.second as usize);
        let (c, d) = (chosen.third as usize, chosen.fourth as usize);
        match chosen.count {
            3 => [known[a], known[b], known[c], known[a]],
            4 => [known[a], known[b], known[c], known[d]],
            _ => unreachable!(),
        }
    }
}
