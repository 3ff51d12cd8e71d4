//! What nodes make that meet, one node of each part, found tuple by tuple.
ghost use Rattle.std.specs.Prelude.{◌≡◌, ℕ, ◌+◌, ◌≤◌, ◌<◌, List as ListOf, Bool, false, Some, length, OnOk};
ghost use Rattle.om_graph.specs.Caches.{AllBelow};
ghost use Rattle.om_graph.specs.Fillings.{AreFillings, filled_at, sides_of};
ghost use Rattle.om_graph.specs.Graph.{at_numbers};
ghost use Rattle.om_graph.specs.Loops.{Adds, AllFrom, MeetWell, Signed, chosen_nodes, meet_by};
ghost use Rattle.om_graph.specs.Reactions.{reaction_in};
ghost use Rattle.om_graph.specs.Tuples.{met, met_from};
ghost use Rattle.om_graph.specs.Vertices.{Reaction as ReactionOf};
ghost use Rattle.om_graph.specs.declared.Key.{Key as KeyOf};
ghost use Rattle.om_graph.specs.declared.fields.Meeting.{Meeting as MeetingOf};

use crate::chosen::Chosen;
use crate::fields::Meeting;
use crate::fillings::Fillings;
use crate::nodes::Nodes;
use crate::parts::Parts;
use crate::reaction::Reaction;
use crate::{BuildFault, Key};
use om_legs::LegSet;
use std::alloc::Global;

/// Nodes that meet in one way: at a vertex with an edge upwards, or at a keystone.
pub(crate) trait Meets {
    /// A key or a flow.
    type Made;

    /// Where what they make is put.
    type Found;

    /// Their keys, by number.
    ghost keys: { Self → ListOf KeyOf };

    /// Whether they leave no slot.
    ghost closing: { Bool };

    /// How many meet at least; at most it is one more.
    ghost fewest: { ℕ };

    /// What they make at a vertex.
    ghost made: { ReactionOf → ListOf ℕ → ListOf KeyOf → MeetingOf → ListOf (Signed Self.Made) };

    /// Their colour lines fit there.
    ghost fit: { ReactionOf → ListOf KeyOf → MeetingOf → Type 0 };

    /// What was found, with its signs.
    ghost seen: { Self.Found → ListOf (Signed Self.Made) };

    /// The nodes alone.
    fn nodes(&self) -> &Nodes
        ensures { result.now ≡ keys self.now };

    /// Adds what chosen nodes make at a vertex by each of its choices, up to the limit.
    fn add_choices(
        &self,
        reaction: &Reaction<'_>,
        meeting: Meeting,
        parts: &Parts,
        at: &[Key],
        limit: usize,
        chosen: Chosen,
        found: &mut Self::Found,
    ) -> Result<(), BuildFault>
        requires some { fewest ≤ chosen.count }
        requires few { chosen.count ≤ fewest + 1 }
        requires known { AllBelow (length (keys self.now)) (chosen_nodes chosen) }
        requires chosen { at_numbers (keys self.now) (chosen_nodes chosen) ≡ Some at.now }
        requires vertex { meeting.vertex < (reaction_in reaction.now).scattering.theory.vertices }
        requires fit { fit (reaction_in reaction.now) at.now meeting }
        requires filled { parts.now ≡ filled_at (reaction_in reaction.now) closing meeting (sides_of at.now) }
        ensures added { Adds limit (seen found.old) (made (reaction_in reaction.now) (chosen_nodes chosen) at.now meeting) (seen found.new) result };

    /// They are two to four, and two or three where they leave a slot.
    ghost bounds: { (2 ≤ fewest) × (fewest ≤ 3) × (closing ≡ false → fewest ≤ 2) };
}

/// Adds what the nodes of these parts make, one node of each, up to the limit.
pub(crate) fn add_tuples<N: Meets>(
    alloc: Global,
    reaction: &Reaction<'_>,
    nodes: &N,
    fillings: &mut Fillings,
    limit: usize,
    parts: &[LegSet],
    chosen: Chosen,
    found: &mut N::Found,
) -> Result<(), BuildFault>
    requires some { N.fewest ≤ chosen.count + length parts.now }
    requires few { chosen.count + length parts.now ≤ N.fewest + 1 }
    requires known { AllBelow (length (N.keys nodes.now)) (chosen_nodes chosen) }
    requires fit { AllFrom (MeetWell (reaction_in reaction.now) N.closing (N.fit (reaction_in reaction.now))) (N.keys nodes.now) (chosen_nodes chosen) parts.now }
    requires cached { AreFillings (reaction_in reaction.now) N.closing fillings.old }
    ensures cached { OnOk result (AreFillings (reaction_in reaction.now) N.closing fillings.new) }
    ensures added { Adds limit (N.seen found.old) (met_from (λ k. k.legs) (meet_by (reaction_in reaction.now) N.closing (N.made (reaction_in reaction.now))) (N.keys nodes.now) (chosen_nodes chosen) parts.now) (N.seen found.new) result }
{
    match parts {
        [] => add_meetings(alloc, reaction, nodes, fillings, limit, chosen, found),
        [part, more @ ..] => {
            let known = nodes.nodes();
            let range = known.of(*part);
            for node in range.first..range.end {
                let chosen = chosen.with(node);
                if let Err(fault) = add_tuples(
                    alloc, reaction, nodes, fillings, limit, more, chosen, found,
                ) {
                    return Err(fault);
                }
            }
            Ok(())
        },
    }
}

fn add_meetings<N: Meets>(
    alloc: Global,
    reaction: &Reaction<'_>,
    nodes: &N,
    fillings: &mut Fillings,
    limit: usize,
    chosen: Chosen,
    found: &mut N::Found,
) -> Result<(), BuildFault>
    requires some { N.fewest ≤ chosen.count }
    requires few { chosen.count ≤ N.fewest + 1 }
    requires known { AllBelow (length (N.keys nodes.now)) (chosen_nodes chosen) }
    requires fit { (ks : ListOf KeyOf) → at_numbers (N.keys nodes.now) (chosen_nodes chosen) ≡ Some ks → MeetWell (reaction_in reaction.now) N.closing (N.fit (reaction_in reaction.now)) ks }
    requires cached { AreFillings (reaction_in reaction.now) N.closing fillings.old }
    ensures cached { OnOk result (AreFillings (reaction_in reaction.now) N.closing fillings.new) }
    ensures added { Adds limit (N.seen found.old) (met (meet_by (reaction_in reaction.now) N.closing (N.made (reaction_in reaction.now))) (N.keys nodes.now) (chosen_nodes chosen)) (N.seen found.new) result }
{
    let known = nodes.nodes();
    let all = known.keys_of(chosen);
    let keys = &all[..chosen.count as usize];
    if let Err(_) = fillings.find(alloc, reaction, keys) {
        return Err(BuildFault::Memory);
    }
    let fillings = fillings.all();
    for filling in fillings {
        let (meeting, parts) = (filling.meeting, &filling.parts);
        if let Err(fault) = nodes.add_choices(
            reaction, meeting, parts, keys, limit, chosen, found,
        ) {
            return Err(fault);
        }
    }
    Ok(())
}
