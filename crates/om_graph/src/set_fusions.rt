//! What nodes fuse to over one set of legs, split by split.
ghost use Rattle.std.specs.Prelude.{◌≡◌, ℕ, ◌≤◌, ◌++◌, List as ListOf, [], map, flat_map, length, Contains, OnOk, false};
ghost use Rattle.om_legs.specs.Legs.{complement};
ghost use Rattle.om_legs.specs.Splits.{AreSplits};
ghost use Rattle.om_graph.specs.Fillings.{AreFillings};
ghost use Rattle.om_graph.specs.Loops.{Adds, CanMeetFrom, CanMeetOver, fused_seen, meet_fused, met_parts};
ghost use Rattle.om_graph.specs.Reactions.{reaction_in};

use crate::BuildFault;
use crate::chosen::Chosen;
use crate::fillings::Fillings;
use crate::fusions::Fused;
use crate::meets::add_tuples;
use crate::nodes::Nodes;
use crate::reaction::Reaction;
use crate::valence::has_valence;
use om_legs::{LegSet, ThreeParts, TwoParts, splits2, splits3};
use std::alloc::Global;

/// Adds what the nodes of the parts of a set fuse to, over its splits into two and three parts, up to the limit.
pub(crate) fn add_fusions(
    alloc: Global,
    reaction: &Reaction<'_>,
    nodes: &Nodes,
    fillings: &mut Fillings,
    limit: usize,
    set: LegSet,
    found: &mut Vec<Fused>,
) -> Result<(), BuildFault>
    requires join { CanMeetOver (reaction_in reaction.now) nodes.now set }
    requires cached { AreFillings (reaction_in reaction.now) false fillings.old }
    ensures cached { OnOk result (AreFillings (reaction_in reaction.now) false fillings.new) }
    ensures added { (twos threes : ListOf (ListOf ℕ)) × AreSplits 2 set twos × AreSplits 3 set threes × Adds limit (map fused_seen found.old.items) (flat_map (met_parts (reaction_in reaction.now) (meet_fused (reaction_in reaction.now)) nodes.now (complement set (reaction_in reaction.now).scattering.size)) twos ++ flat_map (met_parts (reaction_in reaction.now) (meet_fused (reaction_in reaction.now)) nodes.now (complement set (reaction_in reaction.now).scattering.size)) threes) (map fused_seen found.new.items) result }
{
    let rest = set.complement(reaction.size());
    let twos = splits2(set);
    let threes = splits3(set);
    if let Err(fault) = add_pairs(alloc, reaction, nodes, fillings, limit, twos, rest, found) {
        return Err(fault);
    }
    add_triples(alloc, reaction, nodes, fillings, limit, threes, rest, found)
}

// What the nodes of two parts fuse to, over some splits.
fn add_pairs(
    alloc: Global,
    reaction: &Reaction<'_>,
    nodes: &Nodes,
    fillings: &mut Fillings,
    limit: usize,
    splits: TwoParts,
    rest: LegSet,
    found: &mut Vec<Fused>,
) -> Result<(), BuildFault>
    requires join { (parts : ListOf ℕ) → Contains splits parts → CanMeetFrom (reaction_in reaction.now) nodes.now [] parts }
    requires lengths { (parts : ListOf ℕ) → Contains splits parts → length parts ≡ 2 }
    requires cached { AreFillings (reaction_in reaction.now) false fillings.old }
    ensures cached { OnOk result (AreFillings (reaction_in reaction.now) false fillings.new) }
    ensures added { Adds limit (map fused_seen found.old.items) (flat_map (met_parts (reaction_in reaction.now) (meet_fused (reaction_in reaction.now)) nodes.now rest) splits) (map fused_seen found.new.items) result }
{
    for parts in splits {
        if let Err(fault) = add_split(
            alloc, reaction, nodes, fillings, limit, &parts, rest, found,
        ) {
            return Err(fault);
        }
    }
    Ok(())
}

// What the nodes of three parts fuse to, over some splits.
fn add_triples(
    alloc: Global,
    reaction: &Reaction<'_>,
    nodes: &Nodes,
    fillings: &mut Fillings,
    limit: usize,
    splits: ThreeParts,
    rest: LegSet,
    found: &mut Vec<Fused>,
) -> Result<(), BuildFault>
    requires join { (parts : ListOf ℕ) → Contains splits parts → CanMeetFrom (reaction_in reaction.now) nodes.now [] parts }
    requires lengths { (parts : ListOf ℕ) → Contains splits parts → length parts ≡ 3 }
    requires cached { AreFillings (reaction_in reaction.now) false fillings.old }
    ensures cached { OnOk result (AreFillings (reaction_in reaction.now) false fillings.new) }
    ensures added { Adds limit (map fused_seen found.old.items) (flat_map (met_parts (reaction_in reaction.now) (meet_fused (reaction_in reaction.now)) nodes.now rest) splits) (map fused_seen found.new.items) result }
{
    if !has_valence(reaction, 4) {
        return Ok(());
    }
    for parts in splits {
        if let Err(fault) = add_split(
            alloc, reaction, nodes, fillings, limit, &parts, rest, found,
        ) {
            return Err(fault);
        }
    }
    Ok(())
}

// What the nodes of some parts fuse to, where the named edges stay whole.
#[tactic(auto, unfolding(crate::specs::Loops::met_parts, crate::specs::Loops::meet_fused))]
fn add_split(
    alloc: Global,
    reaction: &Reaction<'_>,
    nodes: &Nodes,
    fillings: &mut Fillings,
    limit: usize,
    parts: &[LegSet],
    rest: LegSet,
    found: &mut Vec<Fused>,
) -> Result<(), BuildFault>
    requires some { 2 ≤ length parts.now }
    requires few { length parts.now ≤ 3 }
    requires join { CanMeetFrom (reaction_in reaction.now) nodes.now [] parts.now }
    requires cached { AreFillings (reaction_in reaction.now) false fillings.old }
    ensures cached { OnOk result (AreFillings (reaction_in reaction.now) false fillings.new) }
    ensures added { Adds limit (map fused_seen found.old.items) (met_parts (reaction_in reaction.now) (meet_fused (reaction_in reaction.now)) nodes.now rest parts.now) (map fused_seen found.new.items) result }
{
    if reaction.keeps_edges(rest, parts) {
        let none = Chosen::new();
        add_tuples(alloc, reaction, nodes, fillings, limit, parts, none, found)
    } else {
        Ok(())
    }
}
